//! What a call changes.

ghost use Rattle.std.specs.Prelude.{◌≡◌, ◌↔◌, [], length, None, IsErrOf, OnOk, OnErr};
ghost use Rattle.std.specs.Option.{option_copied};
ghost use Rattle.bx_records.specs.Drafts.{IsDraft, block_in, with_block, place_in};
ghost use Rattle.bx_records.specs.declared.draft.DraftError.TheVariants.{OutOfMemory as MemoryRanOut, Crowded};

use bx_layout::Block;
use bx_layout::base::List;
use bx_layout::places::MOST_BLOCKS;
use std::alloc::Global;
use std::marker::Model;
use thiserror::Error;

/// Why a block wasn't put.
#[derive(Clone, Copy, PartialEq, Eq, Debug, Error)]
pub enum DraftError {
    /// There are sixteen other blocks.
    #[error("more than sixteen blocks")]
    Crowded,
    /// Memory ran out.
    #[error("out of memory")]
    OutOfMemory,
}

impl From<bx_layout::base::OutOfMemory> for DraftError {
    ghost from_gives = { λ _ error. error ≡ MemoryRanOut };

    fn from(_error: bx_layout::base::OutOfMemory) -> DraftError {
        DraftError::OutOfMemory
    }
}

/// The blocks that a call changes, at most 16, each once, with its number. Contracts see it as their list, in the order
/// in which they were first put.
#[derive(Drop)]
pub struct Draft {
    blocks: List<(u64, Block)>,
}

impl Model for Draft {
    ghost use Rattle.std.specs.Prelude.{List};
    ghost use Rattle.bx_records.specs.Drafts.{Changed, IsDraft};

    ghost Value = { List Changed };

    ghost view = { λ draft. draft.blocks };

    ghost invariant = { λ draft. IsDraft draft.blocks };
}

impl Draft {
    /// No blocks yet. It takes no memory.
    pub fn new(alloc: Global) -> Draft
        ensures { result ≡ [] }
    {
        Draft {
            blocks: List::new(alloc),
        }
    }

    /// The block with a number; `None` exactly where there is none.
    pub fn find(&self, at: u64) -> Option<&Block>
        ensures { option_copied result ≡ block_in self.now at }
    {
        for (number, block) in self.blocks.items() {
            if *number == at {
                return Some(block);
            }
        }
        None
    }

    /// Puts a block, in the place of the one that has its number. `Crowded` exactly where there are sixteen others. On an
    /// error nothing changes.
    pub fn put(&mut self, at: u64, block: Block) -> Result<(), DraftError>
        ensures ok { OnOk result (self.new ≡ with_block self.old at block) }
        ensures err { OnErr result (self.new ≡ self.old) }
        ensures crowded { IsErrOf result Crowded ↔ ((length self.old ≡ 16) × (block_in self.old at ≡ None)) }
    {
        match self.place_of(at) {
            Some(place) => self.blocks.set(place, (at, block)),
            None => {
                if self.blocks.len() == MOST_BLOCKS {
                    return Err(DraftError::Crowded);
                }
                self.blocks.push((at, block))?;
            }
        }
        Ok(())
    }

    /// The blocks with their numbers, in the order in which they were first put.
    pub fn blocks(&self) -> &[(u64, Block)]
        ensures is { result.now ≡ self.now }
        ensures draft { IsDraft self.now }
    {
        self.blocks.items()
    }

    /// The place of the block with a number.
    fn place_of(&self, at: u64) -> Option<usize>
        ensures { result ≡ place_in self.now at }
    {
        let blocks = self.blocks.items();
        for place in 0..blocks.len() {
            if blocks[place].0 == at {
                return Some(place);
            }
        }
        None
    }
}
