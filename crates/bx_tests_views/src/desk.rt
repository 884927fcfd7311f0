//! A view of the blocks of a volume of one area.

ghost use Rattle.bx_records.specs.Drafts.{block_in};
ghost use Rattle.bx_views.specs.Truths.{no_hints};

use bx_base::{Mode, Raw};
use bx_layout::Block;
use bx_records::{Draft, DraftError};
use bx_views::View;
use std::alloc::Global;

/// The number of the area's own block.
pub(crate) const OWN: u64 = 960;

/// Blocks that are held exclusively, sixteen at most. There are no hints.
#[derive(Drop)]
pub(crate) struct Desk {
    pub(crate) alloc: Global,
    held: Draft,
}

impl View for Desk {
    ghost held = { λ desk at mode. block_in desk.held at };

    ghost hints = { λ desk. no_hints };

    fn block(&self, at: u64, _mode: Mode) -> Option<&Block> {
        self.held.find(at)
    }

    fn hint(&self, _at: u64) -> Option<&Block> {
        None
    }

    ghost shares = { λ desk at block is. is };
}

impl Desk {
    /// Nothing is held.
    pub(crate) fn new(alloc: Global) -> Desk {
        Desk {
            alloc,
            held: Draft::new(alloc),
        }
    }

    /// Holds a block under a number: a header with a handle and a kind, and a payload of these bytes with zeros behind them.
    pub(crate) fn hold(
        &mut self,
        at: u64,
        header: (u64, u32),
        front: &[u8],
    ) -> Result<(), DraftError> {
        let mut bytes = [0; 4096];
        let end = front.len().min(4096);
        bytes[..end].copy_from_slice(&front[..end]);
        let payload = Raw::of(self.alloc, &bytes)?;
        let (handle, kind) = header;
        self.held.put(
            at,
            Block {
                handle,
                kind,
                payload,
            },
        )
    }

    /// Holds the area's own block, with so many of its first slots in use in their first generation.
    pub(crate) fn hold_area(&mut self, used: usize) -> Result<(), DraftError> {
        let mut words = [0; 3840];
        for slot in 0..used.min(960) {
            words[4 * slot] = 128;
            words[4 * slot + 3] = 1;
        }
        self.hold(OWN, (OWN << 32, 4), &words)
    }

    /// Holds what a draft has.
    pub(crate) fn take_in(&mut self, draft: &Draft) -> Result<(), DraftError> {
        for (at, block) in draft.blocks() {
            self.hold(*at, (block.handle, block.kind), block.payload.bytes())?;
        }
        Ok(())
    }
}
