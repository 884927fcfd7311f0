//! Areas and blocks, as a view and a draft have them.

ghost use Rattle.std.specs.Prelude.{◌≡◌, ℕ, IfOk, IfSome, IfNone};
ghost use Rattle.std.specs.Option.{option_copied};
ghost use Rattle.bx_layout.specs.declared.area.AreaBlock.{AreaBlock};
ghost use Rattle.bx_layout.specs.Areas.{IsLowestFree};
ghost use Rattle.bx_truth.specs.Chunks.{block_at, own_block};
ghost use Rattle.bx_chunks.specs.Areas.{HasNoFree, HasSlots, seen_in};
ghost use Rattle.bx_chunks.specs.Counting.{HasFreeCount};

use bx_base::{Mode, OutOfMemory};
use bx_layout::{AreaBlock, Block};
use bx_places::ChunkHandle;
use bx_records::Draft;
use bx_truth::views::View;
use std::alloc::Global;

/// The kind of the own blocks of areas.
pub(crate) const AREA: u32 = 4;

/// The number of the block that a handle is in.
pub(crate) fn block_at(handle: u64) -> u64
    ensures { result ≡ block_at handle }
{
    ChunkHandle::of(handle).block()
}

/// The number of the own block of an area.
pub fn own_block(area: u16) -> u64
    ensures { result ≡ own_block area }
{
    ChunkHandle::own(area).block()
}

/// A block that is held in a mode, as the draft leaves it; `None` exactly where it isn't held so.
pub(crate) fn seen<'a, V: View>(
    draft: &'a Draft,
    view: &'a V,
    at: u64,
    mode: Mode,
) -> Option<&'a Block>
    ensures { option_copied result ≡ seen_in (V.held view.now) draft.now at mode }
{
    match view.block(at, mode) {
        None => None,
        Some(held) => match draft.find(at) {
            None => Some(held),
            Some(changed) => Some(changed),
        },
    }
}

/// The slots that a block has as the own block of an area; `None` exactly where it is no such block.
pub fn slots_of(alloc: Global, area: u16, block: &Block) -> Result<Option<AreaBlock>, OutOfMemory>
    ensures some { IfOk result (λ found. IfSome found (λ slots. HasSlots area slots block.now)) }
    ensures none { IfOk result (λ found. IfNone found ((slots : AreaBlock) → HasSlots area slots block.now → ⊥)) }
{
    if block.kind != AREA || block.handle != ChunkHandle::own(area).number() {
        return Ok(None);
    }
    AreaBlock::read(alloc, block.payload.bytes())
}

/// The slots of a block, with the lowest free one; `None` exactly where none is free.
pub(crate) fn lowest_free(
    alloc: Global,
    area: u16,
    block: &Block,
) -> Result<Option<(AreaBlock, u16)>, OutOfMemory>
    ensures some { IfOk result (λ found. IfSome found (λ x. HasSlots area x.0 block.now × IsLowestFree x.0 x.1)) }
    ensures none { IfOk result (λ found. IfNone found (HasNoFree area block.now)) }
    ensures zero { IfOk result (λ found. IfNone found (HasFreeCount area block.now 0)) }
{
    match slots_of(alloc, area, block)? {
        None => Ok(None),
        Some(slots) => match slots.lowest_free() {
            None => Ok(None),
            Some(slot) => Ok(Some((slots, slot))),
        },
    }
}
