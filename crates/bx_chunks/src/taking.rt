//! Slots that are taken.

ghost use Rattle.std.specs.Prelude.{◌≡◌, ◌<◌, IsTrue, IfNone, IfSome, OnErr, slice_index};
ghost use Rattle.bx_layout.specs.Areas.{IsArea, is_free};
ghost use Rattle.bx_chunks.specs.Allocating.{HoldsBoth, LacksOneOf, TakesAt, slot_block};

use crate::areas::own_block;
use crate::error::ChunkError;
use crate::putting::put_slot;
use bx_base::Mode;
use bx_layout::AreaBlock;
use bx_places::{AREA_NUMBERS, ChunkHandle};
use bx_records::Draft;
use bx_truth::views::View;
use std::alloc::Global;

/// The kind of data.
const DATA: u32 = 3;

/// Takes a free slot of an area, and gives the number of its new handle. On an error nothing changes.
pub(crate) fn take<V: View>(
    alloc: Global,
    draft: &mut Draft,
    view: &V,
    area: u16,
    mut slots: AreaBlock,
    slot: u16,
) -> Result<u64, ChunkError>
    requires area { IsArea slots }
    requires slot { slot < 960 }
    requires free { IsTrue (is_free (slice_index slots.words slot)) }
    ensures takes { TakesAt (V.held view.now) draft.old draft.new area slots slot result }
    ensures err { OnErr result (draft.new ≡ draft.old) }
{
    let (own, at) = (own_block(area), slot_block(area, slot));
    if let Some(missing) = lacks_one_of(view, own, at) {
        return Err(ChunkError::Need(missing, Mode::Exclusive));
    }
    let generation = slots.take(slot);
    let handle = ChunkHandle {
        area,
        slot,
        generation,
    }
    .number();
    put_slot(alloc, draft, area, &slots, at, (handle, DATA))?;
    Ok(handle)
}

/// The number of the block of a slot.
fn slot_block(area: u16, slot: u16) -> u64
    ensures { result ≡ slot_block area slot }
{
    AREA_NUMBERS * u64::from(area) + u64::from(slot)
}

/// The first of two blocks that isn't held exclusively; `None` exactly where both are.
fn lacks_one_of<V: View>(view: &V, own: u64, at: u64) -> Option<u64>
    ensures some { IfSome result (LacksOneOf (V.held view.now) own at) }
    ensures none { IfNone result (HoldsBoth (V.held view.now) own at) }
{
    match view.block(own, Mode::Exclusive) {
        None => Some(own),
        Some(_) => match view.block(at, Mode::Exclusive) {
            None => Some(at),
            Some(_) => None,
        },
    }
}
