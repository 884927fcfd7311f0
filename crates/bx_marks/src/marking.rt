//! The marks of dead inodes, which wait for cleaning.

ghost use Rattle.std.specs.Prelude.{◌≡◌, ◌<◌, ℕ, OnErr, IfSome, IfNone, false, slice_index};
ghost use Rattle.bx_places.specs.Handles.{number_of, parts_of};
ghost use Rattle.bx_layout.specs.Areas.{IsArea, generation_in, is_dead};
ghost use Rattle.bx_chunks.specs.bx_truth.specs.Chunks.{IsChunked};
ghost use Rattle.bx_views.specs.Attempts.{IsHeldDraft};
ghost use Rattle.bx_views.specs.Truths.{IsTruth, Truth, with_draft};
ghost use Rattle.bx_chunks.specs.Allocating.{NeedsFairly};
ghost use Rattle.bx_chunks.specs.Marking.{FindsDeadAt, FindsDeadIn, IsLowestDead, MarksAt, MarksIn};

use bx_base::Mode;
use bx_chunks::{ChunkError, own_block, put_area, slots_of, slots_of_given};
use bx_layout::AreaBlock;
use bx_places::{ChunkHandle, SLOTS};
use bx_records::Draft;
use bx_views::View;
use std::alloc::Global;

/// Notes in the own block of its area whether the inode of a handle is dead.
///
/// `Need` names that block, which is to be held exclusively. `Stale` comes where the handle isn't in use. On an error the draft is as it
/// was.
pub fn mark_dead<V: View>(
    alloc: Global,
    draft: &mut Draft,
    view: &V,
    handle: u64,
    dead: bool,
) -> Result<(), ChunkError>
    ensures at { MarksAt (V.held view.now) draft.old draft.new handle dead result }
    ensures map { (areas : ℕ) (truth : Truth) → (parts_of handle).area < areas → IsTruth (V.held view.now) truth → IsChunked areas (with_draft truth draft.old)
        → MarksIn areas truth draft.old draft.new handle dead result }
    ensures fair { (areas : ℕ) → (parts_of handle).area < areas → NeedsFairly areas (V.held view.now) result }
    ensures writes { IsHeldDraft (V.held view.now) draft.old → IsHeldDraft (V.held view.now) draft.new }
    ensures err { OnErr result (draft.new ≡ draft.old) }
{
    let parts = ChunkHandle::of(handle);
    if parts.slot >= SLOTS {
        return Err(ChunkError::Stale);
    }
    let mut slots = slots_of_given(alloc, draft, view, handle)?;
    slots.mark_dead(parts.slot, dead);
    put_area(alloc, draft, parts.area, &slots)
}

/// The handle of the lowest slot of an area that is marked as a dead inode's; `None` exactly where none is.
///
/// `Need` names the own block of the area, where it isn't held, and `Stale` comes exactly where what is held there is another block.
pub fn first_dead<V: View>(alloc: Global, view: &V, area: u16) -> Result<Option<u64>, ChunkError>
    ensures at { FindsDeadAt (V.held view.now) area result }
    ensures map { (areas : ℕ) (truth : Truth) → area < areas → IsTruth (V.held view.now) truth → IsChunked areas truth → FindsDeadIn area truth result }
    ensures fair { (areas : ℕ) → area < areas → NeedsFairly areas (V.held view.now) result }
{
    first_dead_held(alloc, view, area)
}

/// The same, by what is held.
fn first_dead_held<V: View>(alloc: Global, view: &V, area: u16) -> Result<Option<u64>, ChunkError>
    ensures { FindsDeadAt (V.held view.now) area result }
{
    let own = own_block(area);
    match view.block(own, Mode::Shared) {
        None => Err(ChunkError::Need(own, Mode::Shared)),
        Some(block) => match slots_of(alloc, area, block)? {
            None => Err(ChunkError::Stale),
            Some(slots) => match lowest_dead(&slots) {
                None => Ok(None),
                Some(slot) => Ok(Some(handle_in(area, &slots, slot))),
            },
        },
    }
}

/// The lowest slot that is marked; `None` exactly where none is.
fn lowest_dead(slots: &AreaBlock) -> Option<u16>
    requires { IsArea slots.now }
    ensures some { IfSome result (IsLowestDead slots.now) }
    ensures none { IfNone result ((slot : ℕ) → slot < 960 → is_dead slots.now slot ≡ false) }
{
    for slot in 0..SLOTS {
        if slots.is_dead(slot) {
            return Some(slot);
        }
    }
    None
}

/// The number of the handle that a slot of an area has in its generation.
fn handle_in(area: u16, slots: &AreaBlock, slot: u16) -> u64
    requires area { IsArea slots.now }
    requires slot { slot < 960 }
    ensures { result ≡ number_of (record { area = area; slot = slot; generation = generation_in (slice_index slots.now.words slot) }) }
{
    ChunkHandle {
        area,
        slot,
        generation: slots.generation(slot),
    }
    .number()
}
