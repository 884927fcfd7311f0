//! Chunks that are freed.

ghost use Rattle.std.specs.Prelude.{◌≡◌, ◌≤◌, ◌<◌, ◌↔◌, ℕ, IsTrue, OnErr};
ghost use Rattle.bx_places.specs.Handles.{parts_of};
ghost use Rattle.bx_layout.specs.Areas.{IsArea};
ghost use Rattle.bx_truth.specs.Chunks.{IsChunked};
ghost use Rattle.bx_truth.specs.bx_views.specs.Attempts.{IsHeldDraft};
ghost use Rattle.bx_truth.specs.bx_views.specs.Truths.{IsTruth, Truth, with_draft};
ghost use Rattle.bx_chunks.specs.Allocating.{NeedsFairly};
ghost use Rattle.bx_chunks.specs.Freeing.{FreesAt, FreesIn, GivesAt, IsGiven, UsesAt};

use crate::areas::{own_block, seen, slots_of};
use crate::error::ChunkError;
use crate::putting::put_slot;
use bx_base::Mode;
use bx_layout::AreaBlock;
use bx_places::{ChunkHandle, SLOTS};
use bx_records::Draft;
use bx_truth::views::View;
use std::alloc::Global;

/// The kind of blocks that are free.
const FREE: u32 = 0;

/// Frees the chunk of a handle, by the handle's number: the slot keeps its generation, and the block is empty, with 0 for a handle.
///
/// `Need` names a block that is to be held exclusively: the handle's, or the own block of its area. `Stale` comes where the handle names
/// no chunk. On an error the draft is as it was.
pub fn free<V: View>(
    alloc: Global,
    draft: &mut Draft,
    view: &V,
    handle: u64,
) -> Result<(), ChunkError>
    ensures at { FreesAt (V.held view.now) draft.old draft.new handle result }
    ensures map { (areas : ℕ) (truth : Truth) → areas ≤ 64 → (parts_of handle).area < areas → IsTruth (V.held view.now) truth → IsChunked areas (with_draft truth draft.old)
        → FreesIn areas truth draft.old draft.new handle result }
    ensures fair { (areas : ℕ) → (parts_of handle).area < areas → NeedsFairly areas (V.held view.now) result }
    ensures writes { IsHeldDraft (V.held view.now) draft.old → IsHeldDraft (V.held view.now) draft.new }
    ensures err { OnErr result (draft.new ≡ draft.old) }
{
    free_seen(alloc, draft, view, handle)
}

/// The same, by what is held.
fn free_seen<V: View>(
    alloc: Global,
    draft: &mut Draft,
    view: &V,
    handle: u64,
) -> Result<(), ChunkError>
    ensures at { FreesAt (V.held view.now) draft.old draft.new handle result }
    ensures err { OnErr result (draft.new ≡ draft.old) }
{
    let mut slots = slots_of_used(alloc, draft, view, handle)?;
    let parts = ChunkHandle::of(handle);
    slots.free(parts.slot);
    put_slot(alloc, draft, parts.area, &slots, parts.block(), (0, FREE))
}

/// The slots of the area of a handle that is in use.
fn slots_of_used<V: View>(
    alloc: Global,
    draft: &Draft,
    view: &V,
    handle: u64,
) -> Result<AreaBlock, ChunkError>
    ensures { UsesAt (V.held view.now) draft.now handle result }
{
    let parts = ChunkHandle::of(handle);
    if parts.slot >= SLOTS {
        return Err(ChunkError::Stale);
    }
    let at = parts.block();
    match seen(draft, view, at, Mode::Exclusive) {
        None => Err(ChunkError::Need(at, Mode::Exclusive)),
        Some(block) => {
            if block.handle == handle {
                slots_of_given(alloc, draft, view, handle)
            } else {
                Err(ChunkError::Stale)
            }
        }
    }
}

/// The slots of the area of a handle, where its slot's word gives it.
pub fn slots_of_given<V: View>(
    alloc: Global,
    draft: &Draft,
    view: &V,
    handle: u64,
) -> Result<AreaBlock, ChunkError>
    requires { (parts_of handle).slot < 960 }
    ensures { GivesAt (V.held view.now) draft.now handle result }
{
    let parts = ChunkHandle::of(handle);
    let own = own_block(parts.area);
    match seen(draft, view, own, Mode::Exclusive) {
        None => Err(ChunkError::Need(own, Mode::Exclusive)),
        Some(block) => match slots_of(alloc, parts.area, block)? {
            None => Err(ChunkError::Stale),
            Some(slots) => {
                if is_given(&slots, &parts) {
                    Ok(slots)
                } else {
                    Err(ChunkError::Stale)
                }
            }
        },
    }
}

/// Whether the word of a handle's slot is in use, in the handle's generation.
fn is_given(slots: &AreaBlock, parts: &ChunkHandle) -> bool
    requires area { IsArea slots.now }
    requires slot { parts.now.slot < 960 }
    ensures { IsTrue result ↔ IsGiven slots.now parts.now }
{
    slots.is_used(parts.slot) && slots.generation(parts.slot) == parts.generation
}
