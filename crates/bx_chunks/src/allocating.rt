//! Chunks that are allocated.

ghost use Rattle.std.specs.Prelude.{◌≡◌, ◌≤◌, ◌<◌, ◌*◌, ℕ, IfOk, OnErr};
ghost use Rattle.bx_truth.specs.Chunks.{IsChunked};
ghost use Rattle.bx_truth.specs.bx_views.specs.Attempts.{IsHeldDraft};
ghost use Rattle.bx_truth.specs.bx_views.specs.Truths.{IsTruth, Truth, with_draft};
ghost use Rattle.bx_chunks.specs.Allocating.{AllocatesAt, AllocatesIn, NeedsFairly};
ghost use Rattle.bx_chunks.specs.Areas.{area_in_turn};
ghost use Rattle.bx_chunks.specs.Choosing.{ChoosesAt, LooksAt, LooksIn};

use crate::areas::{lowest_free, own_block};
use crate::counting::count_in;
use crate::error::ChunkError;
use crate::taking::take;
use bx_base::{Mode, OutOfMemory};
use bx_layout::{AreaBlock, Block};
use bx_records::Draft;
use bx_truth::views::View;
use std::alloc::Global;

/// What is found in an area.
#[derive(Drop)]
enum Found {
    /// Its slots, and the lowest free one.
    Free(AreaBlock, u16),
    /// No slot is free; in the view so many are.
    NoneFree(u64),
}

/// What is found in all areas, one after the other.
#[derive(Drop)]
enum Choice {
    /// An area, its slots, and the lowest free one.
    Slot(u16, AreaBlock, u16),
    /// No slot is free; in the view so many are.
    Nowhere(u64),
}

/// Allocates a chunk: it takes the lowest free slot of an area, `near`, or of the areas after it in turn, where that one has none. It
/// gives the number of the new handle. The chunk is a block of zeros of kind 3, which the caller puts anew.
///
/// `Need` names a block that is to be held exclusively: the next area's own one where it isn't held at all, that of the area of the slot,
/// or the slot's. `Full` tells how many slots are free in the view. On an error the draft is as it was.
pub fn allocate<V: View>(
    alloc: Global,
    draft: &mut Draft,
    view: &V,
    near: u16,
    areas: u16,
) -> Result<u64, ChunkError>
    ensures at { AllocatesAt (V.held view.now) draft.old draft.new near areas result }
    ensures map { (truth : Truth) → areas ≤ 64 → IsTruth (V.held view.now) truth → IsChunked areas (with_draft truth draft.old) → AllocatesIn areas truth draft.old draft.new result }
    ensures fair { NeedsFairly areas (V.held view.now) result }
    ensures writes { IsHeldDraft (V.held view.now) draft.old → IsHeldDraft (V.held view.now) draft.new }
    ensures err { OnErr result (draft.new ≡ draft.old) }
{
    allocate_seen(alloc, draft, view, near, areas)
}

/// The same, by what is held.
fn allocate_seen<V: View>(
    alloc: Global,
    draft: &mut Draft,
    view: &V,
    near: u16,
    areas: u16,
) -> Result<u64, ChunkError>
    ensures at { AllocatesAt (V.held view.now) draft.old draft.new near areas result }
    ensures err { OnErr result (draft.new ≡ draft.old) }
{
    match choose(alloc, draft, view, near, areas)? {
        Choice::Slot(area, slots, slot) => take(alloc, draft, view, area, slots, slot),
        Choice::Nowhere(spare) => Err(ChunkError::Full(spare)),
    }
}

/// The first area in turn with a free slot.
fn choose<V: View>(
    alloc: Global,
    draft: &Draft,
    view: &V,
    near: u16,
    areas: u16,
) -> Result<Choice, ChunkError>
    ensures { ChoosesAt (V.held view.now) draft.now near areas result }
{
    let mut spare = 0;
    for turn in 0..areas {
        let area = area_in_turn(near, turn, areas);
        match look(alloc, draft, view, area)? {
            Found::Free(slots, slot) => return Ok(Choice::Slot(area, slots, slot)),
            Found::NoneFree(count) => spare += count,
        }
    }
    Ok(Choice::Nowhere(spare))
}

/// An area by its turn, from one on.
fn area_in_turn(near: u16, turn: u16, areas: u16) -> u16
    requires { turn < areas }
    ensures { result ≡ area_in_turn near areas turn }
{
    ((u32::from(near) + u32::from(turn)) % u32::from(areas)) as u16
}

/// What is found in one area. The slots of its own block are read once, and where the draft changes it and none is free, once more in
/// the view.
fn look<V: View>(alloc: Global, draft: &Draft, view: &V, area: u16) -> Result<Found, ChunkError>
    ensures { LooksAt (V.held view.now) draft.now area result }
{
    let own = own_block(area);
    match view.block(own, Mode::Shared) {
        None => Err(ChunkError::Need(own, Mode::Exclusive)),
        Some(held) => match draft.find(own) {
            None => {
                let found = look_in(alloc, area, held)?;
                Ok(found)
            }
            Some(changed) => {
                let found = look_in_both(alloc, area, changed, held)?;
                Ok(found)
            }
        },
    }
}

/// What is found in an area's own block that isn't changed.
fn look_in(alloc: Global, area: u16, block: &Block) -> Result<Found, OutOfMemory>
    ensures { IfOk result (LooksIn area block.now block.now) }
{
    match lowest_free(alloc, area, block)? {
        Some((slots, slot)) => Ok(Found::Free(slots, slot)),
        None => Ok(Found::NoneFree(0)),
    }
}

/// What is found in an area's own block that is changed, and is held as it was.
fn look_in_both(
    alloc: Global,
    area: u16,
    changed: &Block,
    held: &Block,
) -> Result<Found, OutOfMemory>
    ensures { IfOk result (LooksIn area changed.now held.now) }
{
    match lowest_free(alloc, area, changed)? {
        Some((slots, slot)) => Ok(Found::Free(slots, slot)),
        None => {
            let count = count_in(alloc, area, held)?;
            Ok(Found::NoneFree(u64::from(count)))
        }
    }
}
