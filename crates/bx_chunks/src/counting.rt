//! How many slots are free.

ghost use Rattle.std.specs.Prelude.{◌≡◌, ◌<◌, ◌≤◌, ◌*◌, ℕ, IfOk};
ghost use Rattle.bx_truth.specs.Chunks.{IsChunked};
ghost use Rattle.bx_truth.specs.bx_views.specs.Truths.{IsTruth, Truth};
ghost use Rattle.bx_chunks.specs.Allocating.{NeedsFairly};
ghost use Rattle.bx_chunks.specs.Counting.{CountsAt, CountsIn, HasFreeCount};

use crate::areas::{own_block, slots_of};
use crate::error::ChunkError;
use bx_base::{Mode, OutOfMemory};
use bx_layout::Block;
use bx_truth::views::View;
use std::alloc::Global;

/// How many slots of a volume are free, by the own blocks of its areas in the view.
///
/// `Need` names the own block of the first area that isn't held.
pub fn count_free<V: View>(alloc: Global, view: &V, areas: u16) -> Result<u64, ChunkError>
    ensures at { CountsAt (V.held view.now) areas result }
    ensures map { (truth : Truth) → IsTruth (V.held view.now) truth → IsChunked areas truth → CountsIn areas truth result }
    ensures fair { NeedsFairly areas (V.held view.now) result }
{
    count_held(alloc, view, areas)
}

/// The same, by what is held.
fn count_held<V: View>(alloc: Global, view: &V, areas: u16) -> Result<u64, ChunkError>
    ensures { CountsAt (V.held view.now) areas result }
{
    let mut total = 0;
    for area in 0..areas {
        let own = own_block(area);
        match view.block(own, Mode::Shared) {
            None => return Err(ChunkError::Need(own, Mode::Shared)),
            Some(block) => total += u64::from(count_in(alloc, area, block)?),
        }
    }
    Ok(total)
}

/// How many slots of a block are free; 0 where it isn't the own block of the area.
pub(crate) fn count_in(alloc: Global, area: u16, block: &Block) -> Result<u32, OutOfMemory>
    ensures count { IfOk result (HasFreeCount area block.now) }
    ensures most { IfOk result (λ count. count ≤ 960) }
{
    match slots_of(alloc, area, block)? {
        None => Ok(0),
        Some(slots) => Ok(slots.free_slots()),
    }
}
