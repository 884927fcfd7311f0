//! Chunks that are read.

ghost use Rattle.std.specs.Prelude.{◌≡◌, ◌<◌, ◌≤◌, ℕ, IfOk};
ghost use Rattle.std.specs.Option.{option_copied};
ghost use Rattle.std.specs.Result.{result_map_both};
ghost use Rattle.bx_base.specs.declared.names.Mode.TheVariants.{Shared};
ghost use Rattle.bx_truth.specs.Chunks.{IsChunked, block_at, chunks_of};
ghost use Rattle.bx_truth.specs.bx_views.specs.Truths.{IsTruth, Truth, with_draft};
ghost use Rattle.bx_chunks.specs.Areas.{seen_in};
ghost use Rattle.bx_chunks.specs.Reading.{ReadsAt, ReadsIn};

use crate::areas::{block_at, seen};
use crate::error::ChunkError;
use bx_base::Mode;
use bx_layout::Block;
use bx_records::Draft;
use bx_truth::views::View;

/// The chunk of a handle, by the handle's number. It takes no memory.
///
/// `Need` names its block, exactly where that isn't held, and `Stale` comes exactly where the block's header names another handle.
pub fn read<V: View>(view: &V, handle: u64) -> Result<&Block, ChunkError>
    ensures at { ReadsAt (V.held view.now (block_at handle) Shared) handle (result_map_both (λ block. block.now) (λ error. error) result) }
    ensures map { (areas : ℕ) (truth : Truth) → IsTruth (V.held view.now) truth → IsChunked areas truth → ReadsIn areas (chunks_of areas truth) handle (result_map_both (λ block. block.now) (λ error. error) result) }
{
    named(view.block(block_at(handle), Mode::Shared), handle)
}

/// The chunk of a handle over a view with a draft. `Need` and `Stale` come as they do of `read`.
pub fn read_over<'a, V: View>(
    draft: &'a Draft,
    view: &'a V,
    handle: u64,
) -> Result<&'a Block, ChunkError>
    ensures at { ReadsAt (seen_in (V.held view.now) draft.now (block_at handle) Shared) handle (result_map_both (λ block. block.now) (λ error. error) result) }
    ensures map { (areas : ℕ) (truth : Truth) → IsTruth (V.held view.now) truth → IsChunked areas (with_draft truth draft.now) → ReadsIn areas (chunks_of areas (with_draft truth draft.now)) handle (result_map_both (λ block. block.now) (λ error. error) result) }
{
    named(seen(draft, view, block_at(handle), Mode::Shared), handle)
}

/// A block where its header names the handle.
fn named(found: Option<&Block>, handle: u64) -> Result<&Block, ChunkError>
    ensures { ReadsAt (option_copied found.entry) handle (result_map_both (λ block. block.now) (λ error. error) result) }
{
    match found {
        None => Err(ChunkError::Need(block_at(handle), Mode::Shared)),
        Some(block) => {
            if block.handle == handle {
                Ok(block)
            } else {
                Err(ChunkError::Stale)
            }
        }
    }
}
