//! Pieces of regular files: the blocks of 4096 bytes that the trees of files name.

ghost use Rattle.std.specs.Prelude.{◌≡◌, ℕ, [], Some};
ghost use Rattle.std.specs.Option.{option_copied};
ghost use Rattle.std.specs.Result.{result_map_both};
ghost use Rattle.bx_layout.specs.declared.block.Block.{Block as Kept};
ghost use Rattle.bx_chunks.specs.bx_truth.specs.Chunks.{IsChunked, chunks_of};
ghost use Rattle.bx_chunks.specs.bx_truth.specs.Stored.{HasContents, Owner, Stored, piece_of};
ghost use Rattle.bx_views.specs.Truths.{IsTruth, Truth};
ghost use Rattle.bx_inodes.specs.bx_blink.specs.Hints.{Under};
ghost use Rattle.bx_inodes.specs.Stops.{NeedsOn, NeverInner};
ghost use Rattle.bx_files.specs.Paths.{IsBlockOf, OnPiece};
ghost use Rattle.bx_files.specs.Reads.{Tells};

use crate::keys::content_key;
use crate::searching::{needed, value_at};
use bx_chunks::ChunkError;
use bx_inodes::Stop;
use bx_inodes::blink::handle_in;
use bx_layout::Block;
use bx_model::STALE;
use bx_views::View;
use std::alloc::Global;

/// How many bytes a piece has.
pub const PIECE: usize = 4096;

/// The block of the piece with an index of a regular file, by the handle of the root of its tree; `None` exactly where the file has
/// a hole there.
///
/// `Need` names a block of the volume that isn't held, shared: one on the path of the search for the piece, or the piece's own. The
/// status is `STALE`, where what is held is no file.
pub(crate) fn piece_at<V: View>(
    alloc: Global,
    areas: u16,
    view: &V,
    root: u64,
    index: u32,
) -> Result<Option<&Block>, Stop>
    ensures tree { (truth : Truth) (owner : ℕ → Owner) (handle : ℕ) (stored : Stored) → Under areas (V.held view.now) (V.hints view.now) truth [] root stored.tree
        → HasContents (chunks_of areas truth) owner handle stored
        → Tells (piece_of (chunks_of areas truth) stored.tree index) (result_map_both (λ found. option_copied found) (λ stop. stop) result) }
    ensures need { NeedsOn areas (V.held view.now) (OnPiece (V.held view.now) (V.hints view.now) root index) result }
    ensures inner { NeverInner result }
{
    let key = content_key(index);
    match value_at(alloc, areas, view, root, &key) {
        Err(stop) => Err(stop),
        Ok(None) => Ok(None),
        Ok(Some(value)) => block_of(areas, view, handle_in(value.bytes())),
    }
}

/// The block of a handle that is in use.
fn block_of<V: View>(areas: u16, view: &V, handle: u64) -> Result<Option<&Block>, Stop>
    ensures chunk { (truth : Truth) (block : Kept) → IsTruth (V.held view.now) truth → IsChunked areas truth → chunks_of areas truth handle ≡ Some block
        → Tells (Some block) (result_map_both (λ found. option_copied found) (λ stop. stop) result) }
    ensures need { NeedsOn areas (V.held view.now) (IsBlockOf handle) result }
    ensures inner { NeverInner result }
{
    match bx_chunks::read(view, handle) {
        Ok(block) => Ok(Some(block)),
        Err(ChunkError::Need(at, _)) => Err(needed(areas, at)),
        Err(ChunkError::Stale) => Err(Stop::Status(STALE)),
        // reading takes no slot and no memory
        Err(ChunkError::Full(_) | ChunkError::OutOfMemory | ChunkError::Crowded) => unreachable!(),
    }
}
