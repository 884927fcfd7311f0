//! STATFS.

ghost use Rattle.std.specs.Prelude.{◌≡◌, ◌≤◌, ◌*◌, ℕ, IfOk};
ghost use Rattle.bx_files.specs.bx_chunks.specs.Counting.{free_slots};
ghost use Rattle.bx_files.specs.bx_inodes.specs.Stands.{Stands};
ghost use Rattle.bx_files.specs.bx_inodes.specs.Stops.{NeedsOn, NeverInner};
ghost use Rattle.bx_model.specs.declared.tree.Tree.{Tree};
ghost use Rattle.bx_files.specs.bx_truth.specs.Chunks.{IsChunked};
ghost use Rattle.bx_views.specs.Truths.{IsTruth, Truth};
ghost use Rattle.bx_reads.specs.Space.{IsFreeCount, IsOwnOf, IsSpace, IsSpaceOf, OnSpace};

use crate::files::named_inode;
use bx_files::chunks::{ChunkError, count_free};
use bx_files::inodes::Stop;
use bx_model::Reply;
use bx_places::SLOTS;
use bx_tree_files::{BLOCK_LEN, words_of};
use bx_views::View;
use std::alloc::Global;

/// The bytes of a transfer.
const MOST_DATA: u32 = 8192;

/// STATFS (RFC 1094, section 2.2.18) of a volume with at most 64 areas, by a file handle of it: the reply, and how many blocks are
/// free, at most 61440.
///
/// `Need` names the block of the file's inode, or the own block of the first area that isn't held where that is held; both shared. The
/// status is `STALE`, exactly where the file handle names no file.
pub fn statfs<V: View>(
    alloc: Global,
    volume: u64,
    areas: u16,
    at: &[u8],
    view: &V,
) -> Result<(Reply, u32), Stop>
    requires { areas ≤ 64 }
    ensures step { (truth : Truth) (tree : Tree) → IsTruth (V.held view.now) truth → Stands volume areas truth tree → IsSpace tree (free_slots areas truth) at.now result }
    ensures most { IfOk result (λ told. told.1 ≤ 61440) }
    ensures need { NeedsOn areas (V.held view.now) (OnSpace volume areas at.now) result }
    ensures inner { NeverInner result }
{
    match named_inode(alloc, volume, areas, at, view) {
        Err(stop) => Err(stop),
        Ok(_) => space_of(alloc, areas, view),
    }
}

/// What STATFS answers of any file, and how many blocks are free.
fn space_of<V: View>(alloc: Global, areas: u16, view: &V) -> Result<(Reply, u32), Stop>
    requires { areas ≤ 64 }
    ensures is { (truth : Truth) → IsTruth (V.held view.now) truth → IsChunked areas truth → IsSpaceOf areas (free_slots areas truth) result }
    ensures most { IfOk result (λ told. told.1 ≤ 61440) }
    ensures need { NeedsOn areas (V.held view.now) (IsOwnOf areas) result }
    ensures inner { NeverInner result }
{
    match free_blocks(alloc, areas, view) {
        Err(stop) => Err(stop),
        Ok(free) => {
            let blocks = u32::from(SLOTS) * u32::from(areas);
            let words = words_of(alloc, &[MOST_DATA, BLOCK_LEN, blocks, free, free])?;
            Ok((Reply::Space(words), free))
        }
    }
}

/// How many blocks of a volume are free.
fn free_blocks<V: View>(alloc: Global, areas: u16, view: &V) -> Result<u32, Stop>
    requires { areas ≤ 64 }
    ensures is { (truth : Truth) → IsTruth (V.held view.now) truth → IsChunked areas truth → IsFreeCount (free_slots areas truth) result }
    ensures most { IfOk result (λ free. free ≤ 61440) }
    ensures need { NeedsOn areas (V.held view.now) (IsOwnOf areas) result }
    ensures inner { NeverInner result }
{
    match count_free(alloc, view, areas) {
        Ok(free) => Ok(free as u32),
        Err(ChunkError::Need(at, mode)) => Err(Stop::Need(at, mode)),
        Err(ChunkError::OutOfMemory) => Err(Stop::OutOfMemory),
        // counting takes no slot and names none
        Err(ChunkError::Stale | ChunkError::Full(_) | ChunkError::Crowded) => unreachable!(),
    }
}
