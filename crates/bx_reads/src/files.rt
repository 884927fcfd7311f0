//! The file that a file handle names.

ghost use Rattle.std.specs.Prelude.{◌≡◌, ℕ, IfOk, Some, []};
ghost use Rattle.bx_base.specs.declared.names.Mode.TheVariants.{Shared};
ghost use Rattle.bx_files.specs.bx_blink.specs.Walks.{reads_with};
ghost use Rattle.bx_places.specs.Handles.{named};
ghost use Rattle.bx_model.specs.declared.tree.Tree.{Tree};
ghost use Rattle.bx_files.specs.bx_truth.specs.Chunks.{block_at};
ghost use Rattle.bx_views.specs.Truths.{IsTruth, Truth};
ghost use Rattle.bx_files.specs.bx_inodes.specs.Stands.{Stands};
ghost use Rattle.bx_files.specs.bx_inodes.specs.Stops.{NeedsOn, NeverInner, OnInode};
ghost use Rattle.bx_reads.specs.Files.{IsSeen, NamesFile};

use bx_base::Mode;
use bx_files::inodes::{Stop, inode_at};
use bx_layout::Inode;
use bx_model::STALE;
use bx_places::named_handle;
use bx_views::View;
use bx_views::records::Draft;
use std::alloc::Global;

/// The number of the handle, and the inode, of the file that a file handle of the volume names.
///
/// `Need` names the block of its inode, shared, which isn't held then. The status is `STALE`, exactly where the file handle
/// names no file.
pub fn named_inode<V: View>(
    alloc: Global,
    volume: u64,
    areas: u16,
    at: &[u8],
    view: &V,
) -> Result<(u64, Inode), Stop>
    ensures names { (truth : Truth) (tree : Tree) → IsTruth (V.held view.now) truth → Stands volume areas truth tree → NamesFile areas truth tree at.now result }
    ensures sees { IfOk result (λ found. IsSeen (V.held view.now) (V.hints view.now) volume areas at.now found.0 found.1) }
    ensures need { NeedsOn areas (V.held view.now) (OnInode volume at.now Shared) result }
    ensures inner { NeverInner result }
{
    let Some(handle) = named_handle(volume, at) else {
        return Err(Stop::Status(STALE));
    };
    let none = Draft::new(alloc);
    match inode_at(alloc, &none, view, areas, handle, Mode::Shared) {
        Err(stop) => Err(stop),
        Ok(inode) => Ok((handle, inode)),
    }
}
