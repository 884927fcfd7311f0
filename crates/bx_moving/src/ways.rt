//! Whether a directory may move into another one.

ghost use Rattle.std.specs.Prelude.{◌≡◌, ◌==◌, if◌then◌else◌, ℕ, true, Some, None};
ghost use Rattle.bx_inodes.specs.Stands.{Stands};
ghost use Rattle.bx_inodes.specs.Stops.{NeedsOn, NeverInner};
ghost use Rattle.bx_model.specs.declared.tree.Tree.{Tree};
ghost use Rattle.bx_model.specs.FileTrees.{is_directory_at};
ghost use Rattle.bx_model.specs.Moves.{way_errors};
ghost use Rattle.bx_views.specs.Truths.{IsTruth, Truth};
ghost use Rattle.bx_moving.specs.Ways.{OnWay, TellsError};

use bx_base::Mode;
use bx_inodes::{Stop, inode_at};
use bx_model::{NAMETOOLONG, PERM};
use bx_records::Draft;
use bx_views::View;
use std::alloc::Global;

/// The handle of the root.
const ROOT: u64 = 1;

/// The most moves to a parent on the way from a directory to the root.
const MOST_MOVES: u32 = 512;

/// The error of a move of the file with a handle into a directory, by the way up from that: `PERM` where the file is on it, else `NAMETOOLONG`
/// where 512 moves to a parent don't lead to the root; `None` exactly where there is none.
///
/// `Need` names the block of an inode on the way, shared, which isn't held. The status is `STALE` where what is held is no directory.
pub fn way_error<V: View>(
    alloc: Global,
    view: &V,
    areas: u16,
    directory: u64,
    handle: u64,
) -> Result<Option<u32>, Stop>
    ensures step { (volume : ℕ) (truth : Truth) (tree : Tree) → IsTruth (V.held view.now) truth → Stands volume areas truth tree → is_directory_at tree.files directory ≡ true
        → TellsError (way_errors tree 512 directory handle) result }
    ensures need { NeedsOn areas (V.held view.now) (OnWay (V.held view.now) (V.hints view.now) areas directory) result }
    ensures inner { NeverInner result }
{
    let none = Draft::new(alloc);
    let mut at = directory;
    for _moves in 0..MOST_MOVES {
        if at == handle {
            return Ok(Some(PERM));
        }
        if at == ROOT {
            return Ok(None);
        }
        match inode_at(alloc, &none, view, areas, at, Mode::Shared) {
            Err(stop) => return Err(stop),
            Ok(inode) => {
                at = inode.parent;
            }
        }
    }
    Ok(end_error(at, handle))
}

/// The error of a way that ends at a directory.
fn end_error(directory: u64, handle: u64) -> Option<u32>
    ensures { result ≡ (if directory == handle then Some 1 else if directory == 1 then None else Some 63) }
{
    if directory == handle {
        Some(PERM)
    } else if directory == ROOT {
        None
    } else {
        Some(NAMETOOLONG)
    }
}
