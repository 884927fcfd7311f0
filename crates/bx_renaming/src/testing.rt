//! The errors of a move.

ghost use Rattle.std.specs.Prelude.{◌⊎◌, ℕ, Some};
ghost use Rattle.bx_changes.specs.Procedures.{IsInodeOf, NeedsOn, NeverInner, Tree, Truth};
ghost use Rattle.bx_linking.specs.bx_entries.specs.Finding.{IsKnownFile};
ghost use Rattle.bx_model.specs.Renaming.{replace_errors};
ghost use Rattle.bx_moving.specs.Ways.{TellsError};
ghost use Rattle.bx_renaming.specs.Path.{OnEmptiness, OnUp};
ghost use Rattle.bx_renaming.specs.Renaming.{AreDirectories, depth_errors, onto_errors};

use crate::places::Places;
use bx_inodes::Stop;
use bx_linking::directory_reads::entry_behind;
use bx_linking::entries::Known;
use bx_model::{ISDIR, NOTDIR, NOTEMPTY};
use bx_moving::way_error;
use bx_tree_files::DIRECTORY;
use bx_views::View;
use std::alloc::Global;

/// The error of a move between directories by the way up from the one that the file comes into; `None` exactly where there is none.
///
/// `Need` names the block of an inode on that way, shared, which isn't held; only of a directory that comes into another one.
pub(crate) fn depth_error<V: View>(
    alloc: Global,
    view: &V,
    areas: u16,
    places: &Places,
    moved: &Known,
) -> Result<Option<u32>, Stop>
    ensures step { (volume : ℕ) (truth : Truth) (tree : Tree) → (are : AreDirectories volume areas (V.held view.now) (V.hints view.now) truth tree places.now)
        → (is : IsInodeOf areas truth tree moved.now.handle moved.now.inode) → TellsError (depth_errors tree are.source.file are.target.file is.file) result }
    ensures need { NeedsOn areas (V.held view.now) (OnUp (V.held view.now) (V.hints view.now) areas places.now moved.now) result }
    ensures inner { NeverInner result }
{
    if moved.inode.kind != DIRECTORY {
        return Ok(None);
    }
    if places.source.handle == places.target.handle {
        return Ok(None);
    }
    way_error(alloc, view, areas, places.target.handle, moved.handle)
}

/// The error of a move between directories onto another file, by both; `None` exactly where there is none.
///
/// `Need` names a block as it does of `depth_error`, or on the way to the other's first entry, shared, where both are directories.
pub(crate) fn move_error<V: View>(
    alloc: Global,
    view: &V,
    areas: u16,
    places: &Places,
    moved: &Known,
    other: &Known,
) -> Result<Option<u32>, Stop>
    ensures step { (volume : ℕ) (truth : Truth) (tree : Tree) → (are : AreDirectories volume areas (V.held view.now) (V.hints view.now) truth tree places.now)
        → (is : IsInodeOf areas truth tree moved.now.handle moved.now.inode) → (at : IsInodeOf areas truth tree other.now.handle other.now.inode)
        → TellsError (onto_errors tree are.source.file are.target.file is.file at.file) result }
    ensures need { NeedsOn areas (V.held view.now) (λ at mode. OnEmptiness (V.held view.now) (V.hints view.now) moved.now other.now at mode ⊎ OnUp (V.held view.now) (V.hints view.now) areas places.now moved.now at mode) result }
    ensures inner { NeverInner result }
{
    match depth_error(alloc, view, areas, places, moved) {
        Err(stop) => Err(stop),
        Ok(Some(status)) => Ok(Some(status)),
        Ok(None) => replace_error(alloc, view, areas, moved, other),
    }
}

/// The error of a file that takes the place of another one; `None` exactly where there is none.
///
/// `Need` names a block on the way to the other's first entry, shared, where both are directories.
fn replace_error<V: View>(
    alloc: Global,
    view: &V,
    areas: u16,
    moved: &Known,
    other: &Known,
) -> Result<Option<u32>, Stop>
    ensures step { (volume : ℕ) (truth : Truth) (tree : Tree) → (is : IsInodeOf areas truth tree moved.now.handle moved.now.inode)
        → (known : IsKnownFile volume areas (V.held view.now) (V.hints view.now) truth tree other.now.handle other.now.inode) → TellsError (replace_errors is.file (Some known.at.file)) result }
    ensures need { NeedsOn areas (V.held view.now) (OnEmptiness (V.held view.now) (V.hints view.now) moved.now other.now) result }
    ensures inner { NeverInner result }
{
    if other.inode.kind != DIRECTORY {
        if moved.inode.kind == DIRECTORY {
            return Ok(Some(NOTDIR));
        }
        return Ok(None);
    }
    if moved.inode.kind != DIRECTORY {
        return Ok(Some(ISDIR));
    }
    match entry_behind(alloc, areas, other.inode.tree, 0, view) {
        Err(stop) => Err(stop),
        Ok(Some(_)) => Ok(Some(NOTEMPTY)),
        Ok(None) => Ok(None),
    }
}
