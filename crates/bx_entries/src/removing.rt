//! Entries that are removed with a name of their file.

ghost use Rattle.std.specs.Prelude.{◌<◌, ℕ, IfOk, IsSome};
ghost use Rattle.bx_changes.specs.Procedures.{Exclusive, IsHeldDraft, IsInode, NeedsOn, NeverInner, Tree, Truth, block_at, parts_of};
ghost use Rattle.bx_entries.specs.Removing.{IsRemoval, OnRemoving, RemovesIn, removed};

use crate::taking::{Known, take_entry};
use crate::unlinking::unlink;
use bx_inodes::Stop;
use bx_records::Draft;
use bx_tree_files::DIRECTORY;
use bx_views::View;
use std::alloc::Global;

/// Takes the entry with a name and its number out of a directory, and a name from the file that it names: the draft that does so. Both are
/// changed now, in seconds and microseconds; the file dies with its last name. A directory dies; it has no entries, and is one link less to
/// the one that it was in.
///
/// `Need` names a block of the volume that isn't held exclusively: one on the path of the two changes of the directory's tree, or where the file dies
/// the own block of its area. The status is `STALE` where what is held is no directory with that entry, or the file isn't there.
pub fn remove_entry<V: View>(
    alloc: Global,
    view: &V,
    areas: u16,
    directory: Known,
    number: u32,
    name: &[u8],
    file: Known,
    now: (u32, u32),
) -> Result<Draft, Stop>
    requires directory { IsInode directory.inode }
    requires file { IsInode file.inode }
    requires area { (parts_of file.handle).area < areas }
    ensures step { (volume : ℕ) (truth : Truth) (tree : Tree) → (is : IsRemoval volume areas (V.held view.now) (V.hints view.now) truth tree directory.handle directory.inode number name.now file.handle file.inode)
        → RemovesIn areas truth (removed tree is.at.file name.now is.file.file now) result }
    ensures need { NeedsOn areas (V.held view.now) (OnRemoving (V.held view.now) (V.hints view.now) directory.inode.tree number name.now file.handle file.inode) result }
    ensures inner { NeverInner result }
    ensures held { IsSome (V.held view.now (block_at directory.handle) Exclusive) → IsSome (V.held view.now (block_at file.handle) Exclusive) → IfOk result (IsHeldDraft (V.held view.now)) }
{
    let none = Draft::new(alloc);
    let counts = file.inode.kind == DIRECTORY;
    match take_entry(
        alloc, none, view, areas, directory, number, name, counts, now,
    ) {
        Err(stop) => Err(stop),
        Ok(draft) => {
            let mut draft = draft;
            match unlink(alloc, &mut draft, view, file.handle, file.inode, now) {
                Err(stop) => Err(stop),
                Ok(()) => Ok(draft),
            }
        }
    }
}
