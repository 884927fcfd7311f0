//! REMOVE and RMDIR.

ghost use Rattle.std.specs.Prelude.{◌≤◌, ℕ, [], IfOk};
ghost use Rattle.bx_changes.specs.Changes.{IsChange};
ghost use Rattle.bx_changes.specs.Procedures.{Exclusive, IsHeldDraft, KeepsHints, LiveAt, NeedsOn, NeverInner, OnVolume, Tree, Truth, entry_named, names_of, reads_with};
ghost use Rattle.bx_entries.specs.Finding.{IsDirectoryOf, OnNamed, OnRemoval, RemovesFrom, removal, removing_entry};

use crate::finding::{Removable, directory_for, entry_for, file_for};
use crate::removing::remove_entry;
use crate::taking::Known;
use bx_inodes::Stop;
use bx_model::{Call, NFS_OK, Reply, STALE, Want};
use bx_places::named_handle;
use bx_records::Draft;
use bx_views::View;
use std::alloc::Global;

/// REMOVE (RFC 1094, section 2.2.11) or RMDIR (section 2.2.16), by what is removed, of a volume with at most 64 areas: the blocks that it changes, and the reply.
/// The entry of a name goes out of the directory that a file handle of the volume names, and the file that it names loses a name, or dies with its last one; a
/// directory, which has no entries, dies.
///
/// `Need` names a block that isn't held: that of the directory's inode, exclusively, or, where that is held, one on the path of the search for the
/// name, shared; where that finds an entry the block of the inode that it names, one on the path of the two changes of the directory's tree, or the
/// own block of the area of a file that dies, exclusively; where a directory goes one on the way to its first entry, shared. The status is `STALE`, exactly where
/// the file handle names no file, else `NOTDIR` where that is no directory, `ACCES` of a bad name and where the caller may not change it, `NOENT` where no entry
/// has the name, and `ISDIR` where that of a directory has and none is to go; else `NOTDIR` where the entry with the name has no directory, and `NOTEMPTY` where
/// that has entries. `now` is in seconds and microseconds.
pub fn remove<V: View>(
    alloc: Global,
    volume: u64,
    areas: u16,
    call: &Call,
    at: &[u8],
    name: &[u8],
    sort: Removable,
    now: (u32, u32),
    view: &V,
) -> Result<(Draft, Reply), Stop>
    requires { areas ≤ 64 }
    ensures step { OnVolume volume areas (V.held view.now) (V.hints view.now) (λ truth tree. IsChange volume areas truth tree (removal sort tree call.now at.now name.now now) result) }
    ensures hints { KeepsHints volume areas (V.held view.now) (V.hints view.now) result }
    ensures need { NeedsOn areas (V.held view.now) (OnRemoval sort (V.held view.now) (V.hints view.now) volume areas at.now name.now) result }
    ensures inner { NeverInner result }
    ensures held { IfOk result (λ made. IsHeldDraft (V.held view.now) made.0) }
{
    let Some(handle) = named_handle(volume, at) else {
        return Err(Stop::Status(STALE));
    };
    match directory_for(alloc, view, areas, call, handle, name, Want::Change) {
        Err(stop) => Err(stop),
        Ok(inode) => {
            let directory = Known { handle, inode };
            match remove_from(alloc, view, areas, directory, name, now, sort) {
                Err(stop) => Err(stop),
                Ok(draft) => Ok((draft, Reply::Status(NFS_OK))),
            }
        }
    }
}

/// The same, in a directory, by its inode.
fn remove_from<V: View>(
    alloc: Global,
    view: &V,
    areas: u16,
    directory: Known,
    name: &[u8],
    now: (u32, u32),
    sort: Removable,
) -> Result<Draft, Stop>
    requires { LiveAt (reads_with (V.held view.now) (V.hints view.now) []) areas directory.handle Exclusive directory.inode }
    ensures step { (volume : ℕ) (truth : Truth) (tree : Tree) → (is : IsDirectoryOf volume areas (V.held view.now) (V.hints view.now) truth tree directory.handle directory.inode)
        → RemovesFrom areas truth (removing_entry sort tree is.at.file name.now now (entry_named (names_of is.at.file.body) name.now)) result }
    ensures need { NeedsOn areas (V.held view.now) (OnNamed sort (V.held view.now) (V.hints view.now) areas directory.inode.tree name.now) result }
    ensures inner { NeverInner result }
    ensures held { IfOk result (IsHeldDraft (V.held view.now)) }
{
    match entry_for(alloc, view, areas, directory.inode.tree, name) {
        Err(stop) => Err(stop),
        Ok((number, handle)) => match file_for(alloc, view, areas, handle, sort) {
            Err(stop) => Err(stop),
            Ok(inode) => {
                let file = Known { handle, inode };
                remove_entry(alloc, view, areas, directory, number, name, file, now)
            }
        },
    }
}
