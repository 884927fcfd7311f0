//! The directory that a new entry comes into.

ghost use Rattle.std.specs.Prelude.{◌≤◌, ◌<◌, List, [], IfOk};
ghost use Rattle.bx_changes.specs.Procedures.{Name, NeedsOn, NeverInner, OnVolume, Truth};
ghost use Rattle.bx_entries.specs.bx_dirs.specs.Entries.{HasEntries};
ghost use Rattle.bx_files.specs.Paths.{OnSearch};
ghost use Rattle.bx_truth.specs.Keys.{name_key};
ghost use Rattle.bx_creating.specs.Finding.{AbsentIn, IsHeldAt, OnFinding, PlaceIn};

use bx_entries::{Known, directory_for, entry_for};
use bx_inodes::Stop;
use bx_layout::Inode;
use bx_model::{Call, DQUOT, EXIST, NOENT, STALE, Want};
use bx_places::named_handle;
use bx_views::View;
use std::alloc::Global;

/// The directory that a file handle of the volume names, into which an entry of a name may come.
///
/// `Need` names a block that isn't held: that of the directory's inode, exclusively, or, where that is held, one on the path of the search for the
/// name, shared. The status is `STALE`, exactly where the file handle names no file, else `NOTDIR` where that is no directory, `ACCES` of a bad
/// name and where the caller may not change it, `EXIST` where an entry has the name, and `DQUOT` where it has no number left.
pub(crate) fn place_for<V: View>(
    alloc: Global,
    volume: u64,
    areas: u16,
    call: &Call,
    at: &[u8],
    name: &[u8],
    view: &V,
) -> Result<Known, Stop>
    requires { areas ≤ 64 }
    ensures step { OnVolume volume areas (V.held view.now) (V.hints view.now) (λ truth tree. PlaceIn volume areas (V.held view.now) (V.hints view.now) truth tree call.now at.now name.now result) }
    ensures live { IfOk result (λ known. IsHeldAt (V.held view.now) (V.hints view.now) volume areas at.now known.handle known.inode) }
    ensures need { NeedsOn areas (V.held view.now) (OnFinding (V.held view.now) (V.hints view.now) volume areas at.now name.now) result }
    ensures inner { NeverInner result }
{
    let Some(handle) = named_handle(volume, at) else {
        return Err(Stop::Status(STALE));
    };
    match directory_for(alloc, view, areas, call, handle, name, Want::Change) {
        Err(stop) => Err(stop),
        Ok(inode) => match no_entry(alloc, view, areas, inode.tree, name) {
            Err(stop) => Err(stop),
            Ok(()) => {
                if inode.next == u32::MAX {
                    return Err(Stop::Status(DQUOT));
                }
                Ok(Known { handle, inode })
            }
        },
    }
}

/// Looks for an entry of a name, which is not to be, in the directory whose tree is under a root.
///
/// `Need` names a block of the volume that isn't held and is on the path of the search, shared. The status is `EXIST`, exactly where an entry has the
/// name, and `STALE` where what is held is no directory.
fn no_entry<V: View>(
    alloc: Global,
    view: &V,
    areas: u16,
    root: u64,
    name: &[u8],
) -> Result<(), Stop>
    ensures list { (truth : Truth) (names : List Name) → HasEntries areas (V.held view.now) (V.hints view.now) truth [] root names → AbsentIn names name.now result }
    ensures need { NeedsOn areas (V.held view.now) (OnSearch (V.held view.now) (V.hints view.now) root (name_key name.now)) result }
    ensures inner { NeverInner result }
{
    match entry_for(alloc, view, areas, root, name) {
        Ok(_) => Err(Stop::Status(EXIST)),
        Err(Stop::Status(status)) => {
            if status == NOENT {
                return Ok(());
            }
            Err(Stop::Status(status))
        }
        Err(stop) => Err(stop),
    }
}
