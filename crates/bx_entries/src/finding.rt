//! What REMOVE and RMDIR find: the directory, the entry, and the file that it names.

ghost use Rattle.std.specs.Prelude.{◌≡◌, ◌≤◌, ℕ, List, [], IfOk, Some};
ghost use Rattle.bx_changes.specs.Procedures.{Exclusive, File, HintsFitAll, IsTruth, LiveAt, Name, NeedsOn, NeverInner, Stands, StandsFor, Tree, Truth, reads_with};
ghost use Rattle.bx_directory_reads.specs.bx_dirs.specs.Entries.{HasEntries};
ghost use Rattle.bx_changes.specs.bx_files.specs.Paths.{LandsAtValue, OnSearch};
ghost use Rattle.bx_changes.specs.bx_files.specs.Reads.{Tells};
ghost use Rattle.bx_inodes.specs.Heads.{head_of as head_by};
ghost use Rattle.bx_tree_files.specs.Times.{Time};
ghost use Rattle.bx_truth.specs.Keys.{name_key, name_value};
ghost use Rattle.bx_entries.specs.Finding.{DirectoryFor, EntryFor, FileFor, IsKnownFile, IsOwnBlock, OnEmptiness, OnFile, removal_error as removal_error_of};
ghost use Rattle.bx_entries.specs.Removing.{name_error as error_of};

use bx_base::{Mode, OutOfMemory};
use bx_blink::BlinkError;
use bx_changes::files::needed;
use bx_directory_reads::entry_behind;
use bx_inodes::{Stop, head_of, inode_at};
use bx_layout::Inode;
use bx_model::{ACCES, Call, ISDIR, NOENT, NOTDIR, NOTEMPTY, STALE, Want, may};
use bx_records::Draft;
use bx_tree_files::{DIRECTORY, is_bad};
use bx_views::View;
use std::alloc::Global;

/// The inode of the directory with a handle, in which a caller may use a name, with a right: to look for it, or to change its entry.
///
/// `Need` names the inode's block, exclusively, which isn't held so. The status is `STALE`, exactly where there is no such file, else `NOTDIR`
/// where it is no directory, and `ACCES` of a bad name and where the caller hasn't the right.
pub fn directory_for<V: View>(
    alloc: Global,
    view: &V,
    areas: u16,
    call: &Call,
    handle: u64,
    name: &[u8],
    want: Want,
) -> Result<Inode, Stop>
    ensures step { (truth : Truth) (tree : Tree) → IsTruth (V.held view.now) truth → StandsFor areas truth tree → DirectoryFor want areas truth tree call.now name.now handle result }
    ensures live { IfOk result (LiveAt (reads_with (V.held view.now) (V.hints view.now) []) areas handle Exclusive) }
    ensures need { NeedsOn areas (V.held view.now) (IsOwnBlock handle) result }
    ensures inner { NeverInner result }
{
    let none = Draft::new(alloc);
    match inode_at(alloc, &none, view, areas, handle, Mode::Exclusive) {
        Err(stop) => Err(stop),
        Ok(inode) => match name_error(alloc, call, handle, &inode, name, want) {
            Err(_) => Err(Stop::OutOfMemory),
            Ok(Some(status)) => Err(Stop::Status(status)),
            Ok(None) => Ok(inode),
        },
    }
}

/// The error that a caller meets who uses a name in the file with a handle, by its inode; `None` exactly where there is none.
fn name_error(
    alloc: Global,
    call: &Call,
    handle: u64,
    inode: &Inode,
    name: &[u8],
    want: Want,
) -> Result<Option<u32>, OutOfMemory>
    ensures { IfOk result (λ error. error ≡ error_of want call.now name.now (head_by handle inode.now)) }
{
    if inode.kind != DIRECTORY {
        return Ok(Some(NOTDIR));
    }
    if is_bad(name) {
        return Ok(Some(ACCES));
    }
    let head = head_of(alloc, handle, inode)?;
    if may(call, &head, want) {
        Ok(None)
    } else {
        Ok(Some(ACCES))
    }
}

/// The number and the handle of the entry with a name, in the directory whose tree is under a root.
///
/// `Need` names a block of the volume that isn't held and is on the path of the search, shared. The status is `NOENT`, exactly where no entry has
/// the name, and `STALE` where what is held is no directory.
pub fn entry_for<V: View>(
    alloc: Global,
    view: &V,
    areas: u16,
    root: u64,
    name: &[u8],
) -> Result<(u32, u64), Stop>
    ensures list { (truth : Truth) (names : List Name) → HasEntries areas (V.held view.now) (V.hints view.now) truth [] root names → EntryFor names name.now result }
    ensures finds { IfOk result (λ found. LandsAtValue (V.held view.now) (V.hints view.now) root (name_key name.now) (Some (name_value found.0 found.1))) }
    ensures need { NeedsOn areas (V.held view.now) (OnSearch (V.held view.now) (V.hints view.now) root (name_key name.now)) result }
    ensures inner { NeverInner result }
{
    match bx_directory_reads::dirs::lookup(alloc, view, root, name) {
        Ok(found) => Ok(found),
        Err(BlinkError::Absent) => Err(Stop::Status(NOENT)),
        Err(BlinkError::Need(at, _)) => Err(needed(areas, at)),
        Err(BlinkError::Stale) => Err(Stop::Status(STALE)),
        Err(BlinkError::OutOfMemory) => Err(Stop::OutOfMemory),
        // a search changes nothing
        Err(
            BlinkError::Full(_) | BlinkError::NoRoom(_) | BlinkError::Present | BlinkError::Crowded,
        ) => unreachable!(),
    }
}

/// What a call removes.
#[derive(Clone, Copy)]
pub enum Removable {
    /// A file that is no directory.
    Plain,
    /// A directory without entries.
    Directory,
}

/// The inode of the file with a handle, of the sort that a call removes.
///
/// `Need` names its block, exclusively, which isn't held so; or, where it is that of a directory, and a directory is to be removed, a block on
/// the way to its first entry, shared. The status is `STALE`, exactly where there is no such file, else `ISDIR` where it is a directory and none is to
/// be removed, `NOTDIR` where it is none and one is to be, and `NOTEMPTY` where it has entries.
pub(crate) fn file_for<V: View>(
    alloc: Global,
    view: &V,
    areas: u16,
    handle: u64,
    sort: Removable,
) -> Result<Inode, Stop>
    ensures step { (volume : ℕ) (truth : Truth) (tree : Tree) (directory : File) (name : List ℕ) (now : Time) → areas ≤ 64 → IsTruth (V.held view.now) truth → Stands volume areas truth tree
        → HintsFitAll areas (V.hints view.now) truth → FileFor sort areas truth tree directory name now handle result }
    ensures live { IfOk result (LiveAt (reads_with (V.held view.now) (V.hints view.now) []) areas handle Exclusive) }
    ensures need { NeedsOn areas (V.held view.now) (OnFile sort (V.held view.now) (V.hints view.now) areas handle) result }
    ensures inner { NeverInner result }
{
    let none = Draft::new(alloc);
    match inode_at(alloc, &none, view, areas, handle, Mode::Exclusive) {
        Err(stop) => Err(stop),
        Ok(inode) => match removal_error(alloc, view, areas, &inode, sort) {
            Err(stop) => Err(stop),
            Ok(Some(status)) => Err(Stop::Status(status)),
            Ok(None) => Ok(inode),
        },
    }
}

/// The error that the file of an inode is to its removal; `None` exactly where there is none.
fn removal_error<V: View>(
    alloc: Global,
    view: &V,
    areas: u16,
    inode: &Inode,
    sort: Removable,
) -> Result<Option<u32>, Stop>
    ensures step { (volume : ℕ) (truth : Truth) (tree : Tree) (handle : ℕ) → (is : IsKnownFile volume areas (V.held view.now) (V.hints view.now) truth tree handle inode.now)
        → Tells (removal_error_of sort is.at.file) result }
    ensures need { NeedsOn areas (V.held view.now) (OnEmptiness sort (V.held view.now) (V.hints view.now) inode.now.tree) result }
    ensures inner { NeverInner result }
{
    let is_directory = inode.kind == DIRECTORY;
    match sort {
        Removable::Plain => Ok(if is_directory { Some(ISDIR) } else { None }),
        Removable::Directory => {
            if !is_directory {
                return Ok(Some(NOTDIR));
            }
            match entry_behind(alloc, areas, inode.tree, 0, view) {
                Err(stop) => Err(stop),
                Ok(Some(_)) => Ok(Some(NOTEMPTY)),
                Ok(None) => Ok(None),
            }
        }
    }
}
