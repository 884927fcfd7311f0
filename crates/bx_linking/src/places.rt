//! The place of a file's new name: the directory that is named, and the entry in it.

ghost use Rattle.std.specs.Prelude.{◌<◌, ◌≤◌, ℕ, [], length, IfErr, IfOk, IsSome};
ghost use Rattle.bx_entries.specs.Lacking.{IfFirst, MakesPlace, NoSlotsNear, ReadyToEnter};
ghost use Rattle.bx_changes.specs.Procedures.{Exclusive, HoldsFirst, IfFull, IsHeldDraft, IsInode, IsInodeOf, LiveAt, NeedsBy, NeverFirst, OnVolume, Tree, Truth, block_at, reads_with};
ghost use Rattle.bx_entries.specs.bx_dirs.specs.Changes.{OnAddPath, entry_of};
ghost use Rattle.bx_model.specs.Reading.{named_file};
ghost use Rattle.bx_linking.specs.Drafting.{ComesBy};
ghost use Rattle.bx_linking.specs.Linking.{IsLinking, LinksIn, MayLink, OnInto, linking, with_link};

use crate::testing::may_link;
use bx_changes::ChangeError;
use bx_entries::{Known, directory_for, enter};
use bx_inodes::{Stop, put_inode};
use bx_layout::Inode;
use bx_model::{Call, STALE, Want};
use bx_places::named_handle;
use bx_records::Draft;
use bx_views::View;
use std::alloc::Global;

/// Gives a file one more name, in the directory that a file handle of the volume names: the draft that does so.
///
/// `Need` names a block that isn't held: that of the directory's inode, exclusively, or one on the path of the test or of the change of the directory's
/// tree. The status is `STALE`, exactly where the file handle names no file, else `NOTDIR` and `ACCES` as they are of `bx_entries::directory_for`, and then
/// as it is of `may_link`, as `Inner` and `Full` are.
pub(crate) fn link_into<V: View>(
    alloc: Global,
    volume: u64,
    areas: u16,
    call: &Call,
    file: Known,
    at: &[u8],
    name: &[u8],
    now: (u32, u32),
    view: &V,
) -> Result<Draft, ChangeError>
    requires few { areas ≤ 64 }
    requires name { length name.now ≤ 255 }
    requires live { LiveAt (reads_with (V.held view.now) (V.hints view.now) []) areas file.handle Exclusive file.inode }
    ensures step { OnVolume volume areas (V.held view.now) (V.hints view.now)
        (λ truth tree. (is : IsInodeOf areas truth tree file.handle file.inode) → ComesBy areas truth (λ spare. linking tree call.now is.file name.now now spare (named_file tree at.now)) result) }
    ensures lacks { OnVolume volume areas (V.held view.now) (V.hints view.now)
        (λ truth tree. IsInodeOf areas truth tree file.handle file.inode → IfErr result (IfFirst (MakesPlace volume areas (V.held view.now) (V.hints view.now) truth at.now name.now))) }
    ensures ready { OnVolume volume areas (V.held view.now) (V.hints view.now)
        (λ truth tree. IsInodeOf areas truth tree file.handle file.inode → IfOk result (λ made. ReadyToEnter volume areas truth at.now name.now)) }
    ensures need { IfErr result (NeedsBy areas (V.held view.now) (OnInto (V.held view.now) (V.hints view.now) volume areas file.handle at.now name.now)) }
    ensures first { IfErr result (HoldsFirst (V.held view.now)) }
    ensures full { IfErr result (IfFull (NoSlotsNear volume areas (V.held view.now) at.now)) }
    ensures wanted { OnVolume volume areas (V.held view.now) (V.hints view.now)
        (λ truth tree. IsInodeOf areas truth tree file.handle file.inode → IfErr result (IfFull (λ spare. ReadyToEnter volume areas truth at.now name.now → ⊥))) }
    ensures held { IfOk result (IsHeldDraft (V.held view.now)) }
{
    let Some(handle) = named_handle(volume, at) else {
        return Err(ChangeError::Stopped(Stop::Status(STALE)));
    };
    match directory_for(alloc, view, areas, call, handle, name, Want::Change) {
        Err(stop) => Err(ChangeError::Stopped(stop)),
        Ok(inode) => {
            let directory = Known { handle, inode };
            match may_link(alloc, view, areas, &file, &directory, name) {
                Err(error) => Err(error),
                Ok(()) => link_file(alloc, view, areas, file, directory, name, now),
            }
        }
    }
}

/// Gives a file one more name, in a directory, both by their inodes and changed now: the draft that does so.
///
/// `Need` names a block of the volume that isn't held exclusively, and is on the path of the change of the directory's tree. The status is `STALE`
/// where what is held is no directory into which the entry may come: where it may, it never comes.
fn link_file<V: View>(
    alloc: Global,
    view: &V,
    areas: u16,
    file: Known,
    directory: Known,
    name: &[u8],
    now: (u32, u32),
) -> Result<Draft, ChangeError>
    requires name { length name.now ≤ 255 }
    requires few { file.inode.nlink < 32000 }
    requires file { IsInode file.inode }
    requires directory { IsInode directory.inode }
    ensures step { (volume : ℕ) (truth : Truth) (tree : Tree)
        → (is : IsLinking volume areas (V.held view.now) (V.hints view.now) truth tree file.handle file.inode directory.handle directory.inode)
        → MayLink areas (V.held view.now) truth is.file.file is.at.file directory.inode name.now
        → LinksIn areas truth (with_link tree is.file.file is.at.file name.now now) result }
    ensures inner { IfErr result NeverFirst }
    ensures full { IfErr result (IfFull (λ spare. ⊥)) }
    ensures need { IfErr result (NeedsBy areas (V.held view.now) (OnAddPath (V.held view.now) (V.hints view.now) [] directory.inode.tree (entry_of directory.inode.next name.now file.handle))) }
    ensures first { IfErr result (HoldsFirst (V.held view.now)) }
    ensures held { IsSome (V.held view.now (block_at directory.handle) Exclusive) → IsSome (V.held view.now (block_at file.handle) Exclusive) → IfOk result (IsHeldDraft (V.held view.now)) }
{
    let Known { handle, inode } = file;
    let none = Draft::new(alloc);
    match enter(
        alloc, none, view, areas, directory, name, handle, false, now,
    ) {
        Err(error) => Err(error),
        Ok(draft) => {
            let mut draft = draft;
            let linked = Inode {
                nlink: inode.nlink + 1,
                ctime: now,
                ..inode
            };
            match put_inode(alloc, &mut draft, handle, &linked) {
                Err(_) => Err(ChangeError::Stopped(Stop::OutOfMemory)),
                Ok(()) => Ok(draft),
            }
        }
    }
}
