//! Whether a file may have one more name.

ghost use Rattle.std.specs.Prelude.{◌≡◌, ◌<◌, ℕ, [], None, IfErr, IfOk};
ghost use Rattle.bx_entries.specs.Lacking.{FindsBoth, IfFirst, MakesEither};
ghost use Rattle.bx_changes.specs.Procedures.{HoldsFirst, IfFull, NeedsBy, NeedsOn, NeverInner, NoSlots, Tree, Truth, parts_of};
ghost use Rattle.bx_changes.specs.bx_files.specs.Paths.{OnSearch};
ghost use Rattle.bx_truth.specs.Keys.{name_key};
ghost use Rattle.bx_linking.specs.Linking.{IsLinking, LinkErrorIn, MayLinkIn, OnTest};

use crate::searching::find_entry;
use bx_changes::ChangeError;
use bx_entries::{Known, room_for};
use bx_inodes::Stop;
use bx_model::{DQUOT, EXIST, PERM};
use bx_tree_files::DIRECTORY;
use bx_views::View;
use std::alloc::Global;

/// The most names of a file.
const MOST_LINKS: u32 = 32000;

/// The greatest number of a directory's next entry, at which it takes no other.
const LAST_NUMBER: u32 = 0xffff_ffff;

/// Tests whether a file may have one more name, in a directory, and finds room for it in the directory's tree.
///
/// `Need` names a block that isn't held: one on the path of the search for the name, shared, or on that to room for it. The status is `PERM` of a
/// directory, `EXIST` where an entry has the name, and `DQUOT` where the file has 32000 names or the directory no number left. `Inner` and `Full`
/// come as they do of `room_for`.
pub(crate) fn may_link<V: View>(
    alloc: Global,
    view: &V,
    areas: u16,
    file: &Known,
    directory: &Known,
    name: &[u8],
) -> Result<(), ChangeError>
    ensures step { (volume : ℕ) (truth : Truth) (tree : Tree)
        → (is : IsLinking volume areas (V.held view.now) (V.hints view.now) truth tree file.now.handle file.now.inode directory.now.handle directory.now.inode)
        → MayLinkIn areas (V.held view.now) truth is.file.file is.at.file directory.now.inode name.now result }
    ensures lacks { (volume : ℕ) (truth : Truth) (tree : Tree) → IsLinking volume areas (V.held view.now) (V.hints view.now) truth tree file.now.handle file.now.inode directory.now.handle directory.now.inode
        → IfErr result (IfFirst (MakesEither areas (V.held view.now) (V.hints view.now) truth directory.now.inode.tree name.now directory.now.inode.next)) }
    ensures finds { (volume : ℕ) (truth : Truth) (tree : Tree) → IsLinking volume areas (V.held view.now) (V.hints view.now) truth tree file.now.handle file.now.inode directory.now.handle directory.now.inode
        → IfOk result (λ made. FindsBoth areas truth directory.now.inode.tree name.now directory.now.inode.next) }
    ensures few { IfOk result (λ done. file.now.inode.nlink < 32000) }
    ensures need { IfErr result (NeedsBy areas (V.held view.now) (OnTest areas (V.held view.now) (V.hints view.now) directory.now.handle directory.now.inode name.now)) }
    ensures first { IfErr result (HoldsFirst (V.held view.now)) }
    ensures full { IfErr result (IfFull (NoSlots (V.held view.now) (parts_of directory.now.handle).area areas [])) }
{
    match link_error(alloc, view, areas, file, directory, name) {
        Err(stop) => Err(ChangeError::Stopped(stop)),
        Ok(Some(status)) => Err(ChangeError::Stopped(Stop::Status(status))),
        Ok(None) => room_for(alloc, view, areas, directory, name),
    }
}

/// The error of one more name for a file, in a directory, where there is room enough; `None` exactly where there is none.
fn link_error<V: View>(
    alloc: Global,
    view: &V,
    areas: u16,
    file: &Known,
    directory: &Known,
    name: &[u8],
) -> Result<Option<u32>, Stop>
    ensures step { (volume : ℕ) (truth : Truth) (tree : Tree)
        → (is : IsLinking volume areas (V.held view.now) (V.hints view.now) truth tree file.now.handle file.now.inode directory.now.handle directory.now.inode)
        → LinkErrorIn is.file.file is.at.file name.now result }
    ensures few { IfOk result (λ error. error ≡ None → file.now.inode.nlink < 32000) }
    ensures need { NeedsOn areas (V.held view.now) (OnSearch (V.held view.now) (V.hints view.now) directory.now.inode.tree (name_key name.now)) result }
    ensures inner { NeverInner result }
{
    if file.inode.kind == DIRECTORY {
        return Ok(Some(PERM));
    }
    match find_entry(alloc, view, areas, directory.inode.tree, name) {
        Err(stop) => Err(stop),
        Ok(Some(_)) => Ok(Some(EXIST)),
        Ok(None) => {
            if file.inode.nlink >= MOST_LINKS || directory.inode.next >= LAST_NUMBER {
                return Ok(Some(DQUOT));
            }
            Ok(None)
        }
    }
}
