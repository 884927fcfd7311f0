//! CREATE of a name that isn't there.

ghost use Rattle.std.specs.Prelude.{◌≡◌, ◌≤◌, [], length, Err, IfErr, IfOk};
ghost use Rattle.bx_entries.specs.Lacking.{FindsBoth, MakesEither};
ghost use Rattle.bx_changes.specs.Procedures.{ComesFirst, Exclusive, Hints, HintsFitAll, HoldsFirst, IfFull, IsHeldDraft, IsMaking, LiveAt, NeedsBy, NoSlots, Tree, Truth, parts_of, reads_with, with_draft};
ghost use Rattle.bx_inodes.specs.Heads.{head_of as head_by};
ghost use Rattle.bx_model.specs.Making.{create_new as create_new_of};
ghost use Rattle.bx_creating.specs.Creating.{IsWithout, making_error as making_error_of};
ghost use Rattle.bx_creating.specs.Placing.{IsFirstNear, OnPlacing};

use crate::inodes::file_inode;
use crate::placing::place_new;
use crate::telling::told_of;
use bx_base::OutOfMemory;
use bx_changes::ChangeError;
use bx_entries::Known;
use bx_inodes::{Stop, head_of};
use bx_model::{ACCES, Call, DQUOT, FBIG, Reply, Sattr, Want, may};
use bx_records::Draft;
use bx_tree_files::is_given;
use bx_views::View;
use std::alloc::Global;

/// The most bytes that a file has.
const MOST_BYTES: u32 = 2147483647;

/// CREATE (RFC 1094, section 2.2.10) of a name that isn't there, in a directory by its inode: the blocks that it changes, the reply, and the number of the
/// handle of the file that it makes. That is regular, of zeros where a size is given, else empty, with the name in the directory.
///
/// `Need` names a block that isn't held: one on the path of finding room for its entry, one that the file's slots want, exclusively, or one on the path of
/// the entry, exclusively. The status is `ACCES` where the caller may not change the directory, `FBIG` of a size that no file has, and `DQUOT` where the
/// directory has no number left. `Inner` are blocks that make room for the entry: they come exactly where none of these errors does and room is lacking
/// in the directory's tree. `Full` comes behind these, where no slot is left near the directory for one that is wanted; then fewer than 8 are free.
/// `now` is in seconds and microseconds.
pub(crate) fn create_new<V: View>(
    alloc: Global,
    volume: u64,
    areas: u16,
    call: &Call,
    directory: Known,
    name: &[u8],
    sattr: &Sattr,
    now: (u32, u32),
    view: &V,
) -> Result<(Draft, Reply, u64), ChangeError>
    requires live { LiveAt (reads_with (V.held view.now) (V.hints view.now) []) areas directory.handle Exclusive directory.inode }
    requires name { length name.now ≤ 255 }
    ensures step { (truth : Truth) (tree : Tree) → (is : IsWithout volume areas (V.held view.now) (V.hints view.now) truth tree directory.handle directory.inode name.now)
        → IsMaking volume areas truth tree (create_new_of tree call.now is.directory.at.file name.now sattr.now now) result }
    ensures hints { (hints : Hints) (truth : Truth) (tree : Tree) → IsWithout volume areas (V.held view.now) (V.hints view.now) truth tree directory.handle directory.inode name.now
        → HintsFitAll areas hints truth → IfOk result (λ made. HintsFitAll areas hints (with_draft truth made.0)) }
    ensures lacks { (truth : Truth) (tree : Tree) → (is : IsWithout volume areas (V.held view.now) (V.hints view.now) truth tree directory.handle directory.inode name.now)
        → IfErr result (ComesFirst (λ status. create_new_of tree call.now is.directory.at.file name.now sattr.now now 8 ≡ Err status) (MakesEither areas (V.held view.now) (V.hints view.now) truth directory.inode.tree name.now directory.inode.next)) }
    ensures finds { (truth : Truth) (tree : Tree) → (is : IsWithout volume areas (V.held view.now) (V.hints view.now) truth tree directory.handle directory.inode name.now)
        → IfOk result (λ made. FindsBoth areas truth directory.inode.tree name.now directory.inode.next) }
    ensures need { IfErr result (NeedsBy areas (V.held view.now) (OnPlacing areas (V.held view.now) (V.hints view.now) directory.handle directory.inode name.now)) }
    ensures full { IfErr result (IfFull (NoSlots (V.held view.now) (parts_of directory.handle).area areas [])) }
    ensures near { IfOk result (λ made. IsFirstNear (V.held view.now) (parts_of directory.handle).area areas made.2) }
    ensures first { IfErr result (HoldsFirst (V.held view.now)) }
    ensures held { IfOk result (λ made. IsHeldDraft (V.held view.now) made.0) }
{
    match making_error(alloc, call, sattr, &directory) {
        Err(_) => return Err(ChangeError::Stopped(Stop::OutOfMemory)),
        Ok(Some(status)) => return Err(ChangeError::Stopped(Stop::Status(status))),
        Ok(None) => {}
    }
    let inode = file_inode(alloc, call, sattr, now);
    match place_new(alloc, view, areas, directory, name, inode, now) {
        Err(error) => Err(error),
        Ok((draft, made)) => {
            let inode = file_inode(alloc, call, sattr, now);
            match told_of(alloc, volume, made, &inode) {
                Err(_) => Err(ChangeError::Stopped(Stop::OutOfMemory)),
                Ok(reply) => Ok((draft, reply, made)),
            }
        }
    }
}

/// The error of making a regular file in a directory; `None` exactly where there is none but want of blocks.
fn making_error(
    alloc: Global,
    call: &Call,
    sattr: &Sattr,
    directory: &Known,
) -> Result<Option<u32>, OutOfMemory>
    ensures { IfOk result (λ error. error ≡ making_error_of call.now sattr.now directory.now.inode.next (head_by directory.now.handle directory.now.inode)) }
{
    let head = head_of(alloc, directory.handle, &directory.inode)?;
    if !may(call, &head, Want::Change) {
        return Ok(Some(ACCES));
    }
    if is_given(sattr.size) && sattr.size > MOST_BYTES {
        return Ok(Some(FBIG));
    }
    if directory.inode.next == u32::MAX {
        return Ok(Some(DQUOT));
    }
    Ok(None)
}
