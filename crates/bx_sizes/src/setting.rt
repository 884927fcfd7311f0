//! SETATTR.

ghost use Rattle.std.specs.Prelude.{◌≡◌, ◌≢◌, ◌≤◌, ℕ, true, List, IfOk, IfErr, IsSome, Err, Some};
ghost use Rattle.bx_changes.specs.Procedures.{Exclusive, Hints, HintsFitAll, IsHeldDraft, IsInode, IsInodeOf, IsTruth, NeedsOn, Stands, StopsFirst, Tree, Truth, block_at as place_of, named, with_draft};
ghost use Rattle.bx_layout.specs.declared.inode.Inode.{Inode as Kept};
ghost use Rattle.bx_model.specs.Writing.{setattr as setattr_of};
ghost use Rattle.bx_tree_files.specs.Times.{is_given as is_given_word};
ghost use Rattle.bx_sizes.specs.Answers.{HoldsInner, IsChangeOr};
ghost use Rattle.bx_sizes.specs.Clearing.{OnClearing};
ghost use Rattle.bx_sizes.specs.Cuts.{PreparesSetting, ReadyToSet};
ghost use Rattle.bx_sizes.specs.Setting.{OnSetting};

use crate::sizes::{set_size, size_error};
use bx_base::Mode;
use bx_changes::reads::attributes_by;
use bx_changes::{is_forbidden, set_attributes};
use bx_inodes::{Stop, inode_at};
use bx_layout::Inode;
use bx_model::{Call, PERM, Reply, STALE, Sattr};
use bx_places::named_handle;
use bx_records::Draft;
use bx_tree_files::is_given;
use bx_views::View;
use std::alloc::Global;

/// SETATTR (RFC 1094, section 2.2.3): the blocks that it changes, and the attributes then. New bytes are zeros; exactly where no error comes and the file
/// would grow over bytes that were cut and aren't cleared, `Inner` clears some of them first, and lowers the tail that tells how far they reach.
///
/// `Need` names a block that isn't held: the file's inode, exclusively; and where a size is given and that is held, one on the path of such clearing. The
/// status is the first of `STALE`, where the file handle names no file; `PERM`, where the caller may not set something that is given; and
/// with a size `ISDIR`, `NXIO` of a link, `ACCES` and `FBIG`. `now` is in seconds and microseconds.
pub fn setattr<V: View>(
    alloc: Global,
    volume: u64,
    areas: u16,
    call: &Call,
    at: &[u8],
    sattr: &Sattr,
    now: (u32, u32),
    view: &V,
) -> Result<(Draft, Reply), Stop>
    ensures step { (truth : Truth) (tree : Tree) → areas ≤ 64 → IsTruth (V.held view.now) truth → Stands volume areas truth tree → HintsFitAll areas (V.hints view.now) truth
        → IsChangeOr volume areas truth (setattr_of tree call.now at.now sattr.now now) result }
    ensures hints { (hints : Hints) (truth : Truth) (tree : Tree) → areas ≤ 64 → IsTruth (V.held view.now) truth → Stands volume areas truth tree → HintsFitAll areas (V.hints view.now) truth
        → HintsFitAll areas hints truth → IfOk result (λ made. HintsFitAll areas hints (with_draft truth made.0)) }
    ensures need { NeedsOn areas (V.held view.now) (OnSetting (V.held view.now) (V.hints view.now) volume areas at.now sattr.now.size) result }
    ensures held { IfOk result (λ made. IsHeldDraft (V.held view.now) made.0) }
    ensures first { HoldsInner (V.held view.now) result }
    ensures lacks { (truth : Truth) (tree : Tree) → areas ≤ 64 → IsTruth (V.held view.now) truth → Stands volume areas truth tree → HintsFitAll areas (V.hints view.now) truth
        → IfErr result (StopsFirst (λ status. setattr_of tree call.now at.now sattr.now now ≡ Err status) (PreparesSetting volume areas truth at.now sattr.now.size)) }
    ensures ready { (truth : Truth) (tree : Tree) → areas ≤ 64 → IsTruth (V.held view.now) truth → Stands volume areas truth tree → HintsFitAll areas (V.hints view.now) truth
        → IfOk result (λ made. ReadyToSet volume areas truth at.now sattr.now.size) }
{
    if !is_given(sattr.size) {
        return set_attributes(alloc, volume, areas, call, at, sattr, now, view);
    }
    let Some(handle) = named_handle(volume, at) else {
        return Err(Stop::Status(STALE));
    };
    let none = Draft::new(alloc);
    match inode_at(alloc, &none, view, areas, handle, Mode::Exclusive) {
        Err(stop) => Err(stop),
        Ok(inode) => set_all(
            alloc,
            (volume, areas),
            view,
            call,
            handle,
            inode,
            sattr,
            now,
        ),
    }
}

/// The same with a size, of the file with a handle in a volume with so many areas, by its inode.
fn set_all<V: View>(
    alloc: Global,
    volume: (u64, u16),
    view: &V,
    call: &Call,
    handle: u64,
    inode: Inode,
    sattr: &Sattr,
    now: (u32, u32),
) -> Result<(Draft, Reply), Stop>
    requires inode { IsInode inode }
    requires live { inode.kind ≢ 0 }
    requires given { is_given_word sattr.now.size ≡ true }
    ensures step { (truth : Truth) (tree : Tree) (bytes : List ℕ) → volume.1 ≤ 64 → IsTruth (V.held view.now) truth → Stands volume.0 volume.1 truth tree → HintsFitAll volume.1 (V.hints view.now) truth
        → IsInodeOf volume.1 truth tree handle inode → named volume.0 bytes ≡ Some handle → IsChangeOr volume.0 volume.1 truth (setattr_of tree call.now bytes sattr.now now) result }
    ensures hints { (hints : Hints) (truth : Truth) (tree : Tree) → volume.1 ≤ 64 → IsTruth (V.held view.now) truth → Stands volume.0 volume.1 truth tree → HintsFitAll volume.1 (V.hints view.now) truth
        → IsInodeOf volume.1 truth tree handle inode → HintsFitAll volume.1 hints truth → IfOk result (λ made. HintsFitAll volume.1 hints (with_draft truth made.0)) }
    ensures need { NeedsOn volume.1 (V.held view.now) (OnClearing (V.held view.now) (V.hints view.now) inode) result }
    ensures held { IsSome (V.held view.now (place_of handle) Exclusive) → IfOk result (λ made. IsHeldDraft (V.held view.now) made.0) }
    ensures first { IsSome (V.held view.now (place_of handle) Exclusive) → HoldsInner (V.held view.now) result }
    ensures lacks { (truth : Truth) (tree : Tree) (bytes : List ℕ) → volume.1 ≤ 64 → IsTruth (V.held view.now) truth → Stands volume.0 volume.1 truth tree → HintsFitAll volume.1 (V.hints view.now) truth
        → IsInodeOf volume.1 truth tree handle inode → named volume.0 bytes ≡ Some handle
        → IfErr result (StopsFirst (λ status. setattr_of tree call.now bytes sattr.now now ≡ Err status) (PreparesSetting volume.0 volume.1 truth bytes sattr.now.size)) }
    ensures ready { (truth : Truth) (tree : Tree) (bytes : List ℕ) → volume.1 ≤ 64 → IsTruth (V.held view.now) truth → Stands volume.0 volume.1 truth tree → HintsFitAll volume.1 (V.hints view.now) truth
        → IsInodeOf volume.1 truth tree handle inode → named volume.0 bytes ≡ Some handle
        → IfOk result (λ made. ReadyToSet volume.0 volume.1 truth bytes sattr.now.size) }
{
    if is_forbidden(alloc, call, handle, &inode, sattr)? {
        return Err(Stop::Status(PERM));
    }
    if let Some(status) = size_error(alloc, call, handle, &inode, sattr.size)? {
        return Err(Stop::Status(status));
    }
    match set_size(alloc, volume.1, view, handle, inode, sattr, now) {
        Err(stop) => Err(stop),
        Ok((draft, inode)) => {
            let words = attributes_by(alloc, volume.0, handle, &inode)?;
            Ok((draft, Reply::Attributes(words)))
        }
    }
}
