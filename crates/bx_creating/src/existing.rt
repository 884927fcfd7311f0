//! CREATE of a name that is there.

ghost use Rattle.std.specs.Prelude.{◌≡◌, ◌≤◌, true, false, Err, IfErr, IfOk, IsSome};
ghost use Rattle.bx_changes.specs.Procedures.{Exclusive, Hints, HintsFitAll, IsHeldDraft, IsInode, IsInodeOf, IsTruth, NeedsOn, NeverInner, Stands, StopsFirst, Tree, Truth, block_at as place_of, with_draft};
ghost use Rattle.bx_files.specs.Paths.{IsBlockOf};
ghost use Rattle.bx_model.specs.declared.call.Call.{Call as Caller};
ghost use Rattle.bx_model.specs.Making.{create_over as create_over_of};
ghost use Rattle.bx_sizes.specs.Answers.{HoldsInner};
ghost use Rattle.bx_sizes.specs.Clearing.{OnClearing};
ghost use Rattle.bx_tree_files.specs.declared.sattr.Sattr.{Sattr as Given};
ghost use Rattle.bx_tree_files.specs.Times.{Time, is_given as is_given_word};
ghost use Rattle.bx_creating.specs.Existing.{ComesOver, GivesIn, OnSizing, size_alone as size_alone_of};
ghost use Rattle.bx_creating.specs.Lacking.{ClearsGiven, ReadyToResize};

use crate::telling::told_of;
use bx_base::Mode;
use bx_inodes::{Stop, inode_at};
use bx_layout::Inode;
use bx_model::{Call, EXIST, Reply, Sattr};
use bx_records::Draft;
use bx_sizes::{set_size, size_error};
use bx_tree_files::{REGULAR, is_given};
use bx_views::View;
use std::alloc::Global;

/// A field of the attributes to set that isn't given.
const NOT_GIVEN: u32 = 4294967295;

/// CREATE (RFC 1094, section 2.2.10) of a name that the file with a handle has: the blocks that it changes, and the reply. A size that is given is set, and
/// nothing else; new bytes are zeros.
///
/// `Need` names a block that isn't held: that of the file's inode, exclusively where a size is given, else shared; and where that is held, with a size, one on
/// the path of clearing bytes that were cut. The status is `STALE`, exactly where there is no such file, else `EXIST` where it isn't regular, and with a size
/// `ACCES` and `FBIG`. `Inner` clears some of those bytes, exactly where none of these errors comes and the file would grow over them. `now` is in
/// seconds and microseconds.
pub(crate) fn create_over<V: View>(
    alloc: Global,
    volume: u64,
    areas: u16,
    call: &Call,
    handle: u64,
    sattr: &Sattr,
    now: (u32, u32),
    view: &V,
) -> Result<(Draft, Reply), Stop>
    ensures step { (truth : Truth) (tree : Tree) → areas ≤ 64 → IsTruth (V.held view.now) truth → Stands volume areas truth tree → HintsFitAll areas (V.hints view.now) truth
        → ComesOver volume areas truth tree (create_over_of tree call.now handle sattr.now now) result }
    ensures hints { (hints : Hints) (truth : Truth) (tree : Tree) → areas ≤ 64 → IsTruth (V.held view.now) truth → Stands volume areas truth tree → HintsFitAll areas (V.hints view.now) truth
        → HintsFitAll areas hints truth → IfOk result (λ made. HintsFitAll areas hints (with_draft truth made.0)) }
    ensures lacks { (truth : Truth) (tree : Tree) → areas ≤ 64 → IsTruth (V.held view.now) truth → Stands volume areas truth tree → HintsFitAll areas (V.hints view.now) truth
        → IfErr result (StopsFirst (λ status. create_over_of tree call.now handle sattr.now now ≡ Err status) (ClearsGiven areas truth handle sattr.now.size)) }
    ensures ready { (truth : Truth) (tree : Tree) → areas ≤ 64 → IsTruth (V.held view.now) truth → Stands volume areas truth tree → HintsFitAll areas (V.hints view.now) truth
        → IfOk result (λ made. ReadyToResize areas truth handle sattr.now.size) }
    ensures need { NeedsOn areas (V.held view.now) (OnSizing (V.held view.now) (V.hints view.now) areas sattr.now.size handle) result }
    ensures held { IfOk result (λ made. IsHeldDraft (V.held view.now) made.0) }
    ensures first { HoldsInner (V.held view.now) result }
{
    if !is_given(sattr.size) {
        return match told_over(alloc, volume, areas, handle, view) {
            Err(stop) => Err(stop),
            Ok(reply) => Ok((Draft::new(alloc), reply)),
        };
    }
    let none = Draft::new(alloc);
    match inode_at(alloc, &none, view, areas, handle, Mode::Exclusive) {
        Err(stop) => Err(stop),
        Ok(inode) => {
            if inode.kind != REGULAR {
                return Err(Stop::Status(EXIST));
            }
            let volume = (volume, areas);
            set_over(alloc, volume, call, handle, inode, sattr, now, view)
        }
    }
}

/// The same without a size: what is told of the file.
///
/// `Need` names the block of its inode, shared, which isn't held then. The status is `STALE`, exactly where there is no such file, else `EXIST` where it
/// isn't regular.
fn told_over<V: View>(
    alloc: Global,
    volume: u64,
    areas: u16,
    handle: u64,
    view: &V,
) -> Result<Reply, Stop>
    ensures step { (truth : Truth) (tree : Tree) (call : Caller) (sattr : Given) (now : Time) → IsTruth (V.held view.now) truth → Stands volume areas truth tree → is_given_word sattr.size ≡ false
        → GivesIn tree (create_over_of tree call handle sattr now) result }
    ensures need { NeedsOn areas (V.held view.now) (IsBlockOf handle) result }
    ensures inner { NeverInner result }
{
    let none = Draft::new(alloc);
    match inode_at(alloc, &none, view, areas, handle, Mode::Shared) {
        Err(stop) => Err(stop),
        Ok(inode) => {
            if inode.kind != REGULAR {
                return Err(Stop::Status(EXIST));
            }
            match told_of(alloc, volume, handle, &inode) {
                Err(_) => Err(Stop::OutOfMemory),
                Ok(reply) => Ok(reply),
            }
        }
    }
}

/// The same of a regular file in a volume with so many areas, by its inode.
fn set_over<V: View>(
    alloc: Global,
    volume: (u64, u16),
    call: &Call,
    handle: u64,
    inode: Inode,
    sattr: &Sattr,
    now: (u32, u32),
    view: &V,
) -> Result<(Draft, Reply), Stop>
    requires inode { IsInode inode }
    requires regular { inode.kind ≡ 1 }
    requires given { is_given_word sattr.now.size ≡ true }
    ensures step { (truth : Truth) (tree : Tree) → volume.1 ≤ 64 → IsTruth (V.held view.now) truth → Stands volume.0 volume.1 truth tree → HintsFitAll volume.1 (V.hints view.now) truth
        → IsInodeOf volume.1 truth tree handle inode → ComesOver volume.0 volume.1 truth tree (create_over_of tree call.now handle sattr.now now) result }
    ensures hints { (hints : Hints) (truth : Truth) (tree : Tree) → volume.1 ≤ 64 → IsTruth (V.held view.now) truth → Stands volume.0 volume.1 truth tree → HintsFitAll volume.1 (V.hints view.now) truth
        → IsInodeOf volume.1 truth tree handle inode → HintsFitAll volume.1 hints truth → IfOk result (λ made. HintsFitAll volume.1 hints (with_draft truth made.0)) }
    ensures lacks { (truth : Truth) (tree : Tree) → volume.1 ≤ 64 → IsTruth (V.held view.now) truth → Stands volume.0 volume.1 truth tree → HintsFitAll volume.1 (V.hints view.now) truth
        → IsInodeOf volume.1 truth tree handle inode
        → IfErr result (StopsFirst (λ status. create_over_of tree call.now handle sattr.now now ≡ Err status) (ClearsGiven volume.1 truth handle sattr.now.size)) }
    ensures ready { (truth : Truth) (tree : Tree) → volume.1 ≤ 64 → IsTruth (V.held view.now) truth → Stands volume.0 volume.1 truth tree → HintsFitAll volume.1 (V.hints view.now) truth
        → IsInodeOf volume.1 truth tree handle inode
        → IfOk result (λ made. ReadyToResize volume.1 truth handle sattr.now.size) }
    ensures need { NeedsOn volume.1 (V.held view.now) (OnClearing (V.held view.now) (V.hints view.now) inode) result }
    ensures held { IsSome (V.held view.now (place_of handle) Exclusive) → IfOk result (λ made. IsHeldDraft (V.held view.now) made.0) }
    ensures first { IsSome (V.held view.now (place_of handle) Exclusive) → HoldsInner (V.held view.now) result }
{
    if let Some(status) = size_error(alloc, call, handle, &inode, sattr.size)? {
        return Err(Stop::Status(status));
    }
    let alone = size_alone(sattr.size);
    match set_size(alloc, volume.1, view, handle, inode, &alone, now) {
        Err(stop) => Err(stop),
        Ok((draft, inode)) => {
            let reply = told_of(alloc, volume.0, handle, &inode)?;
            Ok((draft, reply))
        }
    }
}

/// Attributes to set of which the size alone is given.
fn size_alone(size: u32) -> Sattr
    ensures { result ≡ size_alone_of size }
{
    Sattr {
        mode: NOT_GIVEN,
        uid: NOT_GIVEN,
        gid: NOT_GIVEN,
        size,
        atime: (NOT_GIVEN, 0),
        mtime: (NOT_GIVEN, 0),
    }
}
