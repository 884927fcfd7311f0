//! SETATTR.

ghost use Rattle.std.specs.Prelude.{◌≡◌, ℕ, false, List, IfOk, IsSome, Some};
ghost use Rattle.bx_model.specs.Writing.{setattr};
ghost use Rattle.bx_tree_files.specs.Times.{is_given};
ghost use Rattle.bx_reads.specs.bx_truth.specs.Chunks.{IsChunked};
ghost use Rattle.bx_changes.specs.Changes.{IsChange, IsOneBlock, NeedsNothing};
ghost use Rattle.bx_changes.specs.Procedures.{Exclusive, Held, Hints, HintsFitAll, HoldsInode, IsHeldDraft, IsInode, IsInodeOf, IsTruth, NeedsOn, NeverInner, OnInode, Stands, Tree, Truth, block_at, named, with_draft};

use crate::given::{is_forbidden, with_given};
use crate::rewriting::rewritten;
use bx_base::Mode;
use bx_layout::Inode;
use bx_model::{Call, PERM, Reply, STALE, Sattr};
use bx_places::named_handle;
use bx_reads::inodes::{Stop, inode_at};
use bx_records::Draft;
use bx_views::View;
use std::alloc::Global;

/// SETATTR (RFC 1094, section 2.2.3) of anything but a size: the block that it changes, and the attributes then.
///
/// `Need` names the block of the file's inode, exclusively, which isn't held so then. The status is `STALE`, exactly where the
/// file handle names no file, else `PERM`, exactly where the caller may not set something that is given. `now` is in seconds and
/// microseconds.
pub fn set_attributes<V: View>(
    alloc: Global,
    volume: u64,
    areas: u16,
    call: &Call,
    at: &[u8],
    sattr: &Sattr,
    now: (u32, u32),
    view: &V,
) -> Result<(Draft, Reply), Stop>
    requires { is_given sattr.now.size ≡ false }
    ensures step { (truth : Truth) (tree : Tree) → IsTruth (V.held view.now) truth → Stands volume areas truth tree
        → IsChange volume areas truth tree (setattr tree call.now at.now sattr.now now) result }
    ensures hints { (hints : Hints) (truth : Truth) (tree : Tree) → IsTruth (V.held view.now) truth → Stands volume areas truth tree → HintsFitAll areas hints truth
        → IfOk result (λ made. HintsFitAll areas hints (with_draft truth made.0)) }
    ensures need { NeedsOn areas (V.held view.now) (OnInode volume at.now Exclusive) result }
    ensures inner { NeverInner result }
    ensures held { IfOk result (λ made. IsHeldDraft (V.held view.now) made.0) }
    ensures one { IfOk result (λ made. IsOneBlock (OnInode volume at.now Exclusive) made.0) }
{
    let Some(handle) = named_handle(volume, at) else {
        return Err(Stop::Status(STALE));
    };
    let none = Draft::new(alloc);
    match inode_at(alloc, &none, view, areas, handle, Mode::Exclusive) {
        Err(stop) => Err(stop),
        Ok(inode) => with_attributes(alloc, volume, call, handle, inode, sattr, now),
    }
}

/// The same, of the file with a handle, by its inode.
fn with_attributes(
    alloc: Global,
    volume: u64,
    call: &Call,
    handle: u64,
    inode: Inode,
    sattr: &Sattr,
    now: (u32, u32),
) -> Result<(Draft, Reply), Stop>
    requires inode { IsInode inode }
    requires given { is_given sattr.now.size ≡ false }
    ensures step { (areas : ℕ) (truth : Truth) (tree : Tree) (bytes : List ℕ) → Stands volume areas truth tree → IsInodeOf areas truth tree handle inode → named volume bytes ≡ Some handle
        → IsChange volume areas truth tree (setattr tree call.now bytes sattr.now now) result }
    ensures hints { (areas : ℕ) (hints : Hints) (truth : Truth) → IsChunked areas truth → HoldsInode areas truth handle inode → HintsFitAll areas hints truth
        → IfOk result (λ made. HintsFitAll areas hints (with_draft truth made.0)) }
    ensures held { (held : Held) → IsSome (held (block_at handle) Exclusive) → IfOk result (λ made. IsHeldDraft held made.0) }
    ensures one { IfOk result (λ made. IsOneBlock (λ at mode. at ≡ block_at handle) made.0) }
    ensures inner { NeverInner result }
    ensures acts { NeedsNothing result }
{
    match is_forbidden(alloc, call, handle, &inode, sattr) {
        Err(_) => return Err(Stop::OutOfMemory),
        Ok(true) => return Err(Stop::Status(PERM)),
        Ok(false) => {}
    }
    let changed = with_given(inode, sattr, now);
    match rewritten(alloc, volume, handle, &changed) {
        Err(_) => Err(Stop::OutOfMemory),
        Ok(made) => Ok(made),
    }
}
