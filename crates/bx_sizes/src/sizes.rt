//! The size of a regular file, set.

ghost use Rattle.std.specs.Prelude.{◌≡◌, ◌≤◌, ◌<◌, true, IfOk, IfErr, IsSome, MatchOption, Ok, Err, Some, false};
ghost use Rattle.bx_changes.specs.Procedures.{Exclusive, File, HintsFitAll, HoldsInode, IsHeldDraft, IsInode, IsTruth, NeedsOn, StandsFor, StopsFirst, Tree, Truth, block_at as place_of, file_at};
ghost use Rattle.bx_inodes.specs.Heads.{head_of as head_by};
ghost use Rattle.bx_model.specs.Writing.{resize_errors};
ghost use Rattle.bx_tree_files.specs.Changes.{most_bytes, with_fields};
ghost use Rattle.bx_tree_files.specs.Times.{is_given as is_given_word};
ghost use Rattle.bx_changes.specs.Given.{with_given as with_those_given};
ghost use Rattle.bx_sizes.specs.Answers.{HoldsInner, SetsSize};
ghost use Rattle.bx_sizes.specs.Clearing.{OnClearing};
ghost use Rattle.bx_sizes.specs.Cuts.{ClearsFirst};
ghost use Rattle.bx_sizes.specs.Lengths.{grows_over as grows_over_to, with_length};

use crate::clearing::clear;
use bx_base::OutOfMemory;
use bx_call_parts::resize_error;
use bx_changes::with_given;
use bx_inodes::{Stop, head_of, put_inode};
use bx_layout::Inode;
use bx_model::{Call, Sattr};
use bx_records::Draft;
use bx_views::View;
use std::alloc::Global;

/// Sets the size of the regular file with a handle, by its inode, and what else is given: the block that it changes, and the inode then.
/// New bytes are zeros. Cut bytes stay in their pieces, behind the end, and the tail tells how far; exactly where the file would grow over them,
/// `Inner` clears some of them first, and the tail falls. `now` is in seconds and microseconds.
///
/// `Need` names a block of the volume that isn't held, on the path of such clearing.
pub fn set_size<V: View>(
    alloc: Global,
    areas: u16,
    view: &V,
    handle: u64,
    inode: Inode,
    sattr: &Sattr,
    now: (u32, u32),
) -> Result<(Draft, Inode), Stop>
    requires inode { IsInode inode }
    requires regular { inode.kind ≡ 1 }
    requires given { is_given_word sattr.now.size ≡ true }
    requires most { sattr.now.size ≤ most_bytes }
    ensures step { (truth : Truth) (tree : Tree) (file : File) → areas ≤ 64 → IsTruth (V.held view.now) truth → StandsFor areas truth tree
        → HintsFitAll areas (V.hints view.now) truth → HoldsInode areas truth handle inode → file_at tree.files handle ≡ Some file
        → SetsSize areas truth tree (with_fields now sattr.now file) result }
    ensures need { NeedsOn areas (V.held view.now) (OnClearing (V.held view.now) (V.hints view.now) inode) result }
    ensures held { IsSome (V.held view.now (place_of handle) Exclusive) → IfOk result (λ made. IsHeldDraft (V.held view.now) made.0) }
    ensures first { IsSome (V.held view.now (place_of handle) Exclusive) → HoldsInner (V.held view.now) result }
    ensures lacks { (truth : Truth) (tree : Tree) (file : File) → areas ≤ 64 → IsTruth (V.held view.now) truth → StandsFor areas truth tree
        → HintsFitAll areas (V.hints view.now) truth → HoldsInode areas truth handle inode → file_at tree.files handle ≡ Some file
        → IfErr result (StopsFirst (λ status. ⊥) (ClearsFirst areas truth handle sattr.now.size)) }
    ensures ready { IfOk result (λ made. grows_over_to inode sattr.now.size ≡ false) }
{
    let size = u64::from(sattr.size);
    if grows_over(&inode, size) {
        match clear(alloc, areas, view, handle, inode) {
            Err(stop) => return Err(stop),
            Ok(draft) => return Err(Stop::Inner(draft)),
        }
    }
    let changed = sized(with_given(inode, sattr, now), size);
    let mut draft = Draft::new(alloc);
    put_inode(alloc, &mut draft, handle, &changed)?;
    Ok((draft, changed))
}

/// Whether growing to a size would show bytes again that were cut and aren't cleared.
pub fn grows_over(inode: &Inode, size: u64) -> bool
    ensures { result ≡ grows_over_to inode.now size }
{
    inode.size < size && inode.size < inode.tail
}

/// The inode with another size.
fn sized(inode: Inode, size: u64) -> Inode
    requires { IsInode inode }
    ensures is { result ≡ with_length size inode }
    ensures inode { IsInode result }
{
    Inode {
        size,
        tail: inode.tail.max(size),
        ..inode
    }
}

/// The first error of setting the size of the file with a handle, by its inode, where one is given: `ISDIR`, `NXIO`, `ACCES` or `FBIG`.
pub fn size_error(
    alloc: Global,
    call: &Call,
    handle: u64,
    inode: &Inode,
    size: u32,
) -> Result<Option<u32>, OutOfMemory>
    ensures { IfOk result (λ found. MatchOption found (resize_errors call.now (head_by handle inode.now) size ≡ Ok tt) (λ status. resize_errors call.now (head_by handle inode.now) size ≡ Err status)) }
{
    let head = head_of(alloc, handle, inode)?;
    Ok(resize_error(call, &head, size))
}
