//! All pieces that bytes are in, the last ones first.

ghost use Rattle.std.specs.Prelude.{◌≡◌, ◌+◌, ◌*◌, ◌≤◌, ◌<◌, ◌^◌, ℕ, List, [], IfOk, IfErr, IsSome, length};
ghost use Rattle.bx_changes.specs.Procedures.{Exclusive, File, HoldsFirst, IfFull, IsHeldDraft, IsInode, NeedsBy, TakesSlots, Tree, Truth, block_at as place_of, parts_of};
ghost use Rattle.bx_layout.specs.declared.inode.Inode.{Inode as Kept};
ghost use Rattle.bx_entries.specs.Lacking.{IfFirst};
ghost use Rattle.bx_writes.specs.Lacking.{FindEntries, MakesEntries};
ghost use Rattle.bx_writes.specs.Laid.{IsLaid, LacksSlot};
ghost use Rattle.bx_writes.specs.Laying.{GrowsTo, InodeAlone, LaysIn, pieces_of};
ghost use Rattle.bx_writes.specs.Paths.{OnWrittenPieces};
ghost use Rattle.bx_writes.specs.Steps.{IsRegularOf};

use crate::preparing::prepare;
use crate::putting::put_piece;
use bx_changes::ChangeError;
use bx_files::PIECE;
use bx_inodes::{Stop, put_inode};
use bx_layout::Inode;
use bx_places::ChunkHandle;
use bx_records::Draft;
use bx_views::View;
use std::alloc::Global;

/// A draft with the inode of a regular file with a handle, and with bytes written from a place in the piece with an index on, at most three pieces. All
/// pieces are read before one is changed.
///
/// `Inner` makes room for an entry of a piece that isn't there, exactly where it is lacking, and `Full` comes only of such a piece, where no slot is left
/// near the file. `Need` names a block of the volume that isn't held, and is on the path of a piece. The status is `STALE` where what is held is no
/// file: of one it never comes.
pub(crate) fn lay<V: View>(
    alloc: Global,
    areas: u16,
    view: &V,
    handle: u64,
    inode: &Inode,
    place: (u32, usize),
    written: &[u8],
) -> Result<Draft, ChangeError>
    requires inode { IsInode inode.now }
    requires index { place.0 ≤ 2 ^ 19 }
    requires place { place.1 < 4096 }
    requires fits { 4096 * place.0 + place.1 + length written.now ≤ 2 ^ 31 }
    requires few { pieces_of place.1 written.now ≤ 3 }
    ensures step { (volume : ℕ) (truth : Truth) (tree : Tree) (old : Kept) (file : File) (base : List ℕ)
        → (r : IsRegularOf volume areas (V.held view.now) (V.hints view.now) truth tree handle old) → GrowsTo r.at.file old inode.now file base → (0 < length written.now → 4096 * place.0 + place.1 + length written.now ≤ inode.now.size)
        → LaysIn areas (V.held view.now) truth tree handle file r.stands.is inode.now base place written.now result }
    ensures lacks { (volume : ℕ) (truth : Truth) (tree : Tree) (old : Kept) → IsRegularOf volume areas (V.held view.now) (V.hints view.now) truth tree handle old → old.tree ≡ inode.now.tree
        → IfErr result (IfFirst (MakesEntries areas (V.held view.now) (V.hints view.now) truth inode.now.tree place.0 (place.0 + pieces_of place.1 written.now))) }
    ensures finds { (volume : ℕ) (truth : Truth) (tree : Tree) (old : Kept) → IsRegularOf volume areas (V.held view.now) (V.hints view.now) truth tree handle old → old.tree ≡ inode.now.tree
        → IfOk result (λ made. 0 < length written.now → FindEntries areas truth inode.now.tree place.0 (place.0 + pieces_of place.1 written.now)) }
    ensures need { IfErr result (NeedsBy areas (V.held view.now) (OnWrittenPieces areas (V.held view.now) (V.hints view.now) handle inode.now.tree place.0 (place.0 + pieces_of place.1 written.now))) }
    ensures full { IfErr result (IfFull (LacksSlot (V.held view.now) (V.hints view.now) (parts_of handle).area areas handle inode.now.tree place.0 (place.0 + pieces_of place.1 written.now))) }
    ensures laid { IfOk result (IsLaid (V.held view.now) (V.hints view.now) (parts_of handle).area areas handle inode.now.tree) }
    ensures taken { IfErr result (IfFirst (TakesSlots (V.held view.now) (parts_of handle).area areas [])) }
    ensures first { IfErr result (HoldsFirst (V.held view.now)) }
    ensures held { IsSome (V.held view.now (place_of handle) Exclusive) → IfOk result (IsHeldDraft (V.held view.now)) }
    ensures few { IfOk result (λ new. length new ≤ 1 + 4 * pieces_of place.1 written.now) }
{
    if written.is_empty() {
        return inode_alone(alloc, handle, inode);
    }
    let near = (ChunkHandle::of(handle).area, areas);
    let (part, rest) = written.split_at(written.len().min(PIECE - place.1));
    let prepared = match prepare(alloc, near, view, inode.tree, place, part) {
        Err(error) => return Err(error),
        Ok(prepared) => prepared,
    };
    let next = (place.0 + 1, 0);
    match lay(alloc, areas, view, handle, inode, next, rest) {
        Err(error) => Err(error),
        Ok(draft) => put_piece(alloc, draft, near, view, inode.tree, place.0, prepared),
    }
}

/// A draft with the inode of the file with a handle.
fn inode_alone(alloc: Global, handle: u64, inode: &Inode) -> Result<Draft, ChangeError>
    requires { IsInode inode.now }
    ensures { InodeAlone handle inode.now result }
{
    let mut draft = Draft::new(alloc);
    match put_inode(alloc, &mut draft, handle, inode) {
        Ok(()) => Ok(draft),
        Err(_) => Err(ChangeError::Stopped(Stop::OutOfMemory)),
    }
}
