//! What is behind the end of a file, cleared.

ghost use Rattle.std.specs.Prelude.{◌≡◌, ◌<◌, ◌≤◌, ◌+◌, ◌*◌, ◌^◌, ℕ, List, IfOk, IsSome, Some, [], ◌∷◌, length, slice_index};
ghost use Rattle.std.specs.Result.{result_map_both};
ghost use Rattle.bx_changes.specs.Procedures.{Exclusive, File, Held, HintsFitAll, HoldsInode, IsHeldDraft, IsInode, IsTruth, NeedsOn, NeverInner, StandsFor, Tree, Truth, block_at as place_of, file_at};
ghost use Rattle.bx_inodes.specs.Writing.{PutsInode};
ghost use Rattle.bx_tree_files.specs.declared.file.Body.TheVariants.{Bytes};
ghost use Rattle.bx_sizes.specs.Answers.{Clears};
ghost use Rattle.bx_sizes.specs.Clearing.{OnClearing};
ghost use Rattle.bx_sizes.specs.Cuts.{LowersTail};
ghost use Rattle.bx_sizes.specs.Steps.{ClearsAt, IsCleared, PieceAt};

use crate::cuts::last_piece;
use bx_base::{Mode, OutOfMemory, Raw};
use bx_blink::block_at;
use bx_changes::files::PIECE;
use bx_inodes::{Stop, put_inode};
use bx_layout::{Block, Inode};
use bx_model::STALE;
use bx_places::{PAYLOAD, is_block};
use bx_records::Draft;
use bx_views::View;
use std::alloc::Global;

/// The kind of the blocks of pieces.
const DATA: u32 = 3;

/// How many indexes of pieces there are.
const INDEXES: u64 = 4294967296;

/// One step of clearing what is behind the end of a regular file, by its inode: the last piece with bytes between its size and its tail
/// is cleared there, and the tail falls. The file's bytes stay, and what else its inode says.
///
/// `Need` names a block of the volume that isn't held: one on the path of the search for such a piece, shared, or the piece's own,
/// exclusively.
pub fn clear<V: View>(
    alloc: Global,
    areas: u16,
    view: &V,
    handle: u64,
    inode: Inode,
) -> Result<Draft, Stop>
    requires inode { IsInode inode }
    requires small { inode.size < 2 ^ 31 }
    ensures tree { (truth : Truth) (tree : Tree) (file : File) (bytes : List ℕ) → areas ≤ 64 → IsTruth (V.held view.now) truth → StandsFor areas truth tree
        → HintsFitAll areas (V.hints view.now) truth → HoldsInode areas truth handle inode → file_at tree.files handle ≡ Some file → file.body ≡ Bytes bytes
        → Clears areas truth tree result }
    ensures lowers { (truth : Truth) (tree : Tree) (file : File) (bytes : List ℕ) → areas ≤ 64 → IsTruth (V.held view.now) truth → StandsFor areas truth tree
        → HintsFitAll areas (V.hints view.now) truth → HoldsInode areas truth handle inode → file_at tree.files handle ≡ Some file → file.body ≡ Bytes bytes
        → inode.size < inode.tail → IfOk result (LowersTail areas truth handle inode) }
    ensures need { NeedsOn areas (V.held view.now) (OnClearing (V.held view.now) (V.hints view.now) inode) result }
    ensures inner { NeverInner result }
    ensures held { IsSome (V.held view.now (place_of handle) Exclusive) → IfOk result (IsHeldDraft (V.held view.now)) }
{
    let from = inode.size / PIECE as u64;
    let end = inode.tail.div_ceil(PIECE as u64).min(INDEXES);
    match last_piece(alloc, areas, view, inode.tree, from, end) {
        Err(stop) => Err(stop),
        Ok(None) => {
            let tail = inode.size;
            let draft = with_tail(alloc, Draft::new(alloc), handle, inode, tail)?;
            Ok(draft)
        }
        Ok(Some(piece)) => clear_piece(alloc, areas, view, handle, inode, piece),
    }
}

/// The same of the piece with an index, by its block's handle.
fn clear_piece<V: View>(
    alloc: Global,
    areas: u16,
    view: &V,
    handle: u64,
    inode: Inode,
    piece: (u32, u64),
) -> Result<Draft, Stop>
    requires inode { IsInode inode }
    requires behind { inode.size < 4096 * piece.0 + 4096 }
    ensures at { ClearsAt areas (V.held view.now) handle inode piece.0 piece.1 result }
    ensures held { IsSome (V.held view.now (place_of handle) Exclusive) → IfOk result (IsHeldDraft (V.held view.now)) }
{
    let (index, names) = piece;
    let begins = PIECE as u64 * u64::from(index);
    match piece_held(areas, view, names) {
        Err(stop) => Err(stop),
        Ok(block) => {
            let cleared = cleared(
                alloc,
                names,
                block,
                inode.size.saturating_sub(begins) as usize,
            )?;
            let draft = draft_of(alloc, names, cleared)?;
            let tail = inode.size.max(begins);
            let draft = with_tail(alloc, draft, handle, inode, tail)?;
            Ok(draft)
        }
    }
}

/// The block of a handle, by the handle's number, exclusively.
///
/// `Need` names that block, which isn't held so. The status is `STALE` where the volume has no such block, or its header names another handle.
pub fn piece_held<V: View>(areas: u16, view: &V, names: u64) -> Result<&Block, Stop>
    ensures { PieceAt areas (V.held view.now) names (result_map_both (λ block. block.now) (λ stop. stop) result) }
{
    let at = block_at(names);
    if !is_block(at, areas) {
        return Err(Stop::Status(STALE));
    }
    match view.block(at, Mode::Exclusive) {
        None => Err(Stop::Need(at, Mode::Exclusive)),
        Some(block) => {
            if block.handle == names {
                Ok(block)
            } else {
                Err(Stop::Status(STALE))
            }
        }
    }
}

/// The block of a piece under a handle, with the first bytes of another, as many as are kept, and then zeros.
fn cleared(alloc: Global, names: u64, block: &Block, keep: usize) -> Result<Block, OutOfMemory>
    requires { keep ≤ 4096 }
    ensures { IfOk result (IsCleared block.now keep names) }
{
    let mut payload = [0; PAYLOAD];
    put_front(&mut payload, block.payload.bytes(), keep);
    let payload = Raw::of(alloc, &payload)?;
    Ok(Block {
        handle: names,
        kind: DATA,
        payload,
    })
}

/// Puts the first of some bytes, as many as are kept, and zeros behind them.
fn put_front(into: &mut [u8], bytes: &[u8], keep: usize)
    requires { keep ≤ length into.old }
    ensures kept { (place : ℕ) → place < keep → slice_index into.new place ≡ slice_index bytes.now place }
    ensures cleared { (place : ℕ) → keep ≤ place → place < length into.old → slice_index into.new place ≡ 0 }
{
    let kept = bytes.len().min(keep);
    into[..kept].copy_from_slice(&bytes[..kept]);
    into[kept..].fill(0);
}

/// A draft with a block under a handle.
fn draft_of(alloc: Global, names: u64, block: Block) -> Result<Draft, OutOfMemory>
    ensures { IfOk result (λ draft. draft ≡ (place_of names, block) ∷ []) }
{
    let mut draft = Draft::new(alloc);
    match draft.put(block_at(names), block) {
        Ok(()) => Ok(draft),
        Err(_) => Err(OutOfMemory),
    }
}

/// The draft with the inode of the file with a handle, which has another tail.
fn with_tail(
    alloc: Global,
    draft: Draft,
    handle: u64,
    inode: Inode,
    tail: u64,
) -> Result<Draft, OutOfMemory>
    requires inode { IsInode inode }
    requires room { length draft < 16 }
    ensures puts { IfOk result (λ new. PutsInode draft new handle (record inode { tail = tail })) }
    ensures held { (held : Held) → IsHeldDraft held draft → IsSome (held (place_of handle) Exclusive) → IfOk result (IsHeldDraft held) }
{
    let mut draft = draft;
    let lowered = Inode { tail, ..inode };
    put_inode(alloc, &mut draft, handle, &lowered)?;
    Ok(draft)
}
