//! The bytes of regular files, off the blocks of their pieces.

ghost use Rattle.std.specs.Prelude.{◌≡◌, ◌*◌, ◌^◌, ◌<◌, ◌↔◌, All, take, IfOk, OnOk, IsTrue, length};
ghost use Rattle.bx_audit_bodies.specs.Contents.{HasClear, IsClear, AddsPiece, with_piece};
ghost use Rattle.bx_audit_bodies.specs.Parts.{IsFirstPiece, IsOfOne, IsUnclearPiece};
ghost use Rattle.bx_audit_bodies.specs.Pieces.{AreApart, HasPiece, piece_among};
ghost use Rattle.bx_audit_files.specs.Inodes.{IsBlockAt};
ghost use Rattle.bx_audit_files.specs.Audits.{CanRead, Chunks, IfTorn, ReadsChunks, Shows, StillShows};
ghost use Rattle.bx_layout.specs.declared.block.Block.{Block};
ghost use Rattle.bx_truth.specs.Stored.{AreBytesOf};

use crate::pieces::Piece;
use bx_audit_files::block_at;
use bx_audit_pages::{AuditError, torn_at};
use bx_base::{OutOfMemory, are_zeros};
use bx_homes::Blocks;
use bx_layout::Block;
use bx_places::PAYLOAD;
use bx_tree_files::Content;
use std::alloc::Global;

/// The kind of the blocks of pieces.
const DATA: u32 = 3;

/// How many bytes a piece has.
const PIECE: u64 = 4096;

/// The bytes of a file of a size: those of the blocks of its pieces, and zeros where there is no piece. Torn exactly where a piece
/// has no block, or a block has a byte from the tail on that isn't zero: of such a piece.
pub(crate) fn bytes_of<B: Blocks>(
    alloc: Global,
    blocks: &mut B,
    areas: u16,
    pieces: &[Piece],
    size: u32,
    tail: u64,
) -> Result<Content, AuditError>
    requires blocks { CanRead B.Blocks areas blocks.old }
    requires size { size < 2 ^ 31 }
    ensures pieces { (chunks : Chunks) → Shows (B.tells blocks.old) areas (B.stands blocks.old) chunks → IfOk result (λ content. All (HasPiece chunks) pieces.now) }
    ensures bytes { (chunks : Chunks) → Shows (B.tells blocks.old) areas (B.stands blocks.old) chunks → AreApart pieces.now → IfOk result (AreBytesOf (piece_among chunks pieces.now) size tail) }
    ensures len { IfOk result (λ content. length content ≡ size) }
    ensures wrong { (chunks : Chunks) → Shows (B.tells blocks.old) areas (B.stands blocks.old) chunks → IfTorn result (λ at found wanted. IsUnclearPiece chunks pieces.now tail wanted) }
    ensures shows { StillShows B.Blocks areas blocks.old blocks.new }
    ensures blocks { ReadsChunks B.Blocks blocks.old blocks.new result }
{
    let mut content = Content::zeros(alloc, size);
    for piece in pieces {
        put_piece(blocks, areas, piece, size, tail, &mut content)?;
    }
    Ok(content)
}

/// Reads the block of each piece. Torn exactly where one has none: of the first that hasn't.
pub(crate) fn read_pieces<B: Blocks>(
    blocks: &mut B,
    areas: u16,
    pieces: &[Piece],
) -> Result<(), AuditError>
    requires blocks { CanRead B.Blocks areas blocks.old }
    ensures ok { (chunks : Chunks) → Shows (B.tells blocks.old) areas (B.stands blocks.old) chunks → OnOk result (All (HasPiece chunks) pieces.now) }
    ensures torn { (chunks : Chunks) → Shows (B.tells blocks.old) areas (B.stands blocks.old) chunks → IfTorn result (λ at found wanted. All (HasPiece chunks) pieces.now → ⊥) }
    ensures names { IfTorn result (λ at found wanted. IsOfOne pieces.now wanted) }
    ensures first { (chunks : Chunks) → Shows (B.tells blocks.old) areas (B.stands blocks.old) chunks → IfTorn result (λ at found wanted. IsFirstPiece chunks pieces.now wanted) }
    ensures shows { StillShows B.Blocks areas blocks.old blocks.new }
    ensures blocks { ReadsChunks B.Blocks blocks.old blocks.new result }
{
    for piece in pieces {
        block_at(blocks, areas, piece.handle, DATA)?;
    }
    Ok(())
}

/// Looks at the block of each piece, and keeps none of their bytes. Torn exactly where a piece has no block, or one with a byte from the tail on
/// that isn't zero: of such a piece.
pub(crate) fn check_pieces<B: Blocks>(
    blocks: &mut B,
    areas: u16,
    pieces: &[Piece],
    tail: u64,
) -> Result<(), AuditError>
    requires blocks { CanRead B.Blocks areas blocks.old }
    ensures ok { (chunks : Chunks) → Shows (B.tells blocks.old) areas (B.stands blocks.old) chunks → OnOk result (All (HasClear chunks tail) pieces.now) }
    ensures wrong { (chunks : Chunks) → Shows (B.tells blocks.old) areas (B.stands blocks.old) chunks → IfTorn result (λ at found wanted. IsUnclearPiece chunks pieces.now tail wanted) }
    ensures shows { StillShows B.Blocks areas blocks.old blocks.new }
    ensures blocks { ReadsChunks B.Blocks blocks.old blocks.new result }
{
    for piece in pieces {
        clear_block(blocks, areas, piece, tail)?;
    }
    Ok(())
}

/// Puts the bytes of a piece's block at their place. Torn exactly where there is no block, or it has a byte from the tail on that isn't
/// zero.
fn put_piece<B: Blocks>(
    blocks: &mut B,
    areas: u16,
    piece: &Piece,
    size: u32,
    tail: u64,
    content: &mut Content,
) -> Result<(), AuditError>
    requires blocks { CanRead B.Blocks areas blocks.old }
    requires size { size < 2 ^ 31 }
    ensures ok { (chunks : Chunks) → Shows (B.tells blocks.old) areas (B.stands blocks.old) chunks → OnOk result (AddsPiece chunks piece.now size tail content.old content.new) }
    ensures len { OnOk result (length content.old ≡ size → length content.new ≡ size) }
    ensures torn { (chunks : Chunks) → Shows (B.tells blocks.old) areas (B.stands blocks.old) chunks
        → IfTorn result (λ at found wanted. (block : Block) → IsBlockAt chunks piece.now.handle 3 block → IsClear tail piece.now.index block.payload → ⊥) }
    ensures names { IfTorn result (λ at found wanted. wanted ≡ piece.now.handle) }
    ensures shows { StillShows B.Blocks areas blocks.old blocks.new }
    ensures blocks { ReadsChunks B.Blocks blocks.old blocks.new result }
{
    let block = clear_block(blocks, areas, piece, tail)?;
    put_bytes(content, piece.index, block.payload.bytes(), size)?;
    Ok(())
}

/// The block of a piece. Torn exactly where it has none, or one with a byte from the tail on that isn't zero.
fn clear_block<B: Blocks>(
    blocks: &mut B,
    areas: u16,
    piece: &Piece,
    tail: u64,
) -> Result<Block, AuditError>
    requires blocks { CanRead B.Blocks areas blocks.old }
    ensures ok { (chunks : Chunks) → Shows (B.tells blocks.old) areas (B.stands blocks.old) chunks
        → IfOk result (λ block. IsBlockAt chunks piece.now.handle 3 block × IsClear tail piece.now.index block.payload) }
    ensures torn { (chunks : Chunks) → Shows (B.tells blocks.old) areas (B.stands blocks.old) chunks
        → IfTorn result (λ at found wanted. (block : Block) → IsBlockAt chunks piece.now.handle 3 block → IsClear tail piece.now.index block.payload → ⊥) }
    ensures names { IfTorn result (λ at found wanted. wanted ≡ piece.now.handle) }
    ensures shows { StillShows B.Blocks areas blocks.old blocks.new }
    ensures blocks { ReadsChunks B.Blocks blocks.old blocks.new result }
{
    let block = block_at(blocks, areas, piece.handle, DATA)?;
    if !is_clear(block.payload.bytes(), piece.index, tail) {
        return Err(torn_at(piece.handle));
    }
    Ok(block)
}

/// Whether all bytes of a piece with an index are zero from the tail on.
fn is_clear(payload: &[u8], index: u32, tail: u64) -> bool
    ensures { IsTrue result ↔ IsClear tail index payload.now }
{
    let payload = part_below(payload, PAYLOAD);
    let from = tail.saturating_sub(PIECE * u64::from(index));
    if from >= PIECE {
        return true;
    }
    let from = payload.len().min(from as usize);
    are_zeros(&payload[from..])
}

/// The bytes of a piece's payload before a place in it.
fn part_below(payload: &[u8], place: usize) -> &[u8]
    ensures { result.now ≡ take place (take 4096 payload.now) }
{
    let end = payload.len().min(PAYLOAD).min(place);
    &payload[..end]
}

/// Writes the bytes of a piece with an index into those of a file, as far as they are below its size.
fn put_bytes(
    content: &mut Content,
    index: u32,
    payload: &[u8],
    size: u32,
) -> Result<(), OutOfMemory>
    requires { size < 2 ^ 31 }
    ensures { OnOk result (content.new ≡ with_piece size index payload.now content.old) }
{
    let start = PIECE * u64::from(index);
    let size = u64::from(size);
    if start >= size {
        return Ok(());
    }
    content.write(start as u32, part_below(payload, (size - start) as usize))
}
