//! The pieces of files, as the entries of their trees name them.

ghost use Rattle.std.specs.Prelude.{◌≡◌, ◌++◌, ◌^◌, ◌<◌, ℕ, [], All, take, drop, map, slice_index_or, IfOk, IfSome, IfNone, IsErrOf, IsTrue, IsFalse};
ghost use Rattle.bx_audit_bodies.specs.Parts.{IsFirstLeaf};
ghost use Rattle.bx_audit_bodies.specs.Pieces.{ArePieces, IsPieceEntry, IsOfPiece, piece_in};
ghost use Rattle.bx_audit_pages.specs.declared.error.AuditError.TheVariants.{Fault as DiskFailed};
ghost use Rattle.bx_audit_pages.specs.Errors.{IfTorn};
ghost use Rattle.bx_audit_pages.specs.Trees.{tree_of};
ghost use Rattle.bx_truth.specs.Keys.{content_value};
ghost use Rattle.bx_truth.specs.PageTrees.{map_of};

use bx_audit_pages::{AuditError, ReadTree, torn_at};
use bx_base::OutOfMemory;
use bx_keys::{handle_in, number_behind};
use bx_page::{Entry, Page};
use std::alloc::Global;

/// What a key begins with that has the index of a piece.
const CONTENT: u8 = 3;

/// A piece of 4096 bytes of a file.
#[derive(Clone, Copy)]
pub struct Piece {
    /// Where it is in the file, counted in pieces from 0.
    pub index: u32,
    /// The handle of its block.
    pub handle: u64,
}

/// The pieces that the entries of a tree name, in the order of their indices. Torn exactly where some entry names none: of the first leaf with
/// such an entry.
pub(crate) fn pieces_of(alloc: Global, tree: &ReadTree) -> Result<Vec<Piece>, AuditError>
    ensures ok { IfOk result (λ pieces. ArePieces (map_of (tree_of tree.now)) pieces.items) }
    ensures torn { IfTorn result (λ at found wanted. IsFirstLeaf (slice_index_or tree.now 0 []) wanted) }
    ensures no_fault { IsErrOf result DiskFailed → ⊥ }
{
    let mut pieces = Vec::new(alloc);
    let leaves = tree.leaves();
    for leaf in leaves {
        if !put_pieces(leaf.page(), &mut pieces)? {
            return Err(torn_at(leaf.handle()));
        }
    }
    Ok(pieces)
}

/// Puts the pieces that the entries of a leaf name behind others, and says whether each entry names one.
fn put_pieces(page: &Page, pieces: &mut Vec<Piece>) -> Result<bool, OutOfMemory>
    ensures yes { IfOk result (λ good. IsTrue good → All IsPieceEntry page.now.entries) }
    ensures no { IfOk result (λ good. IsFalse good → All IsPieceEntry page.now.entries → ⊥) }
    ensures pieces { IfOk result (λ good. IsTrue good → pieces.new.items ≡ pieces.old.items ++ map piece_in page.now.entries) }
{
    for at in 0..page.len() {
        if !put_at(page, at, pieces)? {
            return Ok(false);
        }
    }
    Ok(true)
}

/// The same of the entry at a place, if there is one.
fn put_at(page: &Page, at: usize, pieces: &mut Vec<Piece>) -> Result<bool, OutOfMemory>
    ensures yes { IfOk result (λ good. IsTrue good → All IsPieceEntry (take 1 (drop at page.now.entries))) }
    ensures no { IfOk result (λ good. IsFalse good → All IsPieceEntry (take 1 (drop at page.now.entries)) → ⊥) }
    ensures pieces { IfOk result (λ good. IsTrue good → pieces.new.items ≡ pieces.old.items ++ map piece_in (take 1 (drop at page.now.entries))) }
{
    let Some(entry) = page.entry(at) else {
        return Ok(true);
    };
    let Some(piece) = piece_of(entry) else {
        return Ok(false);
    };
    pieces.push(piece)?;
    Ok(true)
}

/// The piece that an entry names; `None` exactly where it names none.
fn piece_of(entry: &Entry) -> Option<Piece>
    ensures some { IfSome result (λ piece. IsOfPiece piece entry.now) }
    ensures none { IfNone result (IsPieceEntry entry.now → ⊥) }
{
    let index = number_behind(CONTENT, entry.key.bytes())?;
    let handle = block_in(entry.value.bytes())?;
    Some(Piece { index, handle })
}

/// The handle in the value of a piece.
fn block_in(value: &[u8]) -> Option<u64>
    ensures some { IfSome result (λ handle. value.now ≡ content_value handle) }
    ensures none { IfNone result ((handle : ℕ) → handle < 2 ^ 64 → value.now ≡ content_value handle → ⊥) }
{
    let (handle, rest) = handle_in(value)?;
    if rest.is_empty() { Some(handle) } else { None }
}
