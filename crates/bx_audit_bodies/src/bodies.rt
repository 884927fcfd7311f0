//! What inodes of each kind have.

ghost use Rattle.std.specs.Prelude.{◌≡◌, ℕ, All, Contains, Option, IfOk, IsErrOf};
ghost use Rattle.bx_audit_bodies.specs.Bodies.{HasPieces, IsBodyOf};
ghost use Rattle.bx_audit_bodies.specs.Faults.{HasFaultIn};
ghost use Rattle.bx_audit_bodies.specs.Outlines.{IsOutlineOf, IsRight};
ghost use Rattle.bx_audit_bodies.specs.Parts.{IsPartWith, IsTornDead, IsTornTree};
ghost use Rattle.bx_audit_bodies.specs.Pieces.{IsPieceEntry};
ghost use Rattle.bx_audit_bodies.specs.declared.pieces.Piece.{Piece as Part};
ghost use Rattle.bx_audit_pages.specs.declared.error.AuditError.TheVariants.{Fault as DiskFailed};
ghost use Rattle.bx_audit_files.specs.Audits.{CanRead, Chunks, IfTorn, ReadsChunks, Shows, StillShows};
ghost use Rattle.bx_audit_pages.specs.Leading.{IsLedTo};
ghost use Rattle.bx_layout.specs.Inodes.{IsInode};
ghost use Rattle.bx_tree_files.specs.declared.file.File.{File as Kept};
ghost use Rattle.bx_truth.specs.PageTrees.{PageTree, IsTree, map_of};
ghost use Rattle.bx_truth.specs.Stored.{Owner};

use crate::claims::{Claim, claims_of};
use crate::contents::read_pieces;
use crate::outlines::{FileOutline, Outline, Parts};
use crate::pieces::{Piece, pieces_of};
use bx_audit_files::entries_of;
use bx_audit_pages::{AuditError, torn_at, tree_under};
use bx_base::Raw;
use bx_homes::Blocks;
use bx_inodes::file_with;
use bx_layout::Inode;
use bx_tree_files::Body;
use std::alloc::Global;

/// The most bytes that a file has.
const MOST_BYTES: u64 = 2147483647;

/// The pieces of a tree under a root, and the claims of its pages and of the pieces. Torn exactly where no tree is there whose entries
/// all name pieces: of a page that is wrong, or the first leaf with an entry that names none.
fn pieces_under<B: Blocks>(
    alloc: Global,
    blocks: &mut B,
    areas: u16,
    root: u64,
) -> Result<(Vec<Piece>, Vec<Claim>), AuditError>
    requires blocks { CanRead B.Blocks areas blocks.old }
    ensures ok { (chunks : Chunks) → Shows (B.tells blocks.old) areas (B.stands blocks.old) chunks → IfOk result (λ x. HasPieces chunks root x.0.items x.1.items) }
    ensures torn { (chunks : Chunks) → Shows (B.tells blocks.old) areas (B.stands blocks.old) chunks
        → IfTorn result (λ at found wanted. (tree : PageTree) → IsTree chunks root tree → All IsPieceEntry (map_of tree) → ⊥) }
    ensures led { (chunks : Chunks) → Shows (B.tells blocks.old) areas (B.stands blocks.old) chunks → IfOk result (λ x. (piece : Part) → Contains x.0.items piece → IsLedTo chunks root piece.handle) }
    ensures leads { (chunks : Chunks) → Shows (B.tells blocks.old) areas (B.stands blocks.old) chunks → IfTorn result (λ at found wanted. IsLedTo chunks root wanted) }
    ensures first { (chunks : Chunks) → Shows (B.tells blocks.old) areas (B.stands blocks.old) chunks → IfTorn result (λ at found wanted. IsTornTree chunks root wanted) }
    ensures shows { StillShows B.Blocks areas blocks.old blocks.new }
    ensures blocks { ReadsChunks B.Blocks blocks.old blocks.new result }
{
    let tree = tree_under(alloc, blocks, areas, root)?;
    let pieces = pieces_of(alloc, &tree)?;
    let claims = claims_of(alloc, &tree, &pieces)?;
    Ok((pieces, claims))
}

/// The outline of the inode of a regular file, before the blocks of its pieces are read. Torn only where it is no file's, whoever may have which
/// chunks: where it has too many bytes, or no tree of pieces.
pub(crate) fn regular_of<B: Blocks>(
    alloc: Global,
    blocks: &mut B,
    areas: u16,
    handle: u64,
    inode: Inode,
) -> Result<Outline, AuditError>
    requires blocks { CanRead B.Blocks areas blocks.old }
    requires inode { IsInode inode }
    requires kind { inode.kind ≡ 1 }
    ensures ok { (chunks : Chunks) → Shows (B.tells blocks.old) areas (B.stands blocks.old) chunks → IfOk result (IsOutlineOf chunks handle inode) }
    ensures right { IfOk result (IsRight handle) }
    ensures torn { (chunks : Chunks) → Shows (B.tells blocks.old) areas (B.stands blocks.old) chunks
        → IfTorn result (λ at found wanted. (owner : ℕ → Owner) (tree : PageTree) (file : Option Kept) → IsBodyOf chunks owner handle inode tree file → ⊥) }
    ensures part { (chunks : Chunks) → Shows (B.tells blocks.old) areas (B.stands blocks.old) chunks → IfTorn result (λ at found wanted. IsPartWith chunks handle inode.tree wanted) }
    ensures fault { (chunks : Chunks) → Shows (B.tells blocks.old) areas (B.stands blocks.old) chunks → IfTorn result (λ at found wanted. HasFaultIn chunks handle inode wanted) }
    ensures shows { StillShows B.Blocks areas blocks.old blocks.new }
    ensures blocks { ReadsChunks B.Blocks blocks.old blocks.new result }
{
    if inode.size > MOST_BYTES {
        return Err(torn_at(handle));
    }
    let (pieces, claims) = pieces_under(alloc, blocks, areas, inode.tree)?;
    Ok(Outline::File(FileOutline {
        handle,
        claims,
        parts: Parts::Pieces(inode, pieces),
    }))
}

/// The outline of the inode of a directory, which has all of its file. Torn exactly where it is none, whoever may have which chunks.
pub(crate) fn directory_of<B: Blocks>(
    alloc: Global,
    blocks: &mut B,
    areas: u16,
    handle: u64,
    inode: &Inode,
) -> Result<Outline, AuditError>
    requires blocks { CanRead B.Blocks areas blocks.old }
    requires inode { IsInode inode.now }
    requires kind { inode.now.kind ≡ 2 }
    ensures ok { (chunks : Chunks) → Shows (B.tells blocks.old) areas (B.stands blocks.old) chunks → IfOk result (IsOutlineOf chunks handle inode.now) }
    ensures right { IfOk result (IsRight handle) }
    ensures torn { (chunks : Chunks) → Shows (B.tells blocks.old) areas (B.stands blocks.old) chunks
        → IfTorn result (λ at found wanted. (owner : ℕ → Owner) (tree : PageTree) (file : Option Kept) → IsBodyOf chunks owner handle inode.now tree file → ⊥) }
    ensures part { (chunks : Chunks) → Shows (B.tells blocks.old) areas (B.stands blocks.old) chunks → IfTorn result (λ at found wanted. IsPartWith chunks handle inode.now.tree wanted) }
    ensures fault { (chunks : Chunks) → Shows (B.tells blocks.old) areas (B.stands blocks.old) chunks → IfTorn result (λ at found wanted. HasFaultIn chunks handle inode.now wanted) }
    ensures shows { StillShows B.Blocks areas blocks.old blocks.new }
    ensures blocks { ReadsChunks B.Blocks blocks.old blocks.new result }
{
    if inode.nlink >= inode.next {
        return Err(torn_at(handle));
    }
    let tree = tree_under(alloc, blocks, areas, inode.tree)?;
    let Some(names) = entries_of(alloc, &tree, inode.next)? else {
        return Err(torn_at(handle));
    };
    let claims = claims_of(alloc, &tree, &[])?;
    let file = file_with(handle, inode, Body::Names(inode.parent, inode.next, names));
    Ok(Outline::File(FileOutline {
        handle,
        claims,
        parts: Parts::Whole(file),
    }))
}

/// The outline of the inode of a link, which has all of its file. Torn exactly where it has a tree.
pub(crate) fn link_of(alloc: Global, handle: u64, inode: &Inode) -> Result<Outline, AuditError>
    requires inode { IsInode inode.now }
    requires kind { inode.now.kind ≡ 5 }
    ensures ok { (chunks : Chunks) → IfOk result (IsOutlineOf chunks handle inode.now) }
    ensures right { IfOk result (IsRight handle) }
    ensures torn { (chunks : Chunks) → IfTorn result (λ at found wanted. (owner : ℕ → Owner) (tree : PageTree) (file : Option Kept) → IsBodyOf chunks owner handle inode.now tree file → ⊥) }
    ensures part { IfTorn result (λ at found wanted. wanted ≡ handle) }
    ensures fault { (chunks : Chunks) → IfTorn result (λ at found wanted. HasFaultIn chunks handle inode.now wanted) }
    ensures no_fault { IsErrOf result DiskFailed → ⊥ }
{
    if inode.tree != 0 {
        return Err(torn_at(handle));
    }
    let path = Raw::of(alloc, inode.path.bytes())?;
    let file = file_with(handle, inode, Body::Path(path));
    Ok(Outline::File(FileOutline {
        handle,
        claims: Vec::new(alloc),
        parts: Parts::Whole(file),
    }))
}

/// That an inode is dead: it has no tree, or one of the pieces that are left. Torn exactly where it has another one.
pub(crate) fn dead_of<B: Blocks>(
    alloc: Global,
    blocks: &mut B,
    areas: u16,
    handle: u64,
    inode: &Inode,
) -> Result<Outline, AuditError>
    requires blocks { CanRead B.Blocks areas blocks.old }
    requires inode { IsInode inode.now }
    requires kind { inode.now.kind ≡ 0 }
    ensures ok { (chunks : Chunks) → Shows (B.tells blocks.old) areas (B.stands blocks.old) chunks → IfOk result (IsOutlineOf chunks handle inode.now) }
    ensures right { IfOk result (IsRight handle) }
    ensures torn { (chunks : Chunks) → Shows (B.tells blocks.old) areas (B.stands blocks.old) chunks
        → IfTorn result (λ at found wanted. (owner : ℕ → Owner) (tree : PageTree) (file : Option Kept) → IsBodyOf chunks owner handle inode.now tree file → ⊥) }
    ensures part { (chunks : Chunks) → Shows (B.tells blocks.old) areas (B.stands blocks.old) chunks → IfTorn result (λ at found wanted. IsPartWith chunks handle inode.now.tree wanted) }
    ensures fault { (chunks : Chunks) → Shows (B.tells blocks.old) areas (B.stands blocks.old) chunks → IfTorn result (λ at found wanted. HasFaultIn chunks handle inode.now wanted) }
    ensures first { (chunks : Chunks) → Shows (B.tells blocks.old) areas (B.stands blocks.old) chunks → IfTorn result (λ at found wanted. IsTornDead chunks inode.now.tree wanted) }
    ensures shows { StillShows B.Blocks areas blocks.old blocks.new }
    ensures blocks { ReadsChunks B.Blocks blocks.old blocks.new result }
{
    if inode.tree == 0 {
        return Ok(Outline::Dead(Vec::new(alloc)));
    }
    let (pieces, claims) = pieces_under(alloc, blocks, areas, inode.tree)?;
    read_pieces(blocks, areas, &pieces)?;
    Ok(Outline::Dead(claims))
}
