//! The outline of an inode, and the file of an outline.

ghost use Rattle.std.specs.Prelude.{◌≡◌, ℕ, None, Option, Some, IfOk, OnOk};
ghost use Rattle.bx_audit_bodies.specs.Faults.{HasFault};
ghost use Rattle.bx_audit_bodies.specs.Outlines.{AreRight, IsFileOutline, IsOutlineAt, IsReadable, IsRight, IsUnreadFile};
ghost use Rattle.bx_audit_bodies.specs.Parts.{IsPartOf, IsTornDead};
ghost use Rattle.bx_audit_bodies.specs.Reading.{AreEntriesApart, IsReadAs, IsStored};
ghost use Rattle.bx_audit_files.specs.Audits.{CanRead, Chunks, IfTorn, ReadsChunks, Shows, StillShows};
ghost use Rattle.bx_audit_files.specs.Inodes.{IsInodeAt};
ghost use Rattle.bx_layout.specs.declared.inode.Inode.{Inode};
ghost use Rattle.bx_tree_files.specs.declared.file.File.{File as Kept};
ghost use Rattle.bx_tree_files.specs.Files.{IsFile};
ghost use Rattle.bx_truth.specs.Stored.{Owner, Stored};

use crate::bodies::{dead_of, directory_of, link_of, regular_of};
use crate::contents::{bytes_of, check_pieces};
use crate::outlines::{FileOutline, Outline, Parts};
use bx_audit_files::inode_at;
use bx_audit_pages::AuditError;
use bx_homes::Blocks;
use bx_inodes::file_with;
use bx_tree_files::{Body, DIRECTORY, File, LINK, REGULAR};
use std::alloc::Global;

/// What the inode is that a handle names, with the chunks that it has, as far as it can be told without the blocks of a regular file's pieces:
/// whoever calls compares its claims before any of their bytes are held. Torn only where no such inode is stored there, whoever may have which
/// chunks: of a part that is wrong.
pub fn outline_of<B: Blocks>(
    alloc: Global,
    blocks: &mut B,
    areas: u16,
    handle: u64,
) -> Result<Outline, AuditError>
    requires blocks { CanRead B.Blocks areas blocks.old }
    ensures ok { (chunks : Chunks) → Shows (B.tells blocks.old) areas (B.stands blocks.old) chunks → IfOk result (IsOutlineAt chunks handle) }
    ensures right { IfOk result (IsRight handle) }
    ensures torn { (chunks : Chunks) → Shows (B.tells blocks.old) areas (B.stands blocks.old) chunks
        → IfTorn result (λ at found wanted. (owner : ℕ → Owner) (stored : Stored) (file : Option Kept) → IsStored chunks owner handle stored file → ⊥) }
    ensures names { (chunks : Chunks) → Shows (B.tells blocks.old) areas (B.stands blocks.old) chunks → chunks handle ≡ None → IfTorn result (λ at found wanted. wanted ≡ handle) }
    ensures part { (chunks : Chunks) → Shows (B.tells blocks.old) areas (B.stands blocks.old) chunks → IfTorn result (λ at found wanted. IsPartOf chunks handle wanted) }
    ensures fault { (chunks : Chunks) → Shows (B.tells blocks.old) areas (B.stands blocks.old) chunks → IfTorn result (λ at found wanted. HasFault chunks handle wanted) }
    ensures dead { (chunks : Chunks) → Shows (B.tells blocks.old) areas (B.stands blocks.old) chunks → (inode : Inode) → IsInodeAt chunks handle inode → inode.kind ≡ 0 → IfTorn result (λ at found wanted. IsTornDead chunks inode.tree wanted) }
    ensures shows { StillShows B.Blocks areas blocks.old blocks.new }
    ensures blocks { ReadsChunks B.Blocks blocks.old blocks.new result }
{
    let inode = inode_at(alloc, blocks, areas, handle)?;
    match inode.kind {
        REGULAR => regular_of(alloc, blocks, areas, handle, inode),
        DIRECTORY => directory_of(alloc, blocks, areas, handle, &inode),
        LINK => link_of(alloc, handle, &inode),
        _ => dead_of(alloc, blocks, areas, handle, &inode),
    }
}

/// Whether some file can be read by an outline: the blocks of its pieces are looked at, and their bytes aren't kept. Torn exactly where none can:
/// of a piece that is wrong.
pub fn check_file<B: Blocks>(
    blocks: &mut B,
    areas: u16,
    outline: &FileOutline,
) -> Result<(), AuditError>
    requires blocks { CanRead B.Blocks areas blocks.old }
    requires right { AreRight outline.now.parts }
    ensures ok { (chunks : Chunks) → Shows (B.tells blocks.old) areas (B.stands blocks.old) chunks → IsFileOutline chunks outline.now
        → OnOk result (IsReadable chunks outline.now.handle outline.now.claims.items) }
    ensures torn { (chunks : Chunks) → Shows (B.tells blocks.old) areas (B.stands blocks.old) chunks → IsFileOutline chunks outline.now
        → IfTorn result (λ at found wanted. IsUnreadFile chunks outline.now.handle wanted) }
    ensures shows { StillShows B.Blocks areas blocks.old blocks.new }
    ensures blocks { ReadsChunks B.Blocks blocks.old blocks.new result }
{
    match &outline.parts {
        Parts::Whole(_) => Ok(()),
        Parts::Pieces(inode, pieces) => check_pieces(blocks, areas, pieces, inode.tail),
    }
}

/// The file of an outline, with the bytes of its pieces, each held as often as the outline claims its block. Torn exactly where there is none: of a
/// piece that is wrong.
pub fn file_of<B: Blocks>(
    alloc: Global,
    blocks: &mut B,
    areas: u16,
    outline: FileOutline,
) -> Result<File, AuditError>
    requires blocks { CanRead B.Blocks areas blocks.old }
    requires right { AreRight outline.parts }
    ensures ok { (chunks : Chunks) → Shows (B.tells blocks.old) areas (B.stands blocks.old) chunks → IsFileOutline chunks outline
        → IfOk result (λ file. IsReadAs chunks outline.handle (Some file) outline.claims.items) }
    ensures is { IfOk result IsFile }
    ensures apart { IfOk result (λ file. AreEntriesApart file.body) }
    ensures torn { (chunks : Chunks) → Shows (B.tells blocks.old) areas (B.stands blocks.old) chunks → IsFileOutline chunks outline
        → IfTorn result (λ at found wanted. IsUnreadFile chunks outline.handle wanted) }
    ensures shows { StillShows B.Blocks areas blocks.old blocks.new }
    ensures blocks { ReadsChunks B.Blocks blocks.old blocks.new result }
{
    let FileOutline { handle, parts, .. } = outline;
    match parts {
        Parts::Whole(file) => Ok(file),
        Parts::Pieces(inode, pieces) => {
            let content = bytes_of(alloc, blocks, areas, &pieces, inode.size as u32, inode.tail)?;
            Ok(file_with(handle, &inode, Body::Bytes(content)))
        }
    }
}
