//! The file of an inode whose chunks have no other owner.

ghost use Rattle.std.specs.Prelude.{◌≡◌, ◌⊎◌, length, IfOk, None, Some};
ghost use Rattle.bx_audit_bodies.specs.Outlines.{AreRight, IsFileOutline, IsUnreadFile};
ghost use Rattle.bx_audit_bodies.specs.Reading.{AreEntriesApart, IsReadAs};
ghost use Rattle.bx_audit_owners.specs.declared.holders.Holder.TheVariants.{File as OfFile};
ghost use Rattle.bx_audit_owners.specs.Holding.{AddsHolder, holdings_of};
ghost use Rattle.bx_audit_owners.specs.Walks.{IsTakenFile};
ghost use Rattle.bx_audit_pages.specs.Errors.{IfTorn};
ghost use Rattle.bx_audit_pages.specs.Reading.{ReadsChunks, StillShows};
ghost use Rattle.bx_audit_pages.specs.Shown.{Shows};
ghost use Rattle.bx_homes.specs.Reading.{CanRead};
ghost use Rattle.bx_tree_files.specs.Files.{IsFile};
ghost use Rattle.bx_truth.specs.PageTrees.{Chunks};

use crate::holders::{Holder, Holders, put_inode};
use bx_audit_bodies::{FileOutline, check_file, file_of};
use bx_audit_pages::AuditError;
use bx_homes::Blocks;
use bx_tree_files::File;
use std::alloc::Global;

/// The file of an outline, once it is said of its inode and of what it claims what has them. Its bytes are held only where no chunk is claimed
/// twice: however often trees name a block, what is held of all files together is never more than the blocks that they have. Torn exactly where
/// a piece is wrong, or else a chunk has another holder.
pub(crate) fn claimed_file<B: Blocks>(
    alloc: Global,
    blocks: &mut B,
    areas: u16,
    outline: FileOutline,
    holders: &mut Holders,
) -> Result<File, AuditError>
    requires blocks { CanRead B.Blocks areas blocks.old }
    requires right { AreRight outline.parts }
    requires new { holdings_of holders.old outline.handle ≡ None }
    ensures ok { (chunks : Chunks) → Shows (B.tells blocks.old) areas (B.stands blocks.old) chunks → IsFileOutline chunks outline
        → IfOk result (λ file. IsReadAs chunks outline.handle (Some file) outline.claims.items) }
    ensures adds { IfOk result (λ file. AddsHolder (holdings_of holders.old) outline.handle OfFile outline.claims.items (length outline.claims.items) (holdings_of holders.new)) }
    ensures is { IfOk result IsFile }
    ensures apart { IfOk result (λ file. AreEntriesApart file.body) }
    ensures torn { (chunks : Chunks) → Shows (B.tells blocks.old) areas (B.stands blocks.old) chunks → IsFileOutline chunks outline
        → IfTorn result (λ at found wanted. IsUnreadFile chunks outline.handle wanted ⊎ IsTakenFile chunks (holdings_of holders.old) outline.handle wanted) }
    ensures shows { StillShows B.Blocks areas blocks.old blocks.new }
    ensures blocks { ReadsChunks B.Blocks blocks.old blocks.new result }
{
    let claims = outline.claims.as_slice();
    match put_inode(holders, outline.handle, Holder::File, claims) {
        Ok(()) => file_of(alloc, blocks, areas, outline),
        Err(error) => {
            check_file(blocks, areas, &outline)?;
            Err(error)
        }
    }
}
