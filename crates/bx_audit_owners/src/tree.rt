//! The tree of a volume.

ghost use Rattle.std.specs.Prelude.{◌≡◌, ℕ, IfOk, List, OnOk};
ghost use Rattle.bx_audit_owners.specs.Found.{AreOrdered};
ghost use Rattle.bx_audit_owners.specs.Holding.{holdings_of};
ghost use Rattle.bx_audit_slots.specs.Told.{IsTold};
ghost use Rattle.bx_audit_slots.specs.UsedSlots.{AreUsed};
ghost use Rattle.bx_audit_owners.specs.Walks.{IsTreeOf, IsWalked, IsWalkedOn};
ghost use Rattle.bx_audit_owners.specs.Whole.{IsRestTorn, IsTreeTorn, IsWhole, StandsForNone};
ghost use Rattle.bx_audit_bodies.specs.bx_audit_files.specs.Audits.{CanRead, IfTorn, ReadsChunks, Truth};
ghost use Rattle.bx_tree_files.specs.declared.file.File.{File};
ghost use Rattle.bx_truth.specs.Chunks.{chunks_of};
ghost use Rattle.bx_truth.specs.Stands.{StandsFor};

use crate::dead::read_dead;
use crate::holders::{Holders, check_slots};
use crate::walks::Walked;
use bx_audit_pages::AuditError;
use bx_audit_slots::{UsedSlot, told_of, used_slots};
use bx_homes::Blocks;
use bx_model::Tree;
use std::alloc::Global;

/// The tree that the blocks of a volume stand for, once its slots are right: that of the files that the walk from the root met. Torn where
/// they stand for no file tree, since something that the walk doesn't meet is wrong. Whether the files are a file tree isn't asked here; the
/// handles given out are those of the files, as far as blocks tell.
pub fn tree_on<B: Blocks>(
    alloc: Global,
    blocks: &mut B,
    areas: u16,
    walked: Walked,
) -> Result<Tree, AuditError>
    requires blocks { CanRead B.Blocks areas blocks.old }
    requires tree { IsTreeOf areas walked.tree.volume walked.tree }
    ensures ok { (truth : Truth) → IsTold (B.tells blocks.old) areas (B.stands blocks.old) truth → IsWalkedOn (B.tells blocks.old) areas (B.stands blocks.old) walked → IfOk result (StandsFor areas truth) }
    ensures is { IfOk result (λ tree. tree ≡ walked.tree) }
    ensures torn { (truth : Truth) → IsTold (B.tells blocks.old) areas (B.stands blocks.old) truth → IsWalkedOn (B.tells blocks.old) areas (B.stands blocks.old) walked → IfTorn result (λ at found wanted. StandsForNone areas truth) }
    ensures tells { (truth : Truth) → IsTold (B.tells blocks.old) areas (B.stands blocks.old) truth → IsWalkedOn (B.tells blocks.old) areas (B.stands blocks.old) walked → IfTorn result (IsTreeTorn areas truth) }
    ensures blocks { ReadsChunks B.Blocks blocks.old blocks.new result }
{
    let slots = used_slots(alloc, blocks, areas)?;
    let Walked { tree, mut holders } = walked;
    check_rest(alloc, blocks, areas, slots.as_slice(), &mut holders)?;
    Ok(tree)
}

/// Whether what the walk from the root doesn't meet is as it should be, of a volume with these slots in use: that is dead inodes alone, of
/// the slots that are marked, with their chunks. Torn where not: of a part of a dead inode the block where a reader of its handle looks is
/// told of, and the handle in its header.
fn check_rest<B: Blocks>(
    alloc: Global,
    blocks: &mut B,
    areas: u16,
    slots: &[UsedSlot],
    holders: &mut Holders,
) -> Result<(), AuditError>
    requires blocks { CanRead B.Blocks areas blocks.old }
    ensures ok { (truth : Truth) (files : List File) → IsTold (B.tells blocks.old) areas (B.stands blocks.old) truth → AreUsed areas truth slots.now → IsWalked (chunks_of areas truth) (holdings_of holders.old) files
        → OnOk result (IsWhole areas truth slots.now (holdings_of holders.new) files) }
    ensures torn { (truth : Truth) (files : List File) (given : List ℕ) → IsTold (B.tells blocks.old) areas (B.stands blocks.old) truth → AreUsed areas truth slots.now → IsWalked (chunks_of areas truth) (holdings_of holders.old) files
        → AreOrdered files given → IfTorn result (λ at found wanted. StandsForNone areas truth) }
    ensures tells { (truth : Truth) (files : List File) → IsTold (B.tells blocks.old) areas (B.stands blocks.old) truth → AreUsed areas truth slots.now → IsWalked (chunks_of areas truth) (holdings_of holders.old) files
        → IfTorn result (IsRestTorn areas truth) }
    ensures blocks { ReadsChunks B.Blocks blocks.old blocks.new result }
{
    match read_dead(alloc, blocks, areas, slots, holders) {
        Ok(()) => check_slots(slots, holders),
        Err(AuditError::Torn(_, _, wanted)) => {
            let (at, found) = told_of(slots, areas, wanted);
            Err(AuditError::Torn(at, found, wanted))
        }
        Err(AuditError::Fault) => Err(AuditError::Fault),
        Err(AuditError::OutOfMemory) => Err(AuditError::OutOfMemory),
    }
}
