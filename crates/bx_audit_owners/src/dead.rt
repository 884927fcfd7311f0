//! The dead inodes of a volume.

ghost use Rattle.std.specs.Prelude.{◌≡◌, ℕ, true, Contains, List, OnOk, Some};
ghost use Rattle.bx_audit_slots.specs.declared.slots.UsedSlot.{UsedSlot as Used};
ghost use Rattle.bx_audit_owners.specs.declared.holders.Holder.{Holder as Has};
ghost use Rattle.bx_audit_owners.specs.declared.holders.Holder.TheVariants.{Dead as OfDead};
ghost use Rattle.bx_audit_owners.specs.Dead.{IsNoDead, IsNoDeadOf};
ghost use Rattle.bx_audit_owners.specs.Found.{IsFound};
ghost use Rattle.bx_audit_owners.specs.Holding.{holdings_of};
ghost use Rattle.bx_audit_pages.specs.Errors.{IfTorn};
ghost use Rattle.bx_audit_pages.specs.Reading.{ReadsChunks, StillShows};
ghost use Rattle.bx_audit_pages.specs.Shown.{Shows};
ghost use Rattle.bx_homes.specs.Reading.{CanRead};
ghost use Rattle.bx_tree_files.specs.declared.file.File.{File};
ghost use Rattle.bx_truth.specs.PageTrees.{Chunks};

use crate::holders::{Holder, Holders, has_holder, put_inode};
use bx_audit_bodies::{Outline, check_file, outline_of};
use bx_audit_pages::{AuditError, torn_at};
use bx_audit_slots::UsedSlot;
use bx_homes::Blocks;
use std::alloc::Global;

/// Says of the dead inodes, those of the slots that are marked, and of the chunks that they claim what has them. Torn where the chunk of
/// such a slot is no dead inode, or one that claims what another holder has: of the first such slot.
pub(crate) fn read_dead<B: Blocks>(
    alloc: Global,
    blocks: &mut B,
    areas: u16,
    slots: &[UsedSlot],
    holders: &mut Holders,
) -> Result<(), AuditError>
    requires blocks { CanRead B.Blocks areas blocks.old }
    ensures ok { (chunks : Chunks) (files : List File) → Shows (B.tells blocks.old) areas (B.stands blocks.old) chunks → IsFound chunks (holdings_of holders.old) files
        → OnOk result (IsFound chunks (holdings_of holders.new) files) }
    ensures marked { OnOk result ((slot : Used) → Contains slots.now slot → slot.dead ≡ true → holdings_of holders.new slot.handle ≡ Some OfDead) }
    ensures still { OnOk result ((at : ℕ) (held : Has) → holdings_of holders.old at ≡ Some held → holdings_of holders.new at ≡ Some held) }
    ensures torn { (chunks : Chunks) (files : List File) → Shows (B.tells blocks.old) areas (B.stands blocks.old) chunks → IsFound chunks (holdings_of holders.old) files
        → IfTorn result (λ at found wanted. IsNoDeadOf chunks files slots.now wanted) }
    ensures shows { StillShows B.Blocks areas blocks.old blocks.new }
    ensures blocks { ReadsChunks B.Blocks blocks.old blocks.new result }
{
    for slot in slots {
        read_slot(alloc, blocks, areas, slot, holders)?;
    }
    Ok(())
}

/// The same of one slot.
fn read_slot<B: Blocks>(
    alloc: Global,
    blocks: &mut B,
    areas: u16,
    slot: &UsedSlot,
    holders: &mut Holders,
) -> Result<(), AuditError>
    requires blocks { CanRead B.Blocks areas blocks.old }
    ensures ok { (chunks : Chunks) (files : List File) → Shows (B.tells blocks.old) areas (B.stands blocks.old) chunks → IsFound chunks (holdings_of holders.old) files
        → OnOk result (IsFound chunks (holdings_of holders.new) files) }
    ensures marked { slot.now.dead ≡ true → OnOk result (holdings_of holders.new slot.now.handle ≡ Some OfDead) }
    ensures still { OnOk result ((at : ℕ) (held : Has) → holdings_of holders.old at ≡ Some held → holdings_of holders.new at ≡ Some held) }
    ensures torn { (chunks : Chunks) (files : List File) → Shows (B.tells blocks.old) areas (B.stands blocks.old) chunks → IsFound chunks (holdings_of holders.old) files
        → IfTorn result (λ at found wanted. (slot.now.dead ≡ true) × IsNoDead chunks (holdings_of holders.old) slot.now.handle wanted) }
    ensures shows { StillShows B.Blocks areas blocks.old blocks.new }
    ensures blocks { ReadsChunks B.Blocks blocks.old blocks.new result }
{
    if !slot.dead {
        return Ok(());
    }
    read_one(alloc, blocks, areas, slot.handle, holders)
}

/// The same of a slot that is marked.
fn read_one<B: Blocks>(
    alloc: Global,
    blocks: &mut B,
    areas: u16,
    handle: u64,
    holders: &mut Holders,
) -> Result<(), AuditError>
    requires blocks { CanRead B.Blocks areas blocks.old }
    ensures ok { (chunks : Chunks) (files : List File) → Shows (B.tells blocks.old) areas (B.stands blocks.old) chunks → IsFound chunks (holdings_of holders.old) files
        → OnOk result (IsFound chunks (holdings_of holders.new) files) }
    ensures marked { OnOk result (holdings_of holders.new handle ≡ Some OfDead) }
    ensures still { OnOk result ((at : ℕ) (held : Has) → holdings_of holders.old at ≡ Some held → holdings_of holders.new at ≡ Some held) }
    ensures torn { (chunks : Chunks) (files : List File) → Shows (B.tells blocks.old) areas (B.stands blocks.old) chunks → IsFound chunks (holdings_of holders.old) files
        → IfTorn result (λ at found wanted. IsNoDead chunks (holdings_of holders.old) handle wanted) }
    ensures shows { StillShows B.Blocks areas blocks.old blocks.new }
    ensures blocks { ReadsChunks B.Blocks blocks.old blocks.new result }
{
    if has_holder(holders, handle, Holder::Dead)? {
        return Ok(());
    }
    match outline_of(alloc, blocks, areas, handle)? {
        Outline::Dead(claims) => put_inode(holders, handle, Holder::Dead, claims.as_slice()),
        Outline::File(outline) => {
            check_file(blocks, areas, &outline)?;
            Err(torn_at(handle))
        }
    }
}
