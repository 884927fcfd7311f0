//! The slots of a volume that are in use.

ghost use Rattle.std.specs.Prelude.{◌+◌, ◌*◌, ◌<◌, ◌≤◌, ℕ, IfOk, OnOk, IsErrOf};
ghost use Rattle.bx_audit_slots.specs.Told.{IsTold};
ghost use Rattle.bx_audit_slots.specs.UsedSlots.{AreUsed, AreUsedBelow, IsFreeMarked};
ghost use Rattle.bx_audit_pages.specs.declared.error.AuditError.TheVariants.{Fault as DiskFailed};
ghost use Rattle.bx_audit_pages.specs.Errors.{IfTorn};
ghost use Rattle.bx_layout.specs.Areas.{IsArea, SpellsArea};
ghost use Rattle.bx_truth.specs.Chunks.{own_block};
ghost use Rattle.bx_views.specs.Truths.{Truth};
ghost use Rattle.bx_audit_pages.specs.Reading.{ReadsChunks};
ghost use Rattle.bx_homes.specs.Reading.{CanRead};

use crate::own_blocks::{OwnBlock, own_block};
use bx_audit_pages::AuditError;
use bx_homes::Blocks;
use bx_layout::AreaBlock;
use bx_places::{ChunkHandle, SLOTS};
use std::alloc::Global;

/// A slot that is in use.
#[derive(Clone, Copy)]
pub struct UsedSlot {
    /// The handle of the chunk in it.
    pub handle: u64,
    /// Whether it is marked as that of a dead inode.
    pub dead: bool,
}

/// The slots of a volume that are in use, in the order of their blocks. Torn exactly where one that isn't in use is marked.
pub fn used_slots<B: Blocks>(
    alloc: Global,
    blocks: &mut B,
    areas: u16,
) -> Result<Vec<UsedSlot>, AuditError>
    requires blocks { CanRead B.Blocks areas blocks.old }
    ensures ok { (truth : Truth) → IsTold (B.tells blocks.old) areas (B.stands blocks.old) truth → IfOk result (λ slots. AreUsed areas truth slots.items) }
    ensures torn { (truth : Truth) → IsTold (B.tells blocks.old) areas (B.stands blocks.old) truth → IfTorn result (IsFreeMarked areas truth) }
    ensures told { (truth : Truth) → IsTold (B.tells blocks.old) areas (B.stands blocks.old) truth → IsTold (B.tells blocks.new) areas (B.stands blocks.new) truth }
    ensures blocks { ReadsChunks B.Blocks blocks.old blocks.new result }
{
    let mut used = Vec::new(alloc);
    for area in 0..areas {
        let slots = slots_of(alloc, blocks, area)?;
        put_area(&mut used, area, &slots)?;
    }
    Ok(used)
}

/// The slots of an area.
fn slots_of<B: Blocks>(alloc: Global, blocks: &mut B, area: u16) -> Result<AreaBlock, AuditError>
    requires ready { B.ready blocks.old }
    requires area { area < B.areas blocks.old }
    requires most { B.areas blocks.old ≤ 64 }
    ensures spells { (truth : Truth) → IsTold (B.tells blocks.old) (B.areas blocks.old) (B.stands blocks.old) truth → IfOk result (λ slots. SpellsArea slots (truth (own_block area)).payload) }
    ensures is { IfOk result IsArea }
    ensures never { (truth : Truth) → IsTold (B.tells blocks.old) (B.areas blocks.old) (B.stands blocks.old) truth → IfTorn result (λ at found wanted. ⊥) }
    ensures told { (truth : Truth) → IsTold (B.tells blocks.old) (B.areas blocks.old) (B.stands blocks.old) truth → IsTold (B.tells blocks.new) (B.areas blocks.old) (B.stands blocks.new) truth }
    ensures blocks { ReadsChunks B.Blocks blocks.old blocks.new result }
{
    match own_block(alloc, blocks, area)? {
        OwnBlock::Slots(slots) => Ok(slots),
        OwnBlock::Wrong(found) => Err(AuditError::Torn(ChunkHandle::own(area).block(), found, 0)),
    }
}

/// Puts the slots of an area that are in use behind others.
fn put_area(used: &mut Vec<UsedSlot>, area: u16, slots: &AreaBlock) -> Result<(), AuditError>
    requires { IsArea slots.now }
    ensures ok { (areas : ℕ) (truth : Truth) → area < areas → SpellsArea slots.now (truth (own_block area)).payload → AreUsedBelow areas truth (1024 * area) used.old.items
        → OnOk result (AreUsedBelow areas truth (1024 * (area + 1)) used.new.items) }
    ensures torn { (areas : ℕ) (truth : Truth) → area < areas → SpellsArea slots.now (truth (own_block area)).payload → IfTorn result (IsFreeMarked areas truth) }
    ensures no_fault { IsErrOf result DiskFailed → ⊥ }
{
    for slot in 0..SLOTS {
        put_slot(used, area, slots, slot)?;
    }
    Ok(())
}

/// Puts a slot behind others, if it is in use.
fn put_slot(
    used: &mut Vec<UsedSlot>,
    area: u16,
    slots: &AreaBlock,
    slot: u16,
) -> Result<(), AuditError>
    requires area { IsArea slots.now }
    requires slot { slot < 960 }
    ensures ok { (areas : ℕ) (truth : Truth) → area < areas → SpellsArea slots.now (truth (own_block area)).payload → AreUsedBelow areas truth (1024 * area + slot) used.old.items
        → OnOk result (AreUsedBelow areas truth (1024 * area + (slot + 1)) used.new.items) }
    ensures torn { (areas : ℕ) (truth : Truth) → area < areas → SpellsArea slots.now (truth (own_block area)).payload → IfTorn result (IsFreeMarked areas truth) }
    ensures no_fault { IsErrOf result DiskFailed → ⊥ }
{
    let dead = slots.is_dead(slot);
    let name = ChunkHandle {
        area,
        slot,
        generation: slots.generation(slot),
    };
    if slots.is_used(slot) {
        used.push(UsedSlot {
            handle: name.number(),
            dead,
        })?;
    } else if dead {
        return Err(AuditError::Torn(name.block(), 0, name.number()));
    }
    Ok(())
}
