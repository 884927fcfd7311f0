//! The words of the slots of chunks that the walk from the root met.

ghost use Rattle.std.specs.Prelude.{◌≢◌, ◌<◌, ℕ, All, IsTrue, IsFalse, None, OnOk, IsErrOf};
ghost use Rattle.bx_audit_owners.specs.Holding.{holdings_of};
ghost use Rattle.bx_audit_owners.specs.Words.{AreWorded, IsFirstTornIn, IsFirstWrongAt, IsIn, IsInOwn, IsRightOwn, IsTornIn, IsTornOwn};
ghost use Rattle.bx_audit_slots.specs.OwnBlocks.{HasArea};
ghost use Rattle.bx_audit_pages.specs.Reading.{ReadsChunks};
ghost use Rattle.bx_places.specs.Handles.{parts_of};
ghost use Rattle.bx_audit_pages.specs.declared.error.AuditError.TheVariants.{Fault as DiskFailed};
ghost use Rattle.bx_audit_pages.specs.Errors.{IfTorn};
ghost use Rattle.bx_homes.specs.Reading.{CanRead};
ghost use Rattle.bx_layout.specs.Areas.{IsArea};

use crate::holders::Holders;
use crate::walks::Walked;
use bx_audit_pages::{AuditError, torn_at};
use bx_audit_slots::{OwnBlock, read_own_blocks};
use bx_homes::Blocks;
use bx_layout::AreaBlock;
use bx_places::{ChunkHandle, SLOTS};
use std::alloc::Global;

/// Whether the slot of each chunk that the walk from the root met is in use under the chunk's handle, and isn't marked as a dead inode's.
/// Torn exactly where one isn't: the first in the order of their handles is told of, or the own block of its area, where that is none.
pub fn check_words<B: Blocks>(
    alloc: Global,
    blocks: &mut B,
    areas: u16,
    walked: &Walked,
) -> Result<(), AuditError>
    requires blocks { CanRead B.Blocks areas blocks.old }
    ensures ok { B.tells blocks.old → OnOk result (AreWorded areas (B.stands blocks.old) (holdings_of walked.now.holders)) }
    ensures torn { B.tells blocks.old → IfTorn result (IsFirstWrongAt areas (B.stands blocks.old) (holdings_of walked.now.holders)) }
    ensures blocks { ReadsChunks B.Blocks blocks.old blocks.new result }
{
    let owns = read_own_blocks(alloc, blocks, areas)?;
    check_held(owns.as_slice(), &walked.holders)
}

/// The same by the own blocks of the areas.
fn check_held(owns: &[OwnBlock], holders: &Holders) -> Result<(), AuditError>
    requires { All HasArea owns.now }
    ensures ok { OnOk result ((handle : ℕ) → holdings_of holders.now handle ≢ None → IsInOwn owns.now handle) }
    ensures torn { IfTorn result (IsFirstTornIn owns.now (holdings_of holders.now)) }
    ensures no_fault { IsErrOf result DiskFailed → ⊥ }
{
    for handle in holders.keys() {
        check_one(owns, *handle)?;
    }
    Ok(())
}

/// The same of one chunk.
fn check_one(owns: &[OwnBlock], handle: u64) -> Result<(), AuditError>
    requires { All HasArea owns.now }
    ensures ok { OnOk result (IsInOwn owns.now handle) }
    ensures torn { IfTorn result (IsTornIn owns.now handle) }
    ensures no_fault { IsErrOf result DiskFailed → ⊥ }
{
    let name = ChunkHandle::of(handle);
    if name.slot >= SLOTS {
        return Err(AuditError::Torn(0, handle, handle));
    }
    match owns.get(usize::from(name.area)) {
        None => Err(AuditError::Torn(0, handle, handle)),
        Some(own) => check_own(own, handle),
    }
}

/// The same by the own block of its area.
fn check_own(own: &OwnBlock, handle: u64) -> Result<(), AuditError>
    requires area { HasArea own.now }
    requires slot { (parts_of handle).slot < 960 }
    ensures ok { OnOk result (IsRightOwn own.now handle) }
    ensures torn { IfTorn result (IsTornOwn own.now handle) }
    ensures no_fault { IsErrOf result DiskFailed → ⊥ }
{
    let name = ChunkHandle::of(handle);
    match own {
        OwnBlock::Wrong(found) => {
            let wanted = ChunkHandle::own(name.area);
            Err(AuditError::Torn(wanted.block(), *found, wanted.number()))
        }
        OwnBlock::Slots(slots) if is_in(slots, name) => Ok(()),
        OwnBlock::Slots(_) => Err(torn_at(handle)),
    }
}

/// Whether a slot is in use in this generation, and isn't marked.
fn is_in(slots: &AreaBlock, name: ChunkHandle) -> bool
    requires area { IsArea slots.now }
    requires slot { name.slot < 960 }
    ensures yes { IsTrue result → IsIn slots.now name }
    ensures no { IsFalse result → IsIn slots.now name → ⊥ }
{
    slots.is_used(name.slot)
        && slots.generation(name.slot) == name.generation
        && !slots.is_dead(name.slot)
}
