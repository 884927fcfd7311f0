//! What has the chunks of a volume.

ghost use Rattle.std.specs.Prelude.{◌≡◌, ◌↔◌, Contains, length, if◌then◌else◌, IfOk, IsErrOf, IsFalse, IsTrue, None, OnOk, Some};
ghost use Rattle.bx_audit_slots.specs.declared.slots.UsedSlot.{UsedSlot as Used};
ghost use Rattle.bx_audit_owners.specs.declared.holders.Holder.TheVariants.{Dead as OfDead};
ghost use Rattle.bx_audit_owners.specs.Holding.{AddsHolder, Clashes, HasOther, IsHeld, IsTornSlot, Puts, holder_by, holdings_of};
ghost use Rattle.bx_audit_pages.specs.declared.error.AuditError.TheVariants.{Fault as DiskFailed, Torn};
ghost use Rattle.bx_audit_pages.specs.Errors.{IfTorn};
ghost use Rattle.bx_truth.specs.Chunks.{block_at};

use bx_audit_bodies::Claim;
use bx_audit_pages::{AuditError, torn_at};
use bx_audit_slots::UsedSlot;
use bx_places::ChunkHandle;
use std::collections::BTreeMap;

/// What has a chunk.
#[derive(Clone, Copy, PartialEq, Eq)]
pub(crate) enum Holder {
    /// It is the inode of a file.
    File,
    /// It is a dead inode.
    Dead,
    /// It is a page of the tree of the inode with this handle.
    Page(u64),
    /// It is the block of a piece of the inode with this handle, by the piece's index.
    Piece(u64, u32),
}

/// What has each chunk that was found, by its handle.
pub(crate) type Holders = BTreeMap<u64, Holder>;

/// Says of an inode that was read what it is, and of the chunks that it claims what has them. Torn where a chunk has another holder.
pub(crate) fn put_inode(
    holders: &mut Holders,
    inode: u64,
    holder: Holder,
    claims: &[Claim],
) -> Result<(), AuditError>
    requires { holdings_of holders.old inode ≡ None }
    ensures ok { OnOk result (AddsHolder (holdings_of holders.old) inode holder claims.now (length claims.now) (holdings_of holders.new)) }
    ensures torn { IfTorn result (λ at found wanted. (clash : Clashes (holdings_of holders.old) inode holder claims.now) × (wanted ≡ clash.claim.handle)) }
    ensures no_fault { IsErrOf result DiskFailed → ⊥ }
{
    put(holders, inode, holder)?;
    for claim in claims {
        put(holders, claim.handle, claimer(inode, claim.piece))?;
    }
    Ok(())
}

/// Whether a chunk has this holder, or none yet. Torn where it has another one.
pub(crate) fn has_holder(holders: &Holders, handle: u64, holder: Holder) -> Result<bool, AuditError>
    ensures yes { IfOk result (λ has. IsTrue has → holdings_of holders.now handle ≡ Some holder) }
    ensures no { IfOk result (λ has. IsFalse has → holdings_of holders.now handle ≡ None) }
    ensures torn { IfTorn result (λ at found wanted. HasOther (holdings_of holders.now) handle holder × (wanted ≡ handle)) }
    ensures no_fault { IsErrOf result DiskFailed → ⊥ }
{
    match holders.get(&handle) {
        None => Ok(false),
        Some(other) if *other == holder => Ok(true),
        Some(_) => Err(torn_at(handle)),
    }
}

/// What has a chunk that an inode claims as a page, or as the block of a piece.
fn claimer(inode: u64, piece: Option<u32>) -> Holder
    ensures { result ≡ holder_by inode piece }
{
    match piece {
        None => Holder::Page(inode),
        Some(index) => Holder::Piece(inode, index),
    }
}

/// Says what has a chunk. Torn exactly where it has another holder.
fn put(holders: &mut Holders, handle: u64, holder: Holder) -> Result<(), AuditError>
    ensures ok { OnOk result (Puts (holdings_of holders.old) handle holder (holdings_of holders.new)) }
    ensures torn { IfTorn result (λ at found wanted. HasOther (holdings_of holders.old) handle holder × (wanted ≡ handle)) }
    ensures no_fault { IsErrOf result DiskFailed → ⊥ }
{
    if let Some(other) = holders.get(&handle) {
        if *other != holder {
            return Err(torn_at(handle));
        }
        return Ok(());
    }
    holders.insert(handle, holder)?;
    Ok(())
}

/// Whether each slot's chunk has a holder, and is marked exactly where that is a dead inode. Torn exactly where not: `found` by its
/// handle, which is wanted where its slot is marked; else nothing names it.
pub(crate) fn check_slots(slots: &[UsedSlot], holders: &Holders) -> Result<(), AuditError>
    ensures ok { OnOk result ((slot : Used) → Contains slots.now slot → IsHeld (holdings_of holders.now) slot) }
    ensures torn { IfTorn result (λ at found wanted. (slot : Used) × Contains slots.now slot × IsTornSlot slot at found wanted × (IsHeld (holdings_of holders.now) slot → ⊥)) }
    ensures no_fault { IsErrOf result DiskFailed → ⊥ }
{
    for slot in slots {
        check_slot(slot, holders)?;
    }
    Ok(())
}

/// The same of one slot.
fn check_slot(slot: &UsedSlot, holders: &Holders) -> Result<(), AuditError>
    ensures ok { OnOk result (IsHeld (holdings_of holders.now) slot.now) }
    ensures torn { IfTorn result (λ at found wanted. IsTornSlot slot.now at found wanted × (IsHeld (holdings_of holders.now) slot.now → ⊥)) }
    ensures no_fault { IsErrOf result DiskFailed → ⊥ }
{
    match holders.get(&slot.handle) {
        Some(holder) if slot.dead == is_dead(*holder) => Ok(()),
        _ => Err(torn_slot(slot)),
    }
}

/// That the chunk of a slot is torn.
fn torn_slot(slot: &UsedSlot) -> AuditError
    ensures { result ≡ Torn (block_at slot.now.handle) slot.now.handle (if slot.now.dead then slot.now.handle else 0) }
{
    let at = ChunkHandle::of(slot.handle).block();
    AuditError::Torn(at, slot.handle, if slot.dead { slot.handle } else { 0 })
}

/// Whether it is a dead inode.
fn is_dead(holder: Holder) -> bool
    ensures { IsTrue result ↔ (holder ≡ OfDead) }
{
    holder == Holder::Dead
}
