//! The numbers that are told of a chunk that is torn.

ghost use Rattle.std.specs.Prelude.{◌≤◌};
ghost use Rattle.bx_audit_slots.specs.Numbers.{IsBlockOf, IsToldOf};
ghost use Rattle.bx_audit_slots.specs.UsedSlots.{AreUsed, IsHandleOf};
ghost use Rattle.bx_truth.specs.Chunks.{IsChunked};
ghost use Rattle.bx_views.specs.Truths.{Truth};

use crate::slots::UsedSlot;
use bx_places::{ChunkHandle, SLOTS};

/// The number of the block where a reader of a handle looks, and the handle in its header, which is that of the block's slot where slots
/// are right. A handle of no slot of the volume is told as found in block 0.
pub fn told_of(slots: &[UsedSlot], areas: u16, handle: u64) -> (u64, u64)
    requires { areas ≤ 64 }
    ensures { (truth : Truth) → IsChunked areas truth → AreUsed areas truth slots.now → IsToldOf areas (IsBlockOf truth) handle result.0 result.1 }
{
    let name = ChunkHandle::of(handle);
    if name.area >= areas || name.slot >= SLOTS {
        return (0, handle);
    }
    let at = name.block();
    (at, handle_in(slots, at))
}

/// The handle of the slot of a block, 0 where it isn't in use.
fn handle_in(slots: &[UsedSlot], block: u64) -> u64
    ensures { IsHandleOf slots.now block result }
{
    for slot in slots {
        if ChunkHandle::of(slot.handle).block() == block {
            return slot.handle;
        }
    }
    0
}
