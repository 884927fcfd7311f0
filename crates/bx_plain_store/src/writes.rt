//! Writes that are out.

ghost use Rattle.bx_disk.specs.Kept.{Fails};
ghost use Rattle.std.specs.Prelude.{◌≡◌, ℕ, ◌+◌, ◌*◌, ◌<◌, ◌≤◌, ◌⊎◌, false, true, List, Contains, length, Option, Some, None, OnOk, OnErr};
ghost use Rattle.bx_calls.specs.Calls.{LeavesOnly};
ghost use Rattle.bx_facts.specs.Writes.{IsDone, IsOver, IsSettled, Sent};
ghost use Rattle.bx_global.specs.declared.state.GlobalState.{GlobalState};
ghost use Rattle.bx_records.specs.declared.runs.Run.{Run};
ghost use Rattle.bx_members.specs.Members.{KeepsMembers, HasMembers};
ghost use Rattle.bx_plain_store.specs.Out.{AreApart, AreWritten, IsFitting, IsFree, KeepsReplicas, at, out_at, out_in, outs, sent_of};
ghost use Rattle.bx_plain_store.specs.declared.writes.Write.{Write};

use crate::runs::{put_runs, sync_members};
use bx_base::List;
use bx_disk::{Rack, RackError};
use bx_records::Run;

/// A node's write that is out.
#[derive(Drop)]
pub struct Write {
    /// The session that it is of.
    pub session: u64,
    /// Until when members take it, in milliseconds.
    pub until: u64,
    /// What it writes.
    pub runs: List<Run>,
    /// Whether both members were written once.
    pub is_written: bool,
}

/// Whether no member takes a write any more.
fn is_over(greatest: u64, until: u64) -> bool
    ensures not_over { result ≡ false → until + 500 < greatest → ⊥ }
    ensures over { result ≡ true → until + 500 < greatest }
{
    greatest > 500 && until < greatest - 500
}

/// Brings a node's write one sync further: at the first both members of each device are written; at the second they are written
/// again, where they don't read so, and made sure, and then it is out no more. A write that is over is left alone.
pub fn serve<R: Rack>(
    rack: &mut R,
    devices: u32,
    greatest: u64,
    slot: &mut Option<Write>,
) -> Result<(), RackError>
    requires fit { (write : Write) (run : Run) → slot.old ≡ Some write → Contains write.runs run → IsFitting devices (R.state rack.old).sizes run }
    requires disks { 3 + 2 * devices ≤ length (R.state rack.old).sizes }
    ensures keeps { (writes : List Sent) → R.tells rack.old → IsFree writes greatest slot.old → KeepsMembers writes greatest (R.state rack.old) (R.state rack.new) }
    ensures any_moment { (writes : List Sent) → R.tells rack.old → IsFree writes greatest slot.old → LeavesOnly (R.moment rack.old) (R.moment rack.new) (R.left_since rack.old) (R.left_since rack.new) (HasMembers writes greatest (R.state rack.old)) }
    ensures not_over { (sent : Sent) → out_in slot.old ≡ Some sent → out_in slot.new ≡ None → IsOver greatest sent → ⊥ }
    ensures done { (writes : List Sent) (sent : Sent) (s : GlobalState) → R.tells rack.old → IsFree writes greatest slot.old → out_in slot.old ≡ Some sent → out_in slot.new ≡ None → length s.devices ≡ devices → OnOk result (IsDone (λ device sector content index. IsSettled (R.state rack.new) s device sector content) 0 sent) }
    ensures first { (write : Write) → slot.old ≡ Some write → (IsOver greatest (sent_of write) → ⊥) → write.is_written ≡ false → OnOk result (slot.new ≡ Some (record write { is_written = true })) }
    ensures second { (write : Write) → slot.old ≡ Some write → (IsOver greatest (sent_of write) → ⊥) → write.is_written ≡ true → OnOk result (slot.new ≡ None) }
    ensures over { (write : Write) → slot.old ≡ Some write → IsOver greatest (sent_of write) → slot.new ≡ Some write }
    ensures written { (writes : List Sent) (write : Write) → R.tells rack.old → IsFree writes greatest slot.old → slot.old ≡ Some write → (IsOver greatest (sent_of write) → ⊥) → OnOk result (AreWritten (R.state rack.new) write.runs (length write.runs)) }
    ensures out { (out_in slot.new ≡ None) ⊎ (out_in slot.new ≡ out_in slot.old) }
    ensures stays_out { OnErr result (out_in slot.new ≡ out_in slot.old) }
    ensures replicas { R.tells rack.old → KeepsReplicas (R.state rack.old) (R.state rack.new) }
    ensures rack { Fails R.Rack rack.old rack.new result }
{
    let Some(write) = slot else {
        return Ok(());
    };
    if is_over(greatest, write.until) {
        return Ok(());
    }
    put_runs(rack, devices, &write.runs)?;
    if !write.is_written {
        write.is_written = true;
        return Ok(());
    }
    sync_members(rack, devices)?;
    *slot = None;
    Ok(())
}

/// Brings each node's write one sync further.
pub(crate) fn serve_all<R: Rack>(
    rack: &mut R,
    devices: u32,
    greatest: u64,
    slots: &mut Vec<Option<Write>>,
) -> Result<(), RackError>
    requires fit { (node : ℕ) (write : Write) (run : Run) → at slots.old.items node ≡ Some write → Contains write.runs run → IsFitting devices (R.state rack.old).sizes run }
    requires disks { 3 + 2 * devices ≤ length (R.state rack.old).sizes }
    ensures keeps { R.tells rack.old → AreApart greatest slots.old.items → KeepsMembers (outs slots.old.items) greatest (R.state rack.old) (R.state rack.new) }
    ensures any_moment { R.tells rack.old → AreApart greatest slots.old.items → LeavesOnly (R.moment rack.old) (R.moment rack.new) (R.left_since rack.old) (R.left_since rack.new) (HasMembers (outs slots.old.items) greatest (R.state rack.old)) }
    ensures done { (node : ℕ) (sent : Sent) (s : GlobalState) → R.tells rack.old → AreApart greatest slots.old.items → out_at slots.old.items node ≡ Some sent → out_at slots.new.items node ≡ None → length s.devices ≡ devices → IsDone (λ device sector content index. IsSettled (R.state rack.new) s device sector content) 0 sent }
    ensures first { (node : ℕ) (write : Write) → at slots.old.items node ≡ Some write → (IsOver greatest (sent_of write) → ⊥) → write.is_written ≡ false → OnOk result (at slots.new.items node ≡ Some (record write { is_written = true })) }
    ensures second { (node : ℕ) (write : Write) → at slots.old.items node ≡ Some write → (IsOver greatest (sent_of write) → ⊥) → write.is_written ≡ true → OnOk result (at slots.new.items node ≡ None) }
    ensures over { (node : ℕ) (write : Write) → at slots.old.items node ≡ Some write → IsOver greatest (sent_of write) → OnOk result (at slots.new.items node ≡ Some write) }
    ensures written { (node : ℕ) (write : Write) → R.tells rack.old → AreApart greatest slots.old.items → at slots.old.items node ≡ Some write → (IsOver greatest (sent_of write) → ⊥) → OnOk result (AreWritten (R.state rack.new) write.runs (length write.runs)) }
    ensures out { (node : ℕ) → (out_at slots.new.items node ≡ None) ⊎ (out_at slots.new.items node ≡ out_at slots.old.items node) }
    ensures long { length slots.new.items ≡ length slots.old.items }
    ensures replicas { R.tells rack.old → KeepsReplicas (R.state rack.old) (R.state rack.new) }
    ensures rack { Fails R.Rack rack.old rack.new result }
{
    for i in 0..slots.len() {
        serve(rack, devices, greatest, &mut slots[i])?;
    }
    Ok(())
}
