//! Syncs of members.

ghost use Rattle.bx_disk.specs.Counts.{NoneRose};
ghost use Rattle.bx_disk.specs.Kept.{Counted};
ghost use Rattle.std.specs.Prelude.{◌≡◌, ℕ, ◌+◌, ◌*◌, ◌<◌, ◌≤◌, ◌⊎◌, Contains, length, Some, None, OnOk, IsErrOf, IsSome, false, true};
ghost use Rattle.bx_calls.specs.Calls.{LeavesOnly};
ghost use Rattle.bx_global.specs.declared.state.GlobalState.{GlobalState};
ghost use Rattle.bx_records.specs.declared.runs.Run.{Run};
ghost use Rattle.bx_members.specs.Members.{HasMembers, KeepsMembers};
ghost use Rattle.bx_facts.specs.declared.input.FactError.TheVariants.{Disk as DiskFails, OutOfMemory as MemoryFails};
ghost use Rattle.bx_facts.specs.Writes.{Asked, IsDone, IsOver, IsSettled, Sent};
ghost use Rattle.bx_plain_store.specs.declared.writes.Write.{Write};
ghost use Rattle.bx_plain_store.specs.Out.{AreApart, IsFitting, KeepsReplicas, at, out_at, outs, sent_of};
ghost use Rattle.bx_plain_store.specs.declared.inquiries.Inquiry.{Inquiry};
ghost use Rattle.bx_plain_store.specs.Parts.{IsAnswered, IsReadable, answer_at, asked_at};

use crate::inquiries::{Inquiry, answer_all};
use crate::writes::{Write, serve_all};
use bx_disk::Rack;
use bx_facts::FactError;
use bx_global::GlobalState;
use std::alloc::Global;

/// A sync: each read that is out is answered, and each write that is out is brought one sync further.
pub(crate) fn sync_all<R: Rack>(
    alloc: Global,
    rack: &mut R,
    known: &GlobalState,
    devices: u32,
    greatest: u64,
    slots: &mut Vec<Option<Write>>,
    inquiries: &mut Vec<Option<Inquiry>>,
) -> Result<(), FactError>
    requires writes { (node : ℕ) (write : Write) (run : Run) → at slots.old.items node ≡ Some write → Contains write.runs run → IsFitting devices (R.state rack.old).sizes run }
    requires disks { 3 + 2 * devices ≤ length (R.state rack.old).sizes }
    requires reads { (node : ℕ) (inquiry : Inquiry) → at inquiries.old.items node ≡ Some inquiry → IsReadable (R.state rack.old).sizes inquiry.ask }
    ensures keeps { R.tells rack.old → AreApart greatest slots.old.items → KeepsMembers (outs slots.old.items) greatest (R.state rack.old) (R.state rack.new) }
    ensures any_moment { R.tells rack.old → AreApart greatest slots.old.items → LeavesOnly (R.moment rack.old) (R.moment rack.new) (R.left_since rack.old) (R.left_since rack.new) (HasMembers (outs slots.old.items) greatest (R.state rack.old)) }
    ensures done { (node : ℕ) (sent : Sent) (s : GlobalState) → R.tells rack.old → AreApart greatest slots.old.items → out_at slots.old.items node ≡ Some sent → out_at slots.new.items node ≡ None → length s.devices ≡ devices → IsDone (λ device sector content index. IsSettled (R.state rack.new) s device sector content) 0 sent }
    ensures out { (node : ℕ) → (out_at slots.new.items node ≡ None) ⊎ (out_at slots.new.items node ≡ out_at slots.old.items node) }
    ensures first { (node : ℕ) (write : Write) → at slots.old.items node ≡ Some write → (IsOver greatest (sent_of write) → ⊥) → write.is_written ≡ false → OnOk result (at slots.new.items node ≡ Some (record write { is_written = true })) }
    ensures second { (node : ℕ) (write : Write) → at slots.old.items node ≡ Some write → (IsOver greatest (sent_of write) → ⊥) → write.is_written ≡ true → OnOk result (at slots.new.items node ≡ None) }
    ensures over { (node : ℕ) (write : Write) → at slots.old.items node ≡ Some write → IsOver greatest (sent_of write) → OnOk result (at slots.new.items node ≡ Some write) }
    ensures answered { (node : ℕ) → R.tells rack.old → IsAnswered (R.state rack.old) known.now (at inquiries.old.items node) (at inquiries.new.items node) }
    ensures asks { (node : ℕ) → asked_at inquiries.new.items node ≡ asked_at inquiries.old.items node }
    ensures there { (node : ℕ) (asks : Asked) → asked_at inquiries.old.items node ≡ Some asks → asks.device < length known.now.devices → OnOk result (IsSome (answer_at inquiries.new.items node)) }
    ensures long { (length slots.new.items ≡ length slots.old.items) × (length inquiries.new.items ≡ length inquiries.old.items) }
    ensures replicas { R.tells rack.old → KeepsReplicas (R.state rack.old) (R.state rack.new) }
    ensures memory { IsErrOf result MemoryFails → NoneRose (R.faults rack.old) (R.faults rack.new) (R.faults_of rack.old) (R.faults_of rack.new) }
    ensures rack { Counted R.Rack rack.old rack.new result DiskFails }
{
    answer_all(alloc, rack, known, inquiries)?;
    serve_all(rack, devices, greatest, slots)?;
    Ok(())
}
