//! Runs on both members, and syncs of all members.

ghost use Rattle.bx_disk.specs.Kept.{Faults, Fails};
ghost use Rattle.std.specs.Prelude.{◌≡◌, ℕ, ◌+◌, ◌*◌, ◌<◌, ◌≤◌, Bool, false, List, Contains, length, OnOk};
ghost use Rattle.bx_calls.specs.Calls.{LeavesOnly};
ghost use Rattle.bx_facts.specs.Disks.{SameDisks};
ghost use Rattle.bx_facts.specs.Writes.{Sent, member_disk};
ghost use Rattle.bx_records.specs.declared.runs.Run.{Run};
ghost use Rattle.bx_members.specs.Members.{KeepsMembers, HasMembers};
ghost use Rattle.bx_plain_store.specs.Out.{AreWritten, IsAlone, IsFitting, KeepsReplicas};

use bx_base::List;
use bx_disk::{DiskFault, Rack, RackError};
use bx_members::{put_both, sync_both};
use bx_records::Run;

/// Writes runs on both members of their devices, but for sectors that read as their bytes already.
pub(crate) fn put_runs<R: Rack>(
    rack: &mut R,
    devices: u32,
    runs: &List<Run>,
) -> Result<(), RackError>
    requires fit { (run : Run) → Contains runs.now run → IsFitting devices (R.state rack.old).sizes run }
    ensures written { (writes : List Sent) (greatest : ℕ) (write : Sent) → R.tells rack.old → IsAlone writes greatest write → write.runs ≡ runs.now → OnOk result (AreWritten (R.state rack.new) runs.now (length runs.now)) }
    ensures keeps { (writes : List Sent) (greatest : ℕ) (write : Sent) → R.tells rack.old → IsAlone writes greatest write → write.runs ≡ runs.now → KeepsMembers writes greatest (R.state rack.old) (R.state rack.new) }
    ensures any_moment { (writes : List Sent) (greatest : ℕ) (write : Sent) → R.tells rack.old → IsAlone writes greatest write → write.runs ≡ runs.now → LeavesOnly (R.moment rack.old) (R.moment rack.new) (R.left_since rack.old) (R.left_since rack.new) (HasMembers writes greatest (R.state rack.old)) }
    ensures replicas { R.tells rack.old → KeepsReplicas (R.state rack.old) (R.state rack.new) }
    ensures rack { Fails R.Rack rack.old rack.new result }
{
    for i in 0..runs.len() {
        let Some(run) = runs.get(i) else {
            return Ok(());
        };
        put_both(rack, run)?;
    }
    Ok(())
}

/// Makes both members of each of so many devices sure.
pub(crate) fn sync_members<R: Rack>(rack: &mut R, devices: u32) -> Result<(), DiskFault>
    requires disks { 3 + 2 * devices ≤ length (R.state rack.old).sizes }
    ensures sure { (device sector : ℕ) (second : Bool) → R.tells rack.old → device < devices → OnOk result ((R.state rack.new).unsure (member_disk device second) sector ≡ false) }
    ensures keeps { R.tells rack.old → SameDisks (R.state rack.old) (R.state rack.new) }
    ensures any_moment { (writes : List Sent) (greatest : ℕ) → R.tells rack.old → LeavesOnly (R.moment rack.old) (R.moment rack.new) (R.left_since rack.old) (R.left_since rack.new) (HasMembers writes greatest (R.state rack.old)) }
    ensures rack { Faults R.Rack rack.old rack.new result }
{
    for device in 0..devices {
        sync_both(rack, device)?;
    }
    Ok(())
}
