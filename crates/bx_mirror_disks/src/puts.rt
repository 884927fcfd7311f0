//! Runs that are put on the disk of one member.

ghost use Rattle.std.specs.Prelude.{◌≡◌, ℕ, ◌-◌, ◌≤◌, Bool, List, slice_index, OnOk};
ghost use Rattle.bx_calls.specs.Calls.{HasSure, KeepsSure, LeavesOnly};
ghost use Rattle.bx_disk.specs.Kept.{Fails};
ghost use Rattle.bx_facts.specs.Writes.{Sent, member_disk};
ghost use Rattle.bx_members.specs.Members.{HasMembers, KeepsMembers};
ghost use Rattle.bx_mirror_disks.specs.Puts.{AllLieIn, AreBrought, PutsRuns};

use bx_disk::{Rack, RackError};
use bx_members::put_run;
use bx_records::Runs;

/// Writes the runs of one device, behind the label and within so many sectors, on the disk of one of its members, but for sectors that read
/// as their bytes already. After an error some may be written.
pub fn put_runs<R: Rack>(rack: &mut R, disk: u32, room: u64, runs: &Runs) -> Result<(), RackError>
    requires room { room ≤ slice_index (R.state rack.old).sizes disk }
    requires lie { (device : ℕ) × AllLieIn device room runs.now.1 }
    ensures puts { (device : ℕ) (second : Bool) → R.tells rack.old → disk ≡ member_disk device second → AllLieIn device room runs.now.1 → OnOk result (PutsRuns disk device runs.now.1 (R.state rack.old) (R.state rack.new)) }
    ensures keeps { (writes : List Sent) (greatest device : ℕ) (second : Bool) → R.tells rack.old → disk ≡ member_disk device second → AllLieIn device room runs.now.1 → AreBrought writes greatest device runs.now.1 → KeepsMembers writes greatest (R.state rack.old) (R.state rack.new) }
    ensures any_moment { (writes : List Sent) (greatest device : ℕ) (second : Bool) → R.tells rack.old → disk ≡ member_disk device second → AllLieIn device room runs.now.1 → AreBrought writes greatest device runs.now.1 → LeavesOnly (R.moment rack.old) (R.moment rack.new) (R.left_since rack.old) (R.left_since rack.new) (HasMembers writes greatest (R.state rack.old)) }
    ensures elsewhere { R.tells rack.old → KeepsSure (R.state rack.old) (R.state rack.new) disk 1 (room - 1) }
    ensures sure_moment { R.tells rack.old → LeavesOnly (R.moment rack.old) (R.moment rack.new) (R.left_since rack.old) (R.left_since rack.new) (HasSure (R.state rack.old) disk 1 (room - 1)) }
    ensures rack { Fails R.Rack rack.old rack.new result }
{
    for i in 0..runs.len() {
        let Some(run) = runs.get(i) else {
            return Ok(());
        };
        put_run(rack, disk, run)?;
    }
    Ok(())
}
