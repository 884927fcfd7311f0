//! Runs that are written on both members, and made sure.

ghost use Rattle.std.specs.Prelude.{◌≡◌, ◌≤◌, ℕ, List, [], ◌∷◌, Contains, length, OnOk};
ghost use Rattle.bx_disk.specs.Kept.{Fails};
ghost use Rattle.bx_facts.specs.Writes.{IsDone, IsOnly, IsSettled, WritesIn};
ghost use Rattle.bx_global.specs.declared.state.GlobalState.{GlobalState};
ghost use Rattle.bx_plain_repair.specs.Through.{one_write};
ghost use Rattle.bx_members.specs.Members.{KeepsMembers};
ghost use Rattle.bx_plain_store.specs.Out.{IsFitting, KeepsReplicas};
ghost use Rattle.bx_records.specs.declared.runs.Run.{Run};

use bx_base::List;
use bx_disk::{Rack, RackError};
use bx_plain_store::{Write, serve};
use bx_records::Run;

/// Writes runs on both members of the one device, where they don't read so, and makes these sure. What is settled stays, where the
/// runs bring nothing else, also after an error; and then what they bring is settled.
pub(crate) fn write_through<R: Rack>(rack: &mut R, runs: List<Run>) -> Result<(), RackError>
    requires fit { (run : Run) → Contains runs run → IsFitting 1 (R.state rack.old).sizes run }
    requires once { (device sector : ℕ) (content other : List ℕ) → WritesIn runs device sector content → WritesIn runs device sector other → other ≡ content }
    requires disks { 5 ≤ length (R.state rack.old).sizes }
    ensures keeps { (s : GlobalState) (device sector : ℕ) (content : List ℕ) → R.tells rack.old → IsOnly (one_write runs ∷ []) 0 device sector content → IsSettled (R.state rack.old) s device sector content → IsSettled (R.state rack.new) s device sector content }
    ensures members { R.tells rack.old → KeepsMembers (one_write runs ∷ []) 0 (R.state rack.old) (R.state rack.new) }
    ensures done { (s : GlobalState) → R.tells rack.old → length s.devices ≡ 1 → OnOk result (IsDone (λ device sector content index. IsSettled (R.state rack.new) s device sector content) 0 (one_write runs)) }
    ensures replicas { R.tells rack.old → KeepsReplicas (R.state rack.old) (R.state rack.new) }
    ensures rack { Fails R.Rack rack.old rack.new result }
{
    let mut slot = Some(Write {
        session: 0,
        until: 0,
        runs,
        is_written: true,
    });
    serve(rack, 1, 0, &mut slot)?;
    Ok(())
}
