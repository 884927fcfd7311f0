//! The gates of the log.

ghost use Rattle.std.specs.Prelude.{◌≡◌, ◌≤◌, [], ◌∷◌, ℕ, false, List, Option, length, slice_index, IfOk, OnOk};
ghost use Rattle.bx_disk.specs.Disks.{Image};
ghost use Rattle.bx_disk.specs.Kept.{Fails};
ghost use Rattle.bx_facts.specs.Writes.{IsSettled, IsSourceIn};
ghost use Rattle.bx_global.specs.declared.state.GlobalState.{GlobalState};
ghost use Rattle.bx_plain_repair.specs.Left.{OpenDoubt, IsLeft};
ghost use Rattle.bx_plain_repair.specs.Resting.{RestsOrActed};
ghost use Rattle.bx_plain_repair.specs.Spared.{SparesOthers};
ghost use Rattle.bx_model.specs.declared.tree.Tree.{Tree};
ghost use Rattle.bx_redo.specs.Found.{Settles};
ghost use Rattle.bx_redo.specs.Stands.{LogStands};
ghost use Rattle.bx_plain_store.specs.Out.{KeepsReplicas};
ghost use Rattle.bx_redo.specs.View.{LogView};
ghost use Rattle.bx_views.specs.Truths.{Truth};
ghost use Rattle.bx_volume.specs.Overlay.{Logs};
ghost use Rattle.bx_volume.specs.Records.{Logged};

use crate::through::write_through;
use bx_base::{List, OutOfMemory, Raw};
use bx_calls::read_sectors;
use bx_disk::{Rack, RackError};
use bx_records::Run;
use bx_redo::{a_store_writes_gates_back, gates_are_read, gates_are_settled};
use std::alloc::Global;

/// The disk that is the first member of device 0, behind the replicas' three.
const FIRST_MEMBER: u32 = 3;

/// The sector of a member at which the gates of slot 0 stand.
const GATES_AT: u64 = 1;

/// Reads the eight gates of the log in slot 0 off the first member, and writes them back as they read, on both members, and surely: so a gate that was
/// being opened or closed is one of both, and stays it. What a stopped node left stays left, also after an error. The rack has the replicas' three disks and the two members, each with the gates and
/// bodies of all logs.
pub(crate) fn settle_gates<R: Rack>(alloc: Global, rack: &mut R) -> Result<(), RackError>
    requires disks { 5 ≤ length (R.state rack.old).sizes }
    requires first { 9345 ≤ slice_index (R.state rack.old).sizes 3 }
    requires second { 9345 ≤ slice_index (R.state rack.old).sizes 4 }
    ensures settles { (state : GlobalState) (areas : ℕ) (before : Image) (logs : Logs) (truth : Truth) (more : Logged) (log : LogView) → R.tells rack.old → length state.devices ≡ 1 → IsSourceIn state 0 false → log.slot ≡ 0 → log.device ≡ 0
        → LogStands (IsSettled (R.state rack.old) state) 1 areas state.sessions before logs truth more log
        → OnOk result ((now : Image) × Settles (IsSettled (R.state rack.new) state) 1 areas state.sessions now logs truth more 0 log.work) }
    ensures left { (volume floor : ℕ) (tree : Tree) (doubt : Option OpenDoubt) → R.tells rack.old → IsLeft volume floor tree doubt (R.state rack.old) → IsLeft volume floor tree doubt (R.state rack.new) }
    ensures comes { (volume floor : ℕ) (tree : Tree) (doubt : Option OpenDoubt) → R.tells rack.old → IsLeft volume floor tree doubt (R.state rack.old)
        → OnOk result ((records : List Logged) × RestsOrActed volume floor tree doubt records (R.state rack.new)) }
    ensures replicas { R.tells rack.old → KeepsReplicas (R.state rack.old) (R.state rack.new) }
    ensures spares { R.tells rack.old → SparesOthers (R.state rack.old) (R.state rack.new) }
    ensures rack { Fails R.Rack rack.old rack.new result }
{
    let mut gates = [0; 4096];
    read_sectors(rack, FIRST_MEMBER, GATES_AT, &mut gates)?;
    let runs = gates_written(alloc, &gates)?;
    write_through(rack, runs)?;
    gates_are_read();
    a_store_writes_gates_back();
    gates_are_settled();
    Ok(())
}

/// The run that writes the gates.
fn gates_written(alloc: Global, gates: &[u8]) -> Result<List<Run>, OutOfMemory>
    ensures { IfOk result (λ runs. runs ≡ record { device = 0; place = 1; bytes = gates.now } ∷ []) }
{
    let mut runs = List::new(alloc);
    runs.push(Run {
        device: 0,
        place: GATES_AT,
        bytes: Raw::of(alloc, gates)?,
    })?;
    Ok(runs)
}
