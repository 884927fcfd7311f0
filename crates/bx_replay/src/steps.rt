//! One line of a schedule.

ghost use Rattle.std.specs.Prelude.{◌≡◌, ◌+◌, ◌<◌, ◌≤◌, List, ℕ, false, length, IfErr, OnOk, ◌∷◌};
ghost use Rattle.bx_base.specs.Faults.{Rose};
ghost use Rattle.bx_driver.specs.Racks.{KeepsRack};
ghost use Rattle.bx_history.specs.Parts.{Part};
ghost use Rattle.bx_model.specs.declared.tree.Tree.{Tree};
ghost use Rattle.bx_schedule.specs.Execution.{snapshot_of};
ghost use Rattle.bx_schedule.specs.Places.{CanGo, place_of};
ghost use Rattle.bx_schedule.specs.Placing.{Done, lines_of};
ghost use Rattle.bx_script.specs.declared.line.Line.{Line};
ghost use Rattle.bx_replay.specs.Lines.{after_lines};
ghost use Rattle.bx_replay.specs.Replay.{DoesLine, HasStepCause, IsRefusedFor, IsRefusedThere, Reached, ReplayStands, StandsAfter, UnlessWrite};
ghost use Rattle.bx_script.specs.Schedule.{HasPlace};

use crate::stops::stop_of;
use bx_disk::CrashRack;
use bx_opens::Cluster;
use bx_outside::{Sink, write_all};
use bx_schedule::{Schedule, down_by_lines, lines_are_placed, parts_stand_apart};
use bx_script::Line;
use bx_stops::Stop;
use bx_world_events::first_cause_is_told;
use std::alloc::Global;

/// A line and its number, which counts from 1.
#[derive(Clone, Copy)]
pub(crate) struct Numbered<'a> {
    /// The number.
    pub(crate) number: u64,
    /// The line.
    pub(crate) line: &'a Line,
}

/// Does a line behind the heading, and writes the lines of the trace that it comes to. One that is refused changes nothing.
pub(crate) fn step<C: Cluster, K: Sink, B: CrashRack>(
    alloc: Global,
    schedule: &mut Schedule<C>,
    at: Numbered<'_>,
    bench: &mut B,
    out: &mut K,
) -> Result<(), Stop>
    requires line { HasPlace false at.line.now }
    requires goes { CanGo C.seen C.room B.Rack (place_of schedule.old) bench.old }
    requires few { C.events schedule.old.cluster + 20 < 4611686018427387904 }
    ensures goes { OnOk result (CanGo C.seen C.room B.Rack (place_of schedule.new) bench.new) }
    ensures counted { OnOk result (C.events schedule.new.cluster ≤ C.events schedule.old.cluster + 20) }
    ensures reaches { (start : ℕ) (done : List Line) → start ≤ B.faults bench.old → length done < 4294967295 → Reached (Rose start (B.faults bench.old)) (C.seen schedule.old.cluster) (place_of schedule.old).clock done
        → OnOk result (Reached (Rose start (B.faults bench.new)) (C.seen schedule.new.cluster) (place_of schedule.new).clock (at.entry.line.now ∷ done)) }
    ensures refused { (start : ℕ) (done : List Line) → start ≤ B.faults bench.old → Reached (Rose start (B.faults bench.old)) (C.seen schedule.old.cluster) (place_of schedule.old).clock done
        → IfErr result (λ stop. IsRefusedFor (Rose start (B.faults bench.old)) stop at.entry.number (after_lines done) at.entry.line.now) }
    ensures there { IfErr result (λ stop. IsRefusedThere (snapshot_of C.seen (place_of schedule.old) (B.state bench.old)) at.entry.line.now stop) }
    ensures does { (start : ℕ) (done : List Done) (begun : List ℕ) → K.tells out.old → B.tells bench.old → start ≤ B.faults bench.old → length (lines_of done) < 4294967295
        → Reached (Rose start (B.faults bench.old)) (C.seen schedule.old.cluster) (place_of schedule.old).clock (lines_of done)
        → ReplayStands (Rose start (B.faults bench.old)) (C.led schedule.old.cluster (B.state bench.old)) (place_of schedule.old).lacking (snapshot_of C.seen (place_of schedule.old) (B.state bench.old)) done begun (K.written out.old)
        → DoesLine result (λ written. Reached (Rose start (B.faults bench.new)) (C.seen schedule.new.cluster) (place_of schedule.new).clock (at.entry.line.now ∷ lines_of done)
        × StandsAfter (Rose start (B.faults bench.new)) (C.led schedule.new.cluster (B.state bench.new)) (place_of schedule.new).lacking (snapshot_of C.seen (place_of schedule.old) (B.state bench.old)) (snapshot_of C.seen (place_of schedule.new) (B.state bench.new)) at.entry.line.now done begun written) (K.written out.old) (K.written out.new) }
    ensures leads { (tree : Tree) (parts : List Part) → B.tells bench.old → C.led schedule.old.cluster (B.state bench.old) tree parts → OnOk result ((now : List Part) × C.led schedule.new.cluster (B.state bench.new) tree now) }
    ensures cause { IfErr result (λ stop. HasStepCause stop at.entry.number (K.faults out.old) (K.faults out.new)) }
    ensures first { UnlessWrite result (K.faults out.new ≡ K.faults out.old) }
    ensures later { K.faults out.old ≤ K.faults out.new }
    ensures keeps_telling { K.tells out.old → K.tells out.new }
    ensures bench { KeepsRack B.Rack bench.old bench.new }
{
    first_cause_is_told();
    lines_are_placed();
    down_by_lines();
    parts_stand_apart();
    if let Err(error) = schedule.step(alloc, bench, at.line) {
        return Err(stop_of(at.number, error));
    }
    write_all(out, schedule.text())?;
    Ok(())
}
