//! How a replay begins.

ghost use Rattle.std.specs.Prelude.{◌≡◌, ◌≤◌, ◌++◌, [], ◌∷◌, ℕ, List, IfErr, IfOk};
ghost use Rattle.bx_base.specs.Faults.{Rose};
ghost use Rattle.bx_history.specs.Parts.{Part};
ghost use Rattle.bx_model.specs.declared.tree.Tree.{Tree};
ghost use Rattle.bx_schedule.specs.Execution.{snapshot_of};
ghost use Rattle.bx_schedule.specs.Places.{CanGo, place_of};
ghost use Rattle.bx_replay.specs.Replay.{Begins, BeginsLed, HasBeginCause, UnlessDisk, UnlessRead};

use crate::lines::next_line;
use bx_disk::Rack;
use bx_opens::{Opens, Shape};
use bx_outside::{LineReader, Source};
use bx_schedule::Schedule;
use bx_script::Line;
use bx_stops::{Reason, Stop};
use std::alloc::Global;

/// Reads the heading, and makes the bench its volume, with a cluster of its machines.
pub(crate) fn begin<O: Opens, S: Source, B: Rack>(
    alloc: Global,
    reader: &mut LineReader,
    input: &mut S,
    bench: &mut B,
) -> Result<Schedule<O::Made>, Stop>
    requires { reader.old.most ≡ 18600 }
    ensures begins { S.tells input.old → Begins (λ schedule. O.Made.seen schedule.cluster) (λ schedule. (place_of schedule).clock) result (reader.old.ahead ++ S.left input.old) (reader.new.ahead ++ S.left input.new) (S.left input.new) }
    ensures led { S.tells input.old → B.tells bench.old → BeginsLed (λ schedule. O.Made.led schedule.cluster (B.state bench.new)) (λ schedule. (place_of schedule).lacking) (λ schedule. snapshot_of O.Made.seen (place_of schedule) (B.state bench.new)) result (reader.old.ahead ++ S.left input.old) }
    ensures holds { B.tells bench.old → IfOk result (λ schedule. (tree : Tree) × (parts : List Part) × O.Made.led schedule.cluster (B.state bench.new) tree parts) }
    ensures goes { IfOk result (λ schedule. CanGo O.Made.seen O.Made.room B.Rack (place_of schedule) bench.new) }
    ensures events { IfOk result (λ schedule. O.Made.events schedule.cluster ≡ 0) }
    ensures cause { IfErr result (λ stop. HasBeginCause stop (S.faults input.old) (S.faults input.new) (B.faults bench.old) (B.faults bench.new)) }
    ensures first { UnlessRead result (S.faults input.new ≡ S.faults input.old) }
    ensures bench_first { UnlessDisk result (B.faults bench.new ≡ B.faults bench.old) }
    ensures bench_later { B.faults bench.old ≤ B.faults bench.new }
    ensures bench_tells { B.tells bench.old → B.tells bench.new }
    ensures most { reader.new.most ≡ reader.old.most }
    ensures later { S.faults input.old ≤ S.faults input.new }
    ensures keeps_telling { S.tells input.old → S.tells input.new }
{
    match next_line(alloc, reader, input, 1)? {
        Some(
            Line::Heading {
                volume,
                nodes,
                devices,
                areas,
            },
        ) => {
            let shape = Shape {
                nodes,
                devices,
                areas: areas as u16,
            };
            let cluster = O::begin(alloc, bench, volume, shape)?;
            Ok(Schedule::new(alloc, cluster))
        }
        _ => Err(Stop::Refused(1, Reason::Grammar)),
    }
}
