//! The whole of a replay.

ghost use Rattle.std.specs.Prelude.{◌≡◌, ◌≤◌, ◌⊎◌, ℕ, [], false, IfErr, IsErrOf, OnOk};
ghost use Rattle.bx_base.specs.Faults.{Rose};
ghost use Rattle.bx_stops.specs.declared.stop.Stop.TheVariants as stops;
ghost use Rattle.bx_replay.specs.Outcome.{IsPlayable, IsShownBy};
ghost use Rattle.bx_replay.specs.Replay.{HasCause, Leaves, UnlessRead, UnlessWrite};

use crate::begins::begin;
use crate::ends::finish;
use crate::lines::next_line;
use crate::steps::{Numbered, step};
use bx_disk::CrashRack;
use bx_opens::Opens;
use bx_outside::{LineReader, Sink, Source};
use bx_schedule::Schedule;
use bx_script::MAX_LINE;
use bx_stops::Stop;
use std::alloc::Global;

/// Replays the schedule of `input` on a cluster over `bench`, and writes its trace to `out` as it goes; then the word `end`, the points of calls in doubt whose records are open, and the listing of the
/// tree, as it is read back from the bench. It keeps one line of the schedule at a time. The bench becomes a volume of the heading's number. At the end all its disks crash, and what is unsure is dropped. A
/// disk's fault stops its machine, and the replay goes on; it is told only where nothing was written yet, or where all lines are done.
pub fn replay<O: Opens, S: Source, K: Sink, B: CrashRack>(
    alloc: Global,
    input: &mut S,
    out: &mut K,
    bench: &mut B,
) -> Result<(), Stop>
    ensures leaves { S.tells input.old → Leaves (Rose (B.faults bench.old) (B.faults bench.new)) (K.tells out.old × B.tells bench.old) (IsShownBy (B.state bench.new)) result (S.left input.old) (S.left input.new) (K.written out.old) (K.written out.new) }
    ensures dropped { (d s : ℕ) → B.tells bench.old → OnOk result ((B.state bench.new).unsure d s ≡ false) }
    ensures cause { IfErr result (λ stop. HasCause stop (S.faults input.old) (S.faults input.new) (K.faults out.old) (K.faults out.new) (B.tells bench.old) (B.faults bench.old) (B.faults bench.new)) }
    ensures disk_when { IsErrOf result stops.DiskFault → S.tells input.old → (out.new ≡ out.old) ⊎ (IsPlayable (Rose (B.faults bench.old) (B.faults bench.new)) (S.left input.old) × (S.left input.new ≡ [])) }
    ensures bench_later { B.faults bench.old ≤ B.faults bench.new }
    ensures bench_tells { B.tells bench.old → B.tells bench.new }
    ensures source_first { UnlessRead result (S.faults input.new ≡ S.faults input.old) }
    ensures sink_first { UnlessWrite result (K.faults out.new ≡ K.faults out.old) }
    ensures source_later { S.faults input.old ≤ S.faults input.new }
    ensures sink_later { K.faults out.old ≤ K.faults out.new }
    ensures source_tells { S.tells input.old → S.tells input.new }
    ensures sink_tells { K.tells out.old → K.tells out.new }
{
    let mut reader = LineReader::new(alloc, MAX_LINE)?;
    let mut schedule = begin::<O, S, B>(alloc, &mut reader, input, bench)?;
    let mut number = 1;
    'lines: while let Some(line) = next_line(alloc, &mut reader, input, number + 1)? {
        number += 1;
        let at = Numbered {
            number,
            line: &line,
        };
        step(alloc, &mut schedule, at, bench, out)?;
        // It goes here, so that one path leads back to the head of the loop.
        drop(line);
    }
    finish(alloc, &schedule, bench, out)
}
