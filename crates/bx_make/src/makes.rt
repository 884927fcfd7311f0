//! The replay of a generated schedule.

ghost use Rattle.std.specs.Prelude.{◌≡◌, ◌≤◌, ◌<◌, ◌⊎◌, ℕ, false, IfErr, IfOk, OnOk};
ghost use Rattle.bx_base.specs.Faults.{Rose};
ghost use Rattle.bx_generated.specs.Schedules.{generated_text};
ghost use Rattle.bx_replay.specs.Outcome.{IsReplayed, IsShownBy};
ghost use Rattle.bx_replay.specs.Replay.{IsDiskCause, UnlessWrite, WroteOn};
ghost use Rattle.bx_stops.specs.declared.stop.Stop.TheVariants as stops;
ghost use Rattle.bx_make.specs.Makes.{HasMakeCause, IsMade, IsMadeInPart, LeavesPart, cause_of};

use crate::counts::counts;
use crate::source::GeneratedSource;
use bx_disk::CrashRack;
use bx_opens::Opens;
use bx_outside::{MemSink, Sink, write_all};
use bx_replay::replay;
use bx_stops::Stop;
use std::alloc::Global;

/// Which schedule is to be generated.
#[derive(Clone, Copy, PartialEq, Eq, Debug)]
pub struct Plan {
    /// What the generator begins with; the volume has that number.
    pub seed: u64,
    /// How many nodes there are, 1 to 4.
    pub nodes: u32,
    /// How many calls there are, 1 to 20000.
    pub calls: u32,
}

/// Generates a schedule, replays it on a cluster over `bench`, and writes six lines that tell of the replay to `out`: how many calls there were, and lines of the trace, with the points behind `end`, of
/// calls that were taken, of points, of replies and of kept replies; and how many files there are in the end. The schedule is made as it is read; the trace is kept until its lines are counted.
///
/// A line of it is refused only where a machine stopped by itself, which is a fault of the bench.
pub fn make<O: Opens, K: Sink, B: CrashRack>(
    alloc: Global,
    plan: Plan,
    out: &mut K,
    bench: &mut B,
) -> Result<(), Stop>
    requires some { 1 ≤ plan.nodes }
    requires most { plan.nodes ≤ 4 }
    requires few { plan.calls ≤ 20000 }
    ensures made { K.tells out.old × B.tells bench.old → OnOk result (WroteOn (K.written out.old) (K.written out.new)
        (IsMade (Rose (B.faults bench.old) (B.faults bench.new)) plan.seed plan.nodes plan.calls (IsShownBy (B.state bench.new)))) }
    ensures dropped { (d s : ℕ) → B.tells bench.old → OnOk result ((B.state bench.new).unsure d s ≡ false) }
    ensures part { K.tells out.old × B.tells bench.old → IfErr result (λ stop. LeavesPart stop (K.written out.old) (K.written out.new)
        (IsMadeInPart (Rose (B.faults bench.old) (B.faults bench.new)) plan.seed plan.nodes plan.calls (IsShownBy (B.state bench.new)))) }
    ensures cause { IfErr result (λ stop. HasMakeCause stop (K.faults out.old) (K.faults out.new) (B.tells bench.old) (B.faults bench.old) (B.faults bench.new)) }
    ensures bench_later { B.faults bench.old ≤ B.faults bench.new }
    ensures bench_tells { B.tells bench.old → B.tells bench.new }
    ensures sink_first { UnlessWrite result (K.faults out.new ≡ K.faults out.old) }
    ensures sink_later { K.faults out.old ≤ K.faults out.new }
    ensures sink_tells { K.tells out.old → K.tells out.new }
{
    let trace = traced::<O, B>(alloc, plan, bench)?;
    let text = counts(alloc, plan.calls, trace.bytes())?;
    write_all(out, text.as_slice())?;
    Ok(())
}

/// Replays the generated schedule, and keeps what is written.
fn traced<O: Opens, B: CrashRack>(alloc: Global, plan: Plan, bench: &mut B) -> Result<MemSink, Stop>
    requires some { 1 ≤ plan.nodes }
    requires most { plan.nodes ≤ 4 }
    requires few { plan.calls ≤ 20000 }
    ensures replayed { B.tells bench.old → IfOk result (λ trace. IsReplayed (Rose (B.faults bench.old) (B.faults bench.new))
        (generated_text plan.seed plan.nodes plan.calls) (IsShownBy (B.state bench.new)) trace.written) }
    ensures dropped { (d s : ℕ) → B.tells bench.old → OnOk result ((B.state bench.new).unsure d s ≡ false) }
    ensures cause { IfErr result (λ stop. (stop ≡ stops.OutOfMemory) ⊎ ((stop ≡ stops.DiskFault) × IsDiskCause (B.tells bench.old) (B.faults bench.old) (B.faults bench.new))) }
    ensures bench_later { B.faults bench.old ≤ B.faults bench.new }
    ensures bench_tells { B.tells bench.old → B.tells bench.new }
{
    let mut source = GeneratedSource::new(alloc, plan.seed, plan.nodes, plan.calls)?;
    let mut trace = MemSink::new(alloc, &[])?;
    match replay::<O, GeneratedSource, MemSink, B>(alloc, &mut source, &mut trace, bench) {
        Ok(()) => Ok(trace),
        Err(stop) => Err(cause_of(stop)),
    }
}

/// What a stop of the replay of a generated schedule comes from: its source and the sink of its trace fail for want of memory alone, and a
/// line is refused only where the bench failed.
fn cause_of(stop: Stop) -> Stop
    ensures { result ≡ cause_of stop }
{
    match stop {
        Stop::Refused(..) | Stop::DiskFault => Stop::DiskFault,
        Stop::ReadFault | Stop::WriteFault | Stop::OutOfMemory => Stop::OutOfMemory,
    }
}
