//! `make`, by its exit status.

ghost use Rattle.std.specs.Prelude.{◌≡◌, ◌≢◌, ◌≤◌};
ghost use Rattle.bx_statuses.specs.Report.{IsTold, line_of};
ghost use Rattle.bx_top.specs.Makes.{MakeEnds};

use bx_disk::CrashRack;
use bx_make::{Plan, make};
use bx_outside::Sink;
use bx_statuses::report;
use bx_world_openings::BoxWorlds;
use std::alloc::Global;

/// Generates a schedule, replays it on `bench`, writes to `out` how many lines of each kind its trace has, and answers the exit status: 0, done; 4, `out` failed; 5, `bench` failed; 9, memory ran out.
/// Each but 0 has a line on `err`.
pub(crate) fn make_bench<K: Sink, B: CrashRack>(
    alloc: Global,
    plan: Plan,
    out: &mut K,
    err: &mut K,
    bench: &mut B,
) -> u8
    requires some { 1 ≤ plan.nodes }
    requires most { plan.nodes ≤ 4 }
    requires few { plan.calls ≤ 20000 }
    ensures ends { MakeEnds K.Sink B.Rack plan.seed plan.nodes plan.calls out.old out.new bench.old bench.new result }
    ensures silent { result ≡ 0 → err.new ≡ err.old }
    ensures told { result ≢ 0 → K.tells err.old → IsTold (K.written err.old) (K.written err.new) (K.faults err.old) (K.faults err.new) (line_of result) }
{
    match make::<BoxWorlds, K, B>(alloc, plan, out, bench) {
        Ok(()) => 0,
        Err(stop) => report(alloc, stop, err),
    }
}
