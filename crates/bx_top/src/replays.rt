//! `replay`, by its exit status.

ghost use Rattle.std.specs.Prelude.{◌≡◌, ◌≢◌, ◌⊎◌, ℕ, false, List, [], ◌∷◌};
ghost use Rattle.bx_base.specs.Faults.{Rose};
ghost use Rattle.bx_base.specs.Text.{lines_of};
ghost use Rattle.bx_script.specs.declared.line.Line.{Line};
ghost use Rattle.bx_script.specs.Schedule.{IsSchedule};
ghost use Rattle.bx_stops.specs.declared.stop.Reason.{Reason};
ghost use Rattle.bx_stops.specs.declared.stop.Stop.TheVariants as stops;
ghost use Rattle.bx_replay.specs.Lines.{AreDone, IsReasonByLines};
ghost use Rattle.bx_replay.specs.Outcome.{IsBroken, IsCut, IsCutOff, IsPlayable, IsReplayRefusal, IsRefused, IsRefusedByRun, IsReplayed, IsShownBy};
ghost use Rattle.bx_replay.specs.Replay.{IsDiskCause, WroteOn};
ghost use Rattle.bx_statuses.specs.Report.{IsAmong, IsTold, line_of, message};

use bx_disk::CrashRack;
use bx_outside::{Sink, Source};
use bx_replay::replay;
use bx_statuses::report;
use bx_world_openings::BoxWorlds;
use std::alloc::Global;

/// Replays the schedule of `input` on `bench`, writes its trace to `out`, and answers the exit status: 0, done; 2, a line is refused; 3, `input`
/// failed; 4, `out` failed; 5, `bench` failed, before anything was written to `out`, or after the last line was done; 9, memory ran out. Each but 0
/// has a line on `err`.
pub(crate) fn replay_bench<S: Source, K: Sink, B: CrashRack>(
    alloc: Global,
    input: &mut S,
    out: &mut K,
    err: &mut K,
    bench: &mut B,
) -> u8
    ensures status { IsAmong (0 ∷ 2 ∷ 3 ∷ 4 ∷ 5 ∷ 9 ∷ []) result }

    // The headline. A machine may have stopped by itself where a disk of the bench failed.
    ensures replayed { result ≡ 0 → S.tells input.old → IsPlayable (Rose (B.faults bench.old) (B.faults bench.new)) (S.left input.old) × (S.left input.new ≡ [])
        × (K.tells out.old × B.tells bench.old → WroteOn (K.written out.old) (K.written out.new)
        (IsReplayed (Rose (B.faults bench.old) (B.faults bench.new)) (S.left input.old) (IsShownBy (B.state bench.new)))) }
    ensures dropped { result ≡ 0 → B.tells bench.old → (d s : ℕ) → (B.state bench.new).unsure d s ≡ false }
    ensures silent { result ≡ 0 → err.new ≡ err.old }

    // The first line that is refused, and the trace of the lines before.
    ensures refused { result ≡ 2 → (number : ℕ) × (reason : Reason)
        × (S.tells input.old → IsReplayRefusal (Rose (B.faults bench.old) (B.faults bench.new)) (S.left input.old) number reason
        × (K.tells out.old × B.tells bench.old → WroteOn (K.written out.old) (K.written out.new)
        (IsRefused (Rose (B.faults bench.old) (B.faults bench.new)) (S.left input.old) number reason)))
        × (K.tells err.old → IsTold (K.written err.old) (K.written err.new) (K.faults err.old) (K.faults err.new) (message (stops.Refused number reason))) }

    ensures refuses { S.tells input.old → (number : ℕ) (reason : Reason) → IsReasonByLines reason
        → IsReplayRefusal (Rose (B.faults bench.old) (B.faults bench.new)) (S.left input.old) number reason
        → (Rose (S.faults input.old) (S.faults input.new) → ⊥) → (Rose (K.faults out.old) (K.faults out.new) → ⊥)
        → (result ≡ 2) ⊎ ((result ≡ 9) ⊎ ((result ≡ 5) × (out.new ≡ out.old))) }

    // A fault of the source, and the trace of the lines before.
    ensures read_fault { result ≡ 3 → Rose (S.faults input.old) (S.faults input.new) }
    ensures cut_off { result ≡ 3 → S.tells input.old → IsCut (Rose (B.faults bench.old) (B.faults bench.new)) (S.left input.old) (S.left input.new)
        × (K.tells out.old × B.tells bench.old → WroteOn (K.written out.old) (K.written out.new)
        (IsCutOff (Rose (B.faults bench.old) (B.faults bench.new)) (S.left input.old) (S.left input.new))) }

    // A fault of the output or of the bench, or no memory: a part of a trace.
    ensures write_fault { result ≡ 4 → Rose (K.faults out.old) (K.faults out.new) }
    ensures disk_fault { result ≡ 5 → IsDiskCause (B.tells bench.old) (B.faults bench.old) (B.faults bench.new) }
    ensures disk_when { result ≡ 5 → S.tells input.old →
        (out.new ≡ out.old) ⊎ (IsPlayable (Rose (B.faults bench.old) (B.faults bench.new)) (S.left input.old) × (S.left input.new ≡ [])) }
    ensures broken { (result ≡ 4) ⊎ ((result ≡ 5) ⊎ (result ≡ 9)) → S.tells input.old → K.tells out.old × B.tells bench.old →
        WroteOn (K.written out.old) (K.written out.new) (IsBroken (Rose (B.faults bench.old) (B.faults bench.new)) (S.left input.old)) }

    // The line that tells the status.
    ensures told { result ≢ 0 → result ≢ 2 → K.tells err.old →
        IsTold (K.written err.old) (K.written err.new) (K.faults err.old) (K.faults err.new) (line_of result) }

    ensures source_first { result ≢ 3 → S.faults input.new ≡ S.faults input.old }
    ensures sink_first { result ≢ 4 → K.faults out.new ≡ K.faults out.old }

    ensures complete { S.tells input.old → (schedule : List Line) → IsSchedule (lines_of (S.left input.old)) schedule
        → AreDone (Rose (B.faults bench.old) (B.faults bench.new)) schedule
        → (Rose (S.faults input.old) (S.faults input.new) → ⊥) → (Rose (K.faults out.old) (K.faults out.new) → ⊥)
        → (result ≡ 0) ⊎ ((result ≡ 9) ⊎ ((result ≡ 5) ⊎ ((result ≡ 2) × IsRefusedByRun (Rose (B.faults bench.old) (B.faults bench.new)) (S.left input.old)))) }
{
    match replay::<BoxWorlds, S, K, B>(alloc, input, out, bench) {
        Ok(()) => 0,
        Err(stop) => report(alloc, stop, err),
    }
}
