//! How a replay ends.

ghost use Rattle.std.specs.Prelude.{◌≡◌, ◌≤◌, ◌++◌, ◌⊎◌, ℕ, IfErr, IfOk, OnOk, codes, false, filter, map};
ghost use Rattle.std.specs.FinSet as set;
ghost use Rattle.std.specs.List.{AllByRecursion};
ghost use Rattle.bx_base.specs.Text.{ended};
ghost use Rattle.bx_disk.specs.Disks.{Disks};
ghost use Rattle.bx_disk.specs.declared.noise.Noise.TheVariants.{Drop};
ghost use Rattle.bx_model.specs.Listing.{listing};
ghost use Rattle.bx_model.specs.declared.tree.Tree.{Tree};
ghost use Rattle.bx_opens.specs.Opening.{AreOpenAlone};
ghost use Rattle.bx_opens.specs.bx_cluster.specs.Closing.{IsCrashed};
ghost use Rattle.bx_opens.specs.bx_rack_audit.specs.Alone.{StandAlone};
ghost use Rattle.bx_schedule.specs.Places.{place_of};
ghost use Rattle.bx_script.specs.TraceText.{InTraceRange, trace_text};
ghost use Rattle.bx_script.specs.declared.trace_line.TraceLine.TheVariants.{Acted};
ghost use Rattle.bx_replay.specs.Bench.{HoldsAny, all_crashed};
ghost use Rattle.bx_replay.specs.Replay.{Ends, HasFinishCause, HasPrintCause, IsUnread, UnlessDisk, UnlessWrite};

use crate::bench::read_back;
use bx_base::{OutOfMemory, Point};
use bx_disk::CrashRack;
use bx_opens::Cluster;
use bx_opens::rack_audit::Listing;
use bx_outside::{Sink, write_all};
use bx_schedule::Schedule;
use bx_script::TraceLine;
use bx_stops::Stop;
use std::alloc::Global;

/// Crashes all disks of the bench, so that what is unsure is dropped, and writes what comes after the trace: the word `end`, the points of calls that lack one and whose records are open, and the listing of the tree,
/// read back from the bench.
pub(crate) fn finish<C: Cluster, K: Sink, B: CrashRack>(
    alloc: Global,
    schedule: &Schedule<C>,
    bench: &mut B,
    out: &mut K,
) -> Result<(), Stop>
    ensures ends { (tree : Tree) → K.tells out.old → B.tells bench.old → StandAlone (all_crashed (B.state bench.old) Drop) tree
        → Ends result (all_crashed (B.state bench.old) Drop) (set.contains (place_of schedule.now).lacking) tree (K.written out.old) (K.written out.new) }
    ensures crashed { B.tells bench.old → IsCrashed (B.state bench.old) (all_crashed (B.state bench.old) Drop) ⊎ (IsUnread result × (K.written out.new ≡ K.written out.old)) }
    ensures drops { B.tells bench.old → OnOk result (B.state bench.new ≡ all_crashed (B.state bench.old) Drop) }
    ensures dropped { (d s : ℕ) → B.tells bench.old → OnOk result ((B.state bench.new).unsure d s ≡ false) }
    ensures bench_first { UnlessDisk result (B.faults bench.new ≡ B.faults bench.old) }
    ensures bench_later { B.faults bench.old ≤ B.faults bench.new }
    ensures bench_tells { B.tells bench.old → B.tells bench.new }
    ensures cause { IfErr result (λ stop. HasFinishCause stop (K.faults out.old) (K.faults out.new) (B.tells bench.old × HoldsAny (B.state bench.old)) (B.faults bench.old) (B.faults bench.new)) }
    ensures first { UnlessWrite result (K.faults out.new ≡ K.faults out.old) }
    ensures later { K.faults out.old ≤ K.faults out.new }
    ensures keeps_telling { K.tells out.old → K.tells out.new }
{
    let listed = read_back(alloc, bench)?;
    write_closing(alloc, schedule, &listed, out)
}

/// Writes what comes after the trace: the word `end`, the points of calls that lack one among those listed, and the listing.
fn write_closing<C: Cluster, K: Sink>(
    alloc: Global,
    schedule: &Schedule<C>,
    listed: &Listing,
    out: &mut K,
) -> Result<(), Stop>
    ensures ends { (disks : Disks) (tree : Tree) → K.tells out.old → AreOpenAlone disks listed.now.doubt → listed.now.text ≡ listing tree → StandAlone disks tree
        → Ends result disks (set.contains (place_of schedule.now).lacking) tree (K.written out.old) (K.written out.new) }
    ensures cause { IfErr result (λ stop. HasPrintCause stop (K.faults out.old) (K.faults out.new)) }
    ensures first { UnlessWrite result (K.faults out.new ≡ K.faults out.old) }
    ensures later { K.faults out.old ≤ K.faults out.new }
    ensures keeps_telling { K.tells out.old → K.tells out.new }
{
    let text = closing_of(alloc, schedule, listed)?;
    write_all(out, text.as_slice())?;
    write_all(out, listed.text.bytes())?;
    Ok(())
}

/// The word `end` and, for each point among those listed of a call that lacks one, its line, each with its line feed.
fn closing_of<C: Cluster>(
    alloc: Global,
    schedule: &Schedule<C>,
    listed: &Listing,
) -> Result<Vec<u8>, OutOfMemory>
    ensures text { IfOk result (λ text. text.items ≡ ended (codes "end") ++ trace_text (map Acted (filter (λ point. set.contains (place_of schedule.now).lacking point.call) listed.now.doubt))) }
    ensures in_range { OnOk result (AllByRecursion InTraceRange (map Acted (filter (λ point. set.contains (place_of schedule.now).lacking point.call) listed.now.doubt))) }
{
    let mut text = Vec::new(alloc);
    text.extend_from_slice(b"end\n")?;
    put_lacking(schedule, listed.doubt.items(), &mut text)?;
    Ok(text)
}

/// Puts the lines of those points whose calls lack one behind a text, each with its line feed.
fn put_lacking<C: Cluster>(
    schedule: &Schedule<C>,
    points: &[Point],
    text: &mut Vec<u8>,
) -> Result<(), OutOfMemory>
    ensures text { OnOk result (text.new.items ≡ text.old.items ++ trace_text (map Acted (filter (λ point. set.contains (place_of schedule.now).lacking point.call) points.now))) }
    ensures in_range { OnOk result (AllByRecursion InTraceRange (map Acted (filter (λ point. set.contains (place_of schedule.now).lacking point.call) points.now))) }
{
    if let [point, behind @ ..] = points {
        if schedule.lacks_point(point.call) {
            TraceLine::Acted(*point).append(text)?;
        }
        put_lacking(schedule, behind, text)?;
    }
    Ok(())
}
