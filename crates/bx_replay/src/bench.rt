//! The disks under a replay.

ghost use Rattle.std.specs.Prelude.{◌≡◌, ◌≤◌, IfErr, IfOk, OnOk};
ghost use Rattle.bx_opens.specs.bx_cluster.specs.Closing.{IsCrashed};
ghost use Rattle.bx_opens.specs.bx_rack_audit.specs.Alone.{IsListedAlone, StandAlone};
ghost use Rattle.bx_model.specs.declared.tree.Tree.{Tree};
ghost use Rattle.bx_model.specs.Listing.{listing};
ghost use Rattle.bx_disk.specs.declared.noise.Noise.TheVariants.{Drop};
ghost use Rattle.bx_replay.specs.Bench.{HoldsAny, all_crashed};
ghost use Rattle.bx_replay.specs.Replay.{HasBenchCause, UnlessDisk};

use bx_base::OutOfMemory;
use bx_disk::{CrashRack, Noise, Rack};
use bx_opens::rack_audit::{Listing, audit};
use bx_stops::Stop;
use std::alloc::Global;

/// Crashes all disks of the bench, one after the other: then nothing on them is unsure.
pub(crate) fn crash_all<B: CrashRack>(bench: &mut B, noise: Noise) -> Result<(), OutOfMemory>
    ensures noise { B.tells bench.old → OnOk result (B.state bench.new ≡ all_crashed (B.state bench.old) noise) }
    ensures crashed { B.tells bench.old → OnOk result (IsCrashed (B.state bench.old) (B.state bench.new)) }
    ensures no_fault { B.faults bench.new ≡ B.faults bench.old }
    ensures sizes { (B.state bench.new).sizes ≡ (B.state bench.old).sizes }
    ensures keeps_telling { B.tells bench.old → B.tells bench.new }
{
    for disk in 0..bench.disks() {
        bench.crash(disk, noise)?;
    }
    Ok(())
}

/// Drops what is unsure on the bench, and lists the file tree that it then holds.
pub(crate) fn read_back<B: CrashRack>(alloc: Global, bench: &mut B) -> Result<Listing, Stop>
    ensures dropped { B.tells bench.old → OnOk result (B.state bench.new ≡ all_crashed (B.state bench.old) Drop) }
    ensures crashed { B.tells bench.old → OnOk result (IsCrashed (B.state bench.old) (B.state bench.new)) }
    ensures listed { B.tells bench.old → IfOk result (IsListedAlone (B.state bench.new)) }
    ensures one { (tree : Tree) → B.tells bench.old → IfOk result (λ listed. StandAlone (B.state bench.new) tree → listed.text ≡ listing tree) }
    ensures cause { IfErr result (λ stop. HasBenchCause stop (B.tells bench.old × HoldsAny (B.state bench.old)) (B.faults bench.old) (B.faults bench.new)) }
    ensures no_fault { UnlessDisk result (B.faults bench.new ≡ B.faults bench.old) }
    ensures later { B.faults bench.old ≤ B.faults bench.new }
    ensures sizes { (B.state bench.new).sizes ≡ (B.state bench.old).sizes }
    ensures keeps_telling { B.tells bench.old → B.tells bench.new }
{
    crash_all(bench, Noise::Drop)?;
    let listed = audit(alloc, bench)?;
    Ok(listed)
}
