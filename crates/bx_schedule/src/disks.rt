//! The disk of a machine behind its event.

ghost use Rattle.std.specs.Prelude.{◌≡◌, List, OnOk, IfSome, true};
ghost use Rattle.bx_facts.specs.Machines.{disk_of};
ghost use Rattle.bx_world_events.specs.Causes.{IsThere};
ghost use Rattle.bx_world_events.specs.Events.{machine_of};
ghost use Rattle.bx_world_events.specs.Refusals.{refusal};
ghost use Rattle.bx_world_events.specs.declared.event.Event.TheVariants.{Blank as Blanks};
ghost use Rattle.bx_driver.specs.Machines.{HasDiskNumbers};
ghost use Rattle.bx_driver.specs.Racks.{KeepsRack};
ghost use Rattle.bx_history.specs.Parts.{Part};
ghost use Rattle.bx_model.specs.declared.tree.Tree.{Tree};
ghost use Rattle.bx_schedule.specs.Disks.{IsBehind, blanked_of, crashed_of, moved};

use bx_base::{Actor, OutOfMemory};
use bx_cluster::Cluster;
use bx_disk::{CrashRack, Noise, Rack};
use bx_driver::disk_of;
use bx_world_events::{Event, Shows, refusal};

/// Crashes the disk of a machine that crashed, with this noise, or replaces the disk that was to be replaced. Other events leave the disks as they are.
pub(crate) fn move_disk<C: Cluster, R: CrashRack>(
    cluster: &C,
    rack: &mut R,
    event: &Event,
    noise: Noise,
) -> Result<(), OutOfMemory>
    requires there { IfSome (machine_of event.now) (λ who. IsThere (C.seen cluster.now) who) }
    requires behind { IsBehind (C.seen cluster.now) event.now }
    requires disks { HasDiskNumbers (C.seen cluster.now) }
    requires room { C.room cluster.now (R.state rack.old).sizes }
    ensures moved { R.tells rack.old → OnOk result (R.state rack.new ≡ moved (C.seen cluster.now) noise event.now (R.state rack.old)) }
    ensures led { (tree : Tree) (parts : List Part) → R.tells rack.old → C.led cluster.now (R.state rack.old) tree parts → OnOk result (C.led cluster.now (R.state rack.new) tree parts) }
    ensures keeps { KeepsRack R.Rack rack.old rack.new }
{
    match event {
        Event::Crash { at } => crash_disk(cluster, rack, *at, noise),
        Event::Blank { at } => blank_disk(cluster, rack, *at),
        Event::Call { .. }
        | Event::Tick { .. }
        | Event::Deliver { .. }
        | Event::Sync { .. }
        | Event::Restart { .. } => Ok(()),
    }
}

/// Crashes the disk of a machine, where it has one.
fn crash_disk<C: Cluster, R: CrashRack>(
    cluster: &C,
    rack: &mut R,
    who: Actor,
    noise: Noise,
) -> Result<(), OutOfMemory>
    requires down { (C.seen cluster.now).down who ≡ true }
    requires there { IsThere (C.seen cluster.now) who }
    requires disks { HasDiskNumbers (C.seen cluster.now) }
    requires room { C.room cluster.now (R.state rack.old).sizes }
    ensures crashed { R.tells rack.old → OnOk result (R.state rack.new ≡ crashed_of noise (disk_of who) (R.state rack.old)) }
    ensures led { (tree : Tree) (parts : List Part) → R.tells rack.old → C.led cluster.now (R.state rack.old) tree parts → OnOk result (C.led cluster.now (R.state rack.new) tree parts) }
    ensures keeps { KeepsRack R.Rack rack.old rack.new }
{
    match disk_of(cluster, who) {
        Some(disk) => rack.crash(disk, noise),
        None => Ok(()),
    }
}

/// Replaces the disk of a machine by a blank one, where it has one that is needed no more.
fn blank_disk<C: Cluster, R: CrashRack>(
    cluster: &C,
    rack: &mut R,
    who: Actor,
) -> Result<(), OutOfMemory>
    requires there { IsThere (C.seen cluster.now) who }
    requires disks { HasDiskNumbers (C.seen cluster.now) }
    requires room { C.room cluster.now (R.state rack.old).sizes }
    ensures blanked { R.tells rack.old → OnOk result (R.state rack.new ≡ blanked_of (refusal (C.seen cluster.now) (Blanks who)) (disk_of who) (R.state rack.old)) }
    ensures led { (tree : Tree) (parts : List Part) → R.tells rack.old → C.led cluster.now (R.state rack.old) tree parts → OnOk result (C.led cluster.now (R.state rack.new) tree parts) }
    ensures keeps { KeepsRack R.Rack rack.old rack.new }
{
    let Some(disk) = disk_of(cluster, who) else {
        return Ok(());
    };
    match refusal(cluster, &Event::Blank { at: who }) {
        None => rack.blank(disk),
        Some(_) => Ok(()),
    }
}
