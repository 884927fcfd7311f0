//! The disks that a register needs.

ghost use Rattle.std.specs.Prelude.{◌≤◌, ◌<◌, ◌↔◌, ℕ, IsTrue, slice_index};
ghost use Rattle.bx_base.specs.declared.names.Actor.TheVariants.{Replica};
ghost use Rattle.bx_facts.specs.Disks.{HasRoom, wanted_by};
ghost use Rattle.bx_facts.specs.Machines.{disk_of};
ghost use Rattle.bx_places.specs.Places.{replica_sectors};
ghost use Rattle.bx_paxos_machines.specs.Cluster.{Cluster, needs};

use bx_disk::Rack;

/// How many sectors a replica needs of its disk: its label, and its cell.
const SECTORS: u64 = 21;

/// Whether a rack has the disks of three replicas, which are all that a register needs.
pub fn has_disks<R: Rack>(rack: &R) -> bool
    ensures is { IsTrue result ↔ ((n : ℕ) → n < 3 → replica_sectors ≤ slice_index (R.state rack.now).sizes n) }
    ensures room { IsTrue result → (g : Cluster) → HasRoom (needs g) (R.state rack.now).sizes }
    ensures each { IsTrue result → (n : ℕ) → n < 3 → HasRoom (wanted_by (disk_of (Replica n)) replica_sectors) (R.state rack.now).sizes }
{
    if rack.disks() < 3 {
        return false;
    }
    rack.sectors(0) >= SECTORS && rack.sectors(1) >= SECTORS && rack.sectors(2) >= SECTORS
}
