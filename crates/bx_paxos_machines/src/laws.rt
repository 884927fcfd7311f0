//! What holds of a register and the past that it keeps.

ghost use Rattle.std.specs.Prelude.{◌≡◌, ℕ, ◌<◌, ◌≤◌, true, List, slice_index};
ghost use Rattle.bx_base.specs.declared.names.Actor.{Actor};
ghost use Rattle.bx_base.specs.declared.names.Actor.TheVariants.{Replica};
ghost use Rattle.bx_disk.specs.Disks.{Disks, Image, IsImage};
ghost use Rattle.bx_facts.specs.Chains.{AreLegal, IsNext, IsPlace, last};
ghost use Rattle.bx_facts.specs.Disks.{Crashes, HasRoom, SameLabels, SameLengths, SameReplicas};
ghost use Rattle.bx_facts.specs.Inputs.{AreAmong, IsRegisters};
ghost use Rattle.bx_facts.specs.Pasts.{RegisterPast};
ghost use Rattle.bx_global.specs.Allowed.{IsAllowed};
ghost use Rattle.bx_global.specs.declared.state.GlobalState.{GlobalState};
ghost use Rattle.bx_paxos.specs.Reading.{ReadsState};
ghost use Rattle.bx_places.specs.Places.{replica_sectors};
ghost use Rattle.bx_post.specs.declared.packets.Letter.{Letter};
ghost use Rattle.bx_paxos_machines.specs.Cluster.{Cluster, knows, needs};
ghost use Rattle.bx_paxos_machines.specs.Keeps.{Keeps};

/// Each known state is a place of the chain; each change of the chain was legal; each of its states meets the conditions on states; and an image
/// is read as the last state, or as what a change that was proposed makes of it; one in which two replicas have a label is read so.
pub fn what_a_register_tells()
    ensures places { (g : Cluster) (x : Disks) (past : RegisterPast) (who : Actor) → Keeps g x past → IsPlace past.chain (knows g who) }
    ensures legal { (g : Cluster) (x : Disks) (past : RegisterPast) → Keeps g x past → AreLegal past.chain.first past.chain.changes }
    ensures allowed { (g : Cluster) (x : Disks) (past : RegisterPast) (s : GlobalState) → Keeps g x past → IsPlace past.chain s → IsAllowed s }
    ensures reads_next { (g : Cluster) (x : Disks) (past : RegisterPast) (image : Image) (s : GlobalState) → Keeps g x past → IsImage x image → ReadsState g.made x.sizes image s → IsNext past.proposed (last past.chain) s }
{}

/// Other disks don't matter, of whatever length; the disk of a machine that is down may crash; letters may be lost, and come in any order and number;
/// never more than a replica's sectors of a disk are needed, and nothing of the disks of members, or of a replica that is down.
pub fn other_disks_and_letters()
    ensures elsewhere { (g : Cluster) (x y : Disks) (past : RegisterPast) → Keeps g x past → SameLengths x y → SameReplicas x y → SameLabels x y → Keeps g y past }
    ensures survives { (g : Cluster) (x y : Disks) (past : RegisterPast) (n : ℕ) → Keeps g x past → past.down (Replica n) ≡ true → SameLengths x y → Crashes n x y → Keeps g y past }
    ensures loses { (g : Cluster) (x : Disks) (past : RegisterPast) (letters : List Letter) → Keeps g x past → AreAmong IsRegisters letters past.letters → Keeps g x (record past { letters = letters }) }
    ensures needs_little { (g : Cluster) (disk : ℕ) → needs g disk ≤ replica_sectors }
    ensures needs_up { (g : Cluster) (x : Disks) (past : RegisterPast) (n : ℕ) → Keeps g x past → past.down (Replica n) ≡ true → needs g n ≡ 0 }
    ensures room { (g : Cluster) (sizes : List ℕ) → ((n : ℕ) → n < 3 → replica_sectors ≤ slice_index sizes n) → HasRoom (needs g) sizes }
    ensures needs_none { (g : Cluster) (disk : ℕ) → 3 ≤ disk → needs g disk ≡ 0 }
{}
