//! Clusters.

ghost use Rattle.std.specs.Prelude.{◌≡◌, ◌≢◌, ◌⊎◌, ◌<◌, ◌∷◌, ℕ, true, filter, length, List, Option, None, Some, IfErr, IfOk, IsSome, OnOk};
ghost use Rattle.bx_base.specs.Faults.{Rose};
ghost use Rattle.bx_base.specs.declared.names.Actor.{Actor};
ghost use Rattle.bx_calls.specs.Calls.{LeavesOnly};
ghost use Rattle.bx_disk.specs.Counts.{NoneFalls};
ghost use Rattle.bx_disk.specs.Disks.{Disks, Image, IsImage, blanked};
ghost use Rattle.bx_facts.specs.Disks.{Crashes};
ghost use Rattle.bx_facts.specs.Machines.{disk_of};
ghost use Rattle.bx_history.specs.Parts.{Part};
ghost use Rattle.bx_model.specs.declared.tree.Tree.{Tree};
ghost use Rattle.bx_post.specs.Posts.{is_waiting, next_from, passing_from, settled_from};
ghost use Rattle.bx_world_events.specs.Refusals.{refusal};
ghost use Rattle.bx_world_events.specs.declared.event.Event.TheVariants.{Blank};
ghost use Rattle.bx_world_events.specs.declared.event.EventError.TheVariants.{OutOfMemory as NoMemory};
ghost use Rattle.bx_history.specs.Trace.{Entry};
ghost use Rattle.bx_world_events.specs.Causes.{IsThere};
ghost use Rattle.bx_cluster.specs.Runs.{Account};
ghost use Rattle.bx_cluster.specs.Steps.{Counted, IsMoment, Shown, part_at};

use crate::outcome::Outcome;
use bx_base::Actor;
use bx_disk::Rack;
use bx_post::Passes;
use bx_world_events::{Event, EventError, Shows};
use std::alloc::Global;

/// All machines of a cluster, and the packets between them. It is data: what happens to it is told one event at a time, and its disks are handed in.
pub trait Cluster: Shows + Drop {
    /// How many events have started something: a call that came, a machine that started again.
    ghost events: { Self → ℕ };

    /// A rack of disks of these sizes has those of all machines.
    ghost room: { Self → List ℕ → Type 0 };

    /// What a call that acts at its point makes of a tree.
    ghost steps: { Self → Tree → Entry → Tree → Type 0 };

    /// The datagram is a call that touches no block.
    ghost at_once: { Self → List ℕ → Type 0 };

    /// From this tree, what happened so far led to it, with these disks.
    ghost led: { Self → Disks → Tree → List Part → Type 0 };

    /// What an image of disks of these sizes may show then: the tree after what has a point, or the tree after some calls more, which were taken and have no
    /// point; from that tree, or from it after some of the calls that were in doubt when the volume was opened.
    ghost shown: { Self → List ℕ → Image → Tree → List Part → Type 0 };

    /// Does one event. One that is refused changes nothing. For want of memory the cluster isn't used again.
    fn step<R: Rack>(
        &mut self,
        alloc: Global,
        rack: &mut R,
        event: &Event,
    ) -> Result<Outcome, EventError>
        requires moment { IsMoment event.now }
        requires few { events self.old < 4611686018427387904 }
        requires room { room self.old (R.state rack.old).sizes }
        ensures refused { IfErr result (λ error. (error ≡ NoMemory) ⊎ (refusal (Self.seen self.old) event.now ≡ Some error)) }
        ensures does { OnOk result (refusal (Self.seen self.old) event.now ≡ None) }
        ensures unchanged { IfErr result (λ error. error ≢ NoMemory → (self.new ≡ self.old) × (R.state rack.new ≡ R.state rack.old) × (R.faults rack.new ≡ R.faults rack.old)) }
        ensures shows { IfOk result (λ outcome. Shown event.now outcome.stopped (Self.seen self.old) (Self.seen self.new)) }
        ensures at { (tree : Tree) (parts : List Part) → R.tells rack.old → led self.old (R.state rack.old) tree parts → IfOk result (λ outcome. led self.new (R.state rack.new) tree (part_at event.now outcome ∷ parts)) }
        ensures any_moment { (tree : Tree) (parts : List Part) → R.tells rack.old → led self.old (R.state rack.old) tree parts
            → IfOk result (λ outcome. LeavesOnly (R.moment rack.old) (R.moment rack.new) (R.left_since rack.old) (R.left_since rack.new) (λ image. shown self.old (R.state rack.old).sizes image tree parts ⊎ shown self.new (R.state rack.old).sizes image tree (part_at event.now outcome ∷ parts))) }
        ensures stopped { IfOk result (λ outcome. IsSome outcome.stopped → Rose (R.faults rack.old) (R.faults rack.new)) }
        ensures counted { OnOk result (Counted event.now (events self.old) (events self.new)) }
        ensures room { (sizes : List ℕ) → room self.old sizes → OnOk result (room self.new sizes) }
        ensures later { NoneFalls (R.faults rack.old) (R.faults rack.new) (R.faults_of rack.old) (R.faults_of rack.new) }
        ensures sizes { (R.state rack.new).sizes ≡ (R.state rack.old).sizes }
        ensures keeps_telling { R.tells rack.old → R.tells rack.new };

    /// How many events have started something. It takes no memory.
    fn events(&self) -> u64
        ensures { result ≡ events self.now };

    /// The least number above a bound whose packet is pending; `None` exactly where there is none. It takes no memory.
    fn pending(&self, after: u64) -> Option<u64>
        ensures { result ≡ next_from 1 after (Self.seen self.now).post };

    /// The least number whose packet is pending and passes; `None` exactly where there is none. It takes no memory.
    fn next<P: Passes>(&self, gate: &P) -> Option<u64>
        ensures { result ≡ passing_from (P.passes gate.now) 1 (Self.seen self.now).post };

    /// Makes a packet not pending. It takes no memory.
    fn settle(&mut self, number: u64)
        ensures shows { Self.seen self.new ≡ record (Self.seen self.old) { post = settled_from 1 number (Self.seen self.old).post } }
        ensures at { (x : Disks) (tree : Tree) (parts : List Part) → led self.old x tree parts → led self.new x tree parts }
        ensures room { (sizes : List ℕ) → room self.old sizes → room self.new sizes }
        ensures events { events self.new ≡ events self.old };

    /// Drops the packets that aren't pending, and numbers the others from 1. It takes no memory.
    fn forget(&mut self)
        ensures shows { Self.seen self.new ≡ record (Self.seen self.old) { post = filter is_waiting (Self.seen self.old).post } }
        ensures at { (x : Disks) (tree : Tree) (parts : List Part) → led self.old x tree parts → led self.new x tree parts }
        ensures room { (sizes : List ℕ) → room self.old sizes → room self.new sizes }
        ensures events { events self.new ≡ events self.old };

    /// A rack with room has a disk for each machine that has one.
    ghost disks: { (w : Self) (sizes : List ℕ) (who : Actor) (disk : ℕ) → room w sizes → IsThere (Self.seen w) who → disk_of who ≡ Some disk → disk < length sizes };

    /// What happened is told of by one history, which leads from that tree.
    ghost accounts: { (w : Self) (x : Disks) (tree : Tree) (parts : List Part) → led w x tree parts → Account (steps w) (at_once w) tree parts };

    /// Each image shows such a tree.
    ghost shows: { (w : Self) (x : Disks) (tree : Tree) (parts : List Part) (image : Image) → led w x tree parts → IsImage x image → shown w x.sizes image tree parts };

    /// The disk of a machine that is there and down may crash.
    ghost crashes: { (w : Self) (x y : Disks) (tree : Tree) (parts : List Part) (who : Actor) (disk : ℕ) → led w x tree parts → IsThere (Self.seen w) who → (Self.seen w).down who ≡ true → disk_of who ≡ Some disk → y.sizes ≡ x.sizes → Crashes disk x y → led w y tree parts };

    /// So may it be replaced by a blank one, where that isn't refused.
    ghost blanks: { (w : Self) (x : Disks) (tree : Tree) (parts : List Part) (who : Actor) (disk : ℕ) → led w x tree parts → refusal (Self.seen w) (Blank who) ≡ None → disk_of who ≡ Some disk → led w (blanked x disk) tree parts };
}
