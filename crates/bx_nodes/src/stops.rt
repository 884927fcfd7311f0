//! Machines that stop, and start again.

ghost use Rattle.std.specs.Prelude.{◌≡◌, ◌≢◌, ◌⊎◌, ℕ, IfSome, List, None, slice_get, ◌++◌, ◌+◌, ◌<◌, ◌≤◌, OnOk, IsErr, IsErrOf, false, true};
ghost use Rattle.bx_base.specs.declared.names.Actor.{Actor};
ghost use Rattle.bx_base.specs.declared.names.Actor.TheVariants.{Node, Member};
ghost use Rattle.bx_calls.specs.Calls.{LeavesOnly};
ghost use Rattle.bx_disk.specs.Disks.{Disks};
ghost use Rattle.bx_disk.specs.Kept.{Counted};
ghost use Rattle.bx_facts.specs.Chains.{last};
ghost use Rattle.bx_facts.specs.Disks.{NeedsNoMore, HasRoom, NeedsAt, wanted_by};
ghost use Rattle.bx_facts.specs.Machines.{OnlyAt, OnlyFactsAt, IsMachine, disk_of};
ghost use Rattle.bx_facts.specs.Writes.{store_room};
ghost use Rattle.bx_facts.specs.declared.input.FactError.TheVariants.{Disk as DiskFails};
ghost use Rattle.bx_nodes.specs.Asks.{Later};
ghost use Rattle.bx_node_steps.specs.Calls.{AreApart};
ghost use Rattle.bx_nodes.specs.Standing.{BeReady, OfNode, Stand, StandBut};
ghost use Rattle.bx_nodes.specs.Starting.{MayStart, Starts, with_boot, with_try};
ghost use Rattle.bx_nodes.specs.Stopping.{Empties, IsDown, with_down};
ghost use Rattle.bx_places.specs.Places.{replica_sectors};
ghost use Rattle.bx_post.specs.declared.packets.Letter.{Letter};
ghost use Rattle.bx_world_standing.specs.Parts.{Clocks};
ghost use Rattle.bx_world_standing.specs.Standing.{Course};
ghost use Rattle.bx_world_volumes.specs.Left.{MayShow};

use crate::nodes::Nodes;
use bx_base::Actor;
use bx_disk::Rack;
use bx_facts::{FactError, Owners, Register, Store};
use bx_node_steps::Machine;
use bx_post::Outbox;
use bx_views::Engine;

impl<G: Register, O: Owners, S: Store, E: Engine> Nodes<G, O, S, E> {
    /// A machine stops. A node then has nothing: no session, calls or blocks; what its session holds stays held, and a write of it that was out may still be
    /// taken. It takes no memory.
    pub fn crash(&mut self, who: Actor)
        ensures stands { (x : Disks) (letters : List Letter) (clocks : Clocks) (c : Course) (tree : E.Tree)
            → Stand G.Register O.Owners S.Store E.Engine self.old x letters clocks c tree
            → Later (λ later. Stand G.Register O.Owners S.Store E.Engine self.new x letters (with_down clocks who) later tree) c }
        ensures stops { (x : Disks) (letters : List Letter) (clocks : Clocks) (c : Course) (tree : E.Tree)
            → StandBut G.Register O.Owners S.Store E.Engine self.old x who letters clocks c tree
            → Later (λ later. Stand G.Register O.Owners S.Store E.Engine self.new x letters (with_down clocks who) later tree) c }
        ensures empties { Empties who self.old.machines.items self.new.machines.items }
        ensures apart { (node : ℕ) → OfNode self.old node AreApart → OfNode self.new node AreApart }
        ensures ready { (node : ℕ) → BeReady S.Store E.Engine self.old node → BeReady S.Store E.Engine self.new node }
        ensures down { IsDown G.Register S.Store self.new.register self.new.store who }
        ensures ended { (node : ℕ) → who ≡ Node node → (O.own self.new.owners node ≡ None) ⊎ (O.own self.new.owners node ≡ O.own self.old.owners node) }
        ensures own { (node : ℕ) → who ≢ Node node → (O.own self.new.owners node ≡ O.own self.old.owners node) × (O.end_of self.new.owners node ≡ O.end_of self.old.owners node) × (S.own self.new.store node ≡ S.own self.old.store node) }
        ensures holds { (node block : ℕ) → who ≢ Node node → (O.hold self.new.owners node block ≡ O.hold self.old.owners node block) × (O.request self.new.owners node block ≡ O.request self.old.owners node block) × (O.is_separate → O.asks self.new.owners node ≡ O.asks self.old.owners node) }
        ensures out { (node : ℕ) → who ≢ Node node → (S.out_of self.new.store node ≡ S.out_of self.old.store node) × (S.asked self.new.store node ≡ S.asked self.old.store node) × (S.answer self.new.store node ≡ S.answer self.old.store node) }
        ensures owes { S.is_separate → OnlyAt who (S.owes self.old.store) (S.owes self.new.store) }
        ensures busy { OnlyFactsAt who (G.is_busy self.old.register) (G.is_busy self.new.register) }
        ensures knows { (other : Actor) → G.knows self.new.register other ≡ G.knows self.old.register other }
        ensures needs { NeedsNoMore (G.needs self.old.register) (G.needs self.new.register) × NeedsNoMore (S.needs self.old.store) (S.needs self.new.store) }
        ensures made { (G.made self.new.register ≡ G.made self.old.register) × (G.nodes self.new.register ≡ G.nodes self.old.register) × (O.nodes self.new.owners ≡ O.nodes self.old.owners) × (S.made self.new.store ≡ S.made self.old.store) × (self.new.engine ≡ self.old.engine) }
    {
        self.register.crash(who);
        self.owners.crash(who);
        self.store.crash(who);
        self.empty(who);
    }

    /// A machine that is down starts again, with a boot above all that there were. A node has nothing then, and no session. At a disk fault the machine stays
    /// down, and nothing in the box is sent. For want of memory it isn't used again.
    pub fn restart<R: Rack>(
        &mut self,
        rack: &mut R,
        who: Actor,
        boot: u64,
        reading: u64,
        out: &mut Outbox,
    ) -> Result<(), FactError>
        requires there { IsMachine (G.nodes self.old.register) who × IsMachine ((S.made self.old.store).nodes) who }
        requires room { HasRoom (G.needs self.old.register) (R.state rack.old).sizes × HasRoom (S.needs self.old.store) (R.state rack.old).sizes }
        requires disk { HasRoom (wanted_by (disk_of who) replica_sectors) (R.state rack.old).sizes }
        requires member { (n : ℕ) → who ≡ Member n → HasRoom (wanted_by (disk_of who) (store_room (S.made self.old.store))) (R.state rack.old).sizes }
        ensures stands { (letters : List Letter) (clocks : Clocks) (c : Course) (tree : E.Tree) → R.tells rack.old → clocks.down who ≡ true → clocks.most < boot → clocks.greatest ≤ reading + 500
            → ((node : ℕ) → who ≡ Node node → MayStart O.by_boot (O.is_separate × S.is_separate) (last c.register.chain) node boot)
            → Stand G.Register O.Owners S.Store E.Engine self.old (R.state rack.old) (letters ++ out.old) clocks c tree
            → OnOk result (Starts (λ later. Stand G.Register O.Owners S.Store E.Engine self.new (R.state rack.new) (letters ++ out.new) (with_boot clocks who boot reading) later tree) c) }
        ensures failed { (letters : List Letter) (clocks : Clocks) (c : Course) (tree : E.Tree) → R.tells rack.old → clocks.down who ≡ true → clocks.most < boot → clocks.greatest ≤ reading + 500
            → Stand G.Register O.Owners S.Store E.Engine self.old (R.state rack.old) (letters ++ out.old) clocks c tree
            → IsErrOf result DiskFails → Starts (λ later. Stand G.Register O.Owners S.Store E.Engine self.new (R.state rack.new) (letters ++ out.old) (with_try clocks boot reading) later tree) c }
        ensures any_moment { (letters : List Letter) (clocks : Clocks) (c : Course) (tree : E.Tree) → R.tells rack.old → clocks.down who ≡ true → clocks.most < boot → clocks.greatest ≤ reading + 500
            → Stand G.Register O.Owners S.Store E.Engine self.old (R.state rack.old) (letters ++ out.old) clocks c tree
            → LeavesOnly (R.moment rack.old) (R.moment rack.new) (R.left_since rack.old) (R.left_since rack.new) (MayShow (G.reads_as (G.made self.old.register) (R.state rack.old).sizes) (S.made self.old.store) (R.state rack.old).sizes c) }
        ensures empties { Empties who self.old.machines.items self.new.machines.items }
        ensures apart { (node : ℕ) → OfNode self.old node AreApart → OfNode self.new node AreApart }
        ensures ready { (node : ℕ) → S.is_separate → BeReady S.Store E.Engine self.old node → OnOk result (BeReady S.Store E.Engine self.new node) }
        ensures ready_failed { (node : ℕ) → BeReady S.Store E.Engine self.old node → IsErr result → BeReady S.Store E.Engine self.new node }
        ensures none { O.is_separate → S.is_separate → (node : ℕ) → who ≡ Node node → OnOk result ((O.own self.new.owners node ≡ None) × (S.own self.new.store node ≡ None) × (S.out_of self.new.store node ≡ None) × (S.asked self.new.store node ≡ None)) }
        ensures own { (node : ℕ) → who ≢ Node node → (O.own self.new.owners node ≡ O.own self.old.owners node) × (O.end_of self.new.owners node ≡ O.end_of self.old.owners node) × (S.own self.new.store node ≡ S.own self.old.store node) }
        ensures out { (node : ℕ) → who ≢ Node node → (S.out_of self.new.store node ≡ S.out_of self.old.store node) × (S.asked self.new.store node ≡ S.asked self.old.store node) × (S.answer self.new.store node ≡ S.answer self.old.store node) }
        ensures owes { S.is_separate → OnlyAt who (S.owes self.old.store) (S.owes self.new.store) }
        ensures idle { OnOk result (G.is_busy self.new.register who → ⊥) }
        ensures busy { OnlyFactsAt who (G.is_busy self.old.register) (G.is_busy self.new.register) }
        ensures knows { OnlyAt who (G.knows self.old.register) (G.knows self.new.register) }
        ensures needs { NeedsAt who replica_sectors (G.needs self.old.register) (G.needs self.new.register) × NeedsAt who (store_room (S.made self.old.store)) (S.needs self.old.store) (S.needs self.new.store) }
        ensures made { (G.made self.new.register ≡ G.made self.old.register) × (G.nodes self.new.register ≡ G.nodes self.old.register) × (O.nodes self.new.owners ≡ O.nodes self.old.owners) × (S.made self.new.store ≡ S.made self.old.store) × (self.new.engine ≡ self.old.engine) }
        ensures rack { Counted R.Rack rack.old rack.new result DiskFails }
    {
        self.empty(who);
        let stored = self.store.restart(rack, who, boot, reading);
        if stored.is_err() {
            self.store.crash(who);
            return stored;
        }
        self.owners.restart(who, boot, reading);
        let started = self.register.restart(rack, who, boot, out);
        if started.is_err() {
            self.owners.crash(who);
            self.store.crash(who);
        }
        started
    }

    /// The machine, where it is a node, has nothing any more.
    pub(crate) fn empty(&mut self, who: Actor)
        ensures empties { Empties who self.old.machines.items self.new.machines.items }
        ensures same { ((node : ℕ) → who ≡ Node node → slice_get self.old.machines.items node ≡ None) → self.new.machines.items ≡ self.old.machines.items }
        ensures parts { (self.new.register ≡ self.old.register) × (self.new.owners ≡ self.old.owners) × (self.new.store ≡ self.old.store) × (self.new.engine ≡ self.old.engine) }
    {
        let Actor::Node(node) = who else {
            return;
        };
        if let Some(machine) = self.machines.get_mut(node as usize) {
            let (devices, areas) = machine.cache.volume();
            *machine = Machine::new(self.alloc, devices, areas);
        }
    }
}
