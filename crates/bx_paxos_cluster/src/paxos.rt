//! The register.

ghost use Rattle.std.specs.Prelude.{◌≡◌, ◌≢◌, ℕ, ◌+◌, ◌^◌, ◌<◌, ◌≤◌, ◌⊎◌, ◌↔◌, false, true, length, IfOk, IfSome, IsErrOf, IsTrue, OnErr, OnOk};
ghost use Rattle.bx_acceptor.specs.Starting.{StartsWith};
ghost use Rattle.bx_base.specs.declared.names.Actor.{Actor};
ghost use Rattle.bx_base.specs.declared.names.Actor.TheVariants.{Replica};
ghost use Rattle.bx_calls.specs.Calls.{LeavesOnly};
ghost use Rattle.bx_disk.specs.Disks.{Disks};
ghost use Rattle.bx_disk.specs.Counts.{NoneRose};
ghost use Rattle.bx_disk.specs.Kept.{Counted};
ghost use Rattle.bx_facts.specs.Chains.{IsAboveBoots, IsNext, last, most_boot};
ghost use Rattle.bx_facts.specs.Disks.{HasRoom, NeedsAt, NeedsNoMore, OnlyDiskOf, ReadsOnly, SameDisks, SameLabels, SameMembers, wanted_by};
ghost use Rattle.bx_facts.specs.Inputs.{IsRegisters, SendsOnly};
ghost use Rattle.bx_facts.specs.Machines.{IsMachine, OnlyAt, OnlyFactsAt, disk_of};
ghost use Rattle.bx_facts.specs.Pasts.{Decides, MayHear, RegisterPast, found_register, opening_register, proposing, register_crashed, register_failed, register_restarted, register_with};
ghost use Rattle.bx_facts.specs.declared.input.FactError.TheVariants.{Disk as DiskFails, OutOfMemory as MemoryFails};
ghost use Rattle.bx_facts.specs.declared.input.OpenError.TheVariants.{Disk as OpenFails, NoLabel, NoMajority, Spent};
ghost use Rattle.bx_facts.specs.declared.input.ProposeError.TheVariants.{NotLegal, Busy};
ghost use Rattle.bx_global.specs.Allowed.{IsAllowed};
ghost use Rattle.bx_global.specs.Table.{IsLegal};
ghost use Rattle.bx_paxos_machines.specs.bx_paxos.specs.Reading.{ReadsState};
ghost use Rattle.bx_paxos_machines.specs.bx_paxos_found.specs.Finding.{AreAtTheEnd, AreFollowed, IsGreatestBoot, LackMajority};
ghost use Rattle.bx_places.specs.Places.{replica_sectors};
ghost use Rattle.bx_paxos_machines.specs.Beginning.{AreNew};
ghost use Rattle.bx_paxos_machines.specs.Cluster.{Moves, OnlyMachine, is_busy, knows, needs};
ghost use Rattle.bx_paxos_machines.specs.Keeps.{Keeps};
ghost use Rattle.bx_paxos_machines.specs.Parts.{KnowsNoLess, MachineStarts, MachineTakes, acceptor_of, proposer_of};
ghost use Rattle.bx_proposer.specs.Standing.{ProposesTo};

use bx_base::{Actor, OutOfMemory};
use bx_disk::Rack;
use bx_facts::{FactError, Input, OpenError, Outbox, ProposeError};
use bx_global::{Change, GlobalState};
use bx_paxos_machines::paxos_found::{Origins, find};
use bx_paxos_machines::{Machine, begin_anew, make_all, place_of};
use std::alloc::Global;
use std::marker::Model;

/// The register of three replicas, with all machines of a cluster of at most sixteen nodes. What comes to a machine goes to that one alone.
#[derive(Drop)]
pub struct Paxos {
    pub(crate) alloc: Global,
    pub(crate) nodes: u32,
    pub(crate) made: GlobalState,
    pub(crate) first: GlobalState,
    pub(crate) origins: Origins,
    pub(crate) machines: Vec<Machine>,
}

impl Model for Paxos {
    ghost use Rattle.bx_paxos_machines.specs.Cluster.{Cluster, IsCluster};

    ghost Value = { Cluster };

    ghost view = { λ p. record { nodes = p.nodes; made = p.made; first = p.first; origins = p.origins; machines = p.machines.items } };

    ghost invariant = { λ p. IsCluster (record { nodes = p.nodes; made = p.made; first = p.first; origins = p.origins; machines = p.machines.items }) };
}

impl Paxos {
    /// The register of a cluster of so many nodes, at most sixteen, that is made with a state. Nothing was done with it, and its machines have
    /// no cells yet: `format` writes them.
    pub fn new(alloc: Global, nodes: u32, state: GlobalState) -> Result<Paxos, OutOfMemory>
        requires few { nodes ≤ 16 }
        requires state { IsAllowed state }
        requires index { state.index + 1 < 2 ^ 64 }
        ensures made { IfOk result (λ g. (g.made ≡ state) × (g.nodes ≡ nodes)) }
        ensures knows { IfOk result (λ g. (who : Actor) → knows g who ≡ state) }
        ensures idle { IfOk result (λ g. (who : Actor) → is_busy g who → ⊥) }
        ensures needs { IfOk result (λ g. (disk : ℕ) → needs g disk ≡ 0) }
        ensures new { IfOk result (λ g. (g.first ≡ g.made) × AreNew g.first g.machines) }
    {
        let origins = Origins::made();
        let first = state.copy(alloc)?;
        let machines = make_all(alloc, nodes, &first, &origins)?;
        Ok(Paxos {
            alloc,
            nodes,
            made: state,
            first,
            origins,
            machines,
        })
    }

    /// Writes what the replicas' disks hold of the state that it was made with, and begins anew: every machine is up and knows that state.
    pub fn format<R: Rack>(&mut self, rack: &mut R) -> Result<(), FactError>
        requires room { (n : ℕ) → n < 3 → HasRoom (wanted_by (disk_of (Replica n)) replica_sectors) (R.state rack.old).sizes }
        ensures keeps { R.tells rack.old → OnOk result (Keeps self.new (R.state rack.new) (opening_register self.old.made)) }
        ensures knows { (who : Actor) → OnOk result (knows self.new who ≡ self.old.made) }
        ensures idle { (who : Actor) → OnOk result (is_busy self.new who → ⊥) }
        ensures failed { OnErr result (self.new ≡ self.old) }
        ensures made { (self.new.made ≡ self.old.made) × (self.new.nodes ≡ self.old.nodes) }
        ensures members { R.tells rack.old → SameMembers (R.state rack.old) (R.state rack.new) × SameLabels (R.state rack.old) (R.state rack.new) }
        ensures memory { IsErrOf result MemoryFails → NoneRose (R.faults rack.old) (R.faults rack.new) (R.faults_of rack.old) (R.faults_of rack.new) }
        ensures rack { Counted R.Rack rack.old rack.new result DiskFails }
    {
        let origins = Origins::made();
        let first = self.made.copy(self.alloc)?;
        let machines = begin_anew(self.alloc, rack, self.nodes, &first, &origins)?;
        self.first = first;
        self.origins = origins;
        self.machines = machines;
        Ok(())
    }

    /// Begins with the state that the disks are read as, which every machine knows then; each is to start again before it does anything, and
    /// needs no disk until then. The answer is the greatest boot in the cells of replicas that are labelled; one whose disk isn't there, or
    /// lacks sectors, has no label. `NoMajority` exactly where fewer than two are labelled and have a cell that can be read, or no index is left behind the state; else `Spent`
    /// exactly where the greatest boot is that one, and is above 4611686018427387903. After an error all is as it was.
    pub fn open<R: Rack>(&mut self, rack: &mut R) -> Result<u64, OpenError>
        ensures keeps { R.tells rack.old → IfOk result (λ boot. Keeps self.new (R.state rack.new) (found_register (knows self.new (Replica 0)) boot)) }
        ensures found { R.tells rack.old → OnOk result (ReadsState self.old.made (R.state rack.old).sizes (R.state rack.old).reads (knows self.new (Replica 0))) }
        ensures index { OnOk result ((knows self.new (Replica 0)).index + 1 < 2 ^ 64) }
        ensures no_majority { R.tells rack.old → IsErrOf result NoMajority → LackMajority (length self.old.made.devices) (R.state rack.old).sizes (R.state rack.old).reads ⊎ AreAtTheEnd (length self.old.made.devices) (R.state rack.old).sizes (R.state rack.old).reads }
        ensures majority { R.tells rack.old → OnOk result (LackMajority (length self.old.made.devices) (R.state rack.old).sizes (R.state rack.old).reads → ⊥) }
        ensures spent { (boot : ℕ) → R.tells rack.old → IsErrOf result (Spent boot) → IsGreatestBoot (length self.old.made.devices) (R.state rack.old).sizes (R.state rack.old).reads boot × AreFollowed (length self.old.made.devices) (R.state rack.old).sizes (R.state rack.old).reads }
        ensures above { (boot : ℕ) → IsErrOf result (Spent boot) → most_boot < boot }
        ensures greatest { R.tells rack.old → IfOk result (λ boot. IsGreatestBoot (length self.old.made.devices) (R.state rack.old).sizes (R.state rack.old).reads boot) }
        ensures few { IfOk result (λ boot. boot ≤ most_boot) }
        ensures no_label { (disk : ℕ) → IsErrOf result (NoLabel disk) → ⊥ }
        ensures boots { IfOk result (λ boot. IsAboveBoots (knows self.new (Replica 0)) (boot + 1)) }
        ensures knows { (who : Actor) → OnOk result (knows self.new who ≡ knows self.new (Replica 0)) }
        ensures idle { (who : Actor) → OnOk result (is_busy self.new who → ⊥) }
        ensures needs { (disk : ℕ) → OnOk result (needs self.new disk ≡ 0) }
        ensures failed { OnErr result (self.new ≡ self.old) }
        ensures made { (self.new.made ≡ self.old.made) × (self.new.nodes ≡ self.old.nodes) }
        ensures disks { R.tells rack.old → SameDisks (R.state rack.old) (R.state rack.new) }
        ensures rack { Counted R.Rack rack.old rack.new result OpenFails }
    {
        let devices = self.made.devices.len() as u32;
        let found = find(self.alloc, rack, devices)?;
        let Ok(machines) = make_all(self.alloc, self.nodes, &found.state, &found.origins) else {
            return Err(OpenError::OutOfMemory);
        };
        self.first = found.state;
        self.origins = found.origins;
        self.machines = machines;
        Ok(found.boot)
    }

    /// Whether this is one of the cluster's machines. It takes no memory.
    pub fn has(&self, who: Actor) -> bool
        ensures { IsTrue result ↔ IsMachine self.now.nodes who }
    {
        match who {
            Actor::Node(n) => n < self.nodes,
            Actor::Replica(n) => n < 3,
            Actor::Server(n) => n < 2,
            Actor::Member(n) => n < 8,
        }
    }

    /// The state that a machine knows. It takes no memory.
    pub fn known(&self, who: Actor) -> &GlobalState
        requires there { IsMachine self.now.nodes who }
        ensures knows { result.now ≡ knows self.now who }
        ensures allowed { IsAllowed result.now }
    {
        let place = place_of(&self.machines, &who);
        self.machines[place].known()
    }

    /// Hands a change to a machine, which tries to have it decided. `NotLegal` exactly where it isn't legal on what the machine knows; else
    /// `Busy` exactly where the machine has a proposal out.
    pub fn propose(
        &mut self,
        who: Actor,
        change: &Change,
        out: &mut Outbox,
    ) -> Result<(), ProposeError>
        requires there { IsMachine self.old.nodes who }
        ensures keeps { (x : Disks) (past : RegisterPast) → Keeps self.old x (register_with past out.old) → past.down who ≡ false → OnOk result (Keeps self.new x (register_with (proposing past change.now) out.new)) }
        ensures refused { IsErrOf result NotLegal ⊎ IsErrOf result Busy → (self.new ≡ self.old) × (out.new ≡ out.old) }
        ensures legal { OnOk result (IsLegal (knows self.old who) change.now × (is_busy self.old who → ⊥) × is_busy self.new who) }
        ensures not_legal { IsErrOf result NotLegal → IsLegal (knows self.old who) change.now → ⊥ }
        ensures busy { IsErrOf result Busy → IsLegal (knows self.old who) change.now × is_busy self.old who }
        ensures others { OnlyFactsAt who (is_busy self.old) (is_busy self.new) }
        ensures knows { (other : Actor) → knows self.new other ≡ knows self.old other }
        ensures proposes { OnOk result (Moves who (λ m new. ProposesTo (proposer_of m) change.now (proposer_of new) out.old out.new × (acceptor_of new ≡ acceptor_of m)) self.old self.new) }
        ensures only { OnlyMachine who self.old self.new }
        ensures needs { NeedsNoMore (needs self.old) (needs self.new) }
        ensures sent { OnOk result (SendsOnly IsRegisters out.old out.new) }
        ensures made { (self.new.made ≡ self.old.made) × (self.new.nodes ≡ self.old.nodes) }
    {
        let place = place_of(&self.machines, &who);
        self.machines[place].propose(change, out)
    }

    /// A machine stops, and needs no disk then. It takes no memory.
    pub fn crash(&mut self, who: Actor)
        ensures keeps { (x : Disks) (past : RegisterPast) → Keeps self.old x past → Keeps self.new x (register_crashed past who) }
        ensures others { OnlyFactsAt who (is_busy self.old) (is_busy self.new) }
        ensures idle { is_busy self.new who → ⊥ }
        ensures knows { (other : Actor) → knows self.new other ≡ knows self.old other }
        ensures only { OnlyMachine who self.old self.new }
        ensures needs { NeedsNoMore (needs self.old) (needs self.new) }
        ensures down { (n : ℕ) → who ≡ Replica n → needs self.new n ≡ 0 }
        ensures made { (self.new.made ≡ self.old.made) × (self.new.nodes ≡ self.old.nodes) }
    {
        if !self.has(who) {
            return;
        }
        let place = place_of(&self.machines, &who);
        self.machines[place].crash();
    }

    /// Does one event of a machine. At a disk fault what is in the box isn't sent. For want of memory it isn't used again, and no disk failed.
    pub fn take<R: Rack>(
        &mut self,
        rack: &mut R,
        at: Actor,
        input: &Input,
        out: &mut Outbox,
    ) -> Result<(), FactError>
        requires there { IsMachine self.old.nodes at }
        requires room { HasRoom (needs self.old) (R.state rack.old).sizes }
        ensures keeps { (past : RegisterPast) → R.tells rack.old → Keeps self.old (R.state rack.old) (register_with past out.old) → MayHear (register_with past out.old) at input.now → OnOk result (Decides (Keeps self.new (R.state rack.new)) (knows self.new at) (register_with past out.new)) }
        ensures keeps_faulted { (past : RegisterPast) → R.tells rack.old → Keeps self.old (R.state rack.old) (register_with past out.old) → MayHear (register_with past out.old) at input.now → IsErrOf result DiskFails → Keeps self.new (R.state rack.new) (register_with past out.old) }
        ensures any_moment { (past : RegisterPast) → R.tells rack.old → Keeps self.old (R.state rack.old) (register_with past out.old) → MayHear (register_with past out.old) at input.now → LeavesOnly (R.moment rack.old) (R.moment rack.new) (R.left_since rack.old) (R.left_since rack.new) (ReadsOnly (ReadsState self.old.made) (R.state rack.old) (IsNext past.proposed (last past.chain))) }
        ensures steps { OnOk result (Moves at (λ m new. MachineTakes m input.now new out.old out.new (rack.new ≡ rack.old) × KnowsNoLess new) self.old self.new) }
        ensures only { OnlyMachine at self.old self.new }
        ensures rises { (who : Actor) → (knows self.old who).index ≤ (knows self.new who).index }
        ensures knows { OnlyAt at (knows self.old) (knows self.new) }
        ensures others { OnlyFactsAt at (is_busy self.old) (is_busy self.new) }
        ensures still_busy { is_busy self.old at → (knows self.new at).index ≡ (knows self.old at).index → OnOk result (is_busy self.new at) }
        ensures was_busy { OnOk result (is_busy self.new at → is_busy self.old at × ((knows self.new at).index ≡ (knows self.old at).index)) }
        ensures needs { NeedsNoMore (needs self.old) (needs self.new) }
        ensures sent { OnOk result (SendsOnly IsRegisters out.old out.new) }
        ensures made { (self.new.made ≡ self.old.made) × (self.new.nodes ≡ self.old.nodes) }
        ensures members { R.tells rack.old → SameMembers (R.state rack.old) (R.state rack.new) × SameLabels (R.state rack.old) (R.state rack.new) }
        ensures disks { R.tells rack.old → OnlyDiskOf at (R.state rack.old) (R.state rack.new) }
        ensures memory { IsErrOf result MemoryFails → NoneRose (R.faults rack.old) (R.faults rack.new) (R.faults_of rack.old) (R.faults_of rack.new) }
        ensures rack { Counted R.Rack rack.old rack.new result DiskFails }
    {
        let place = place_of(&self.machines, &at);
        self.machines[place].take(rack, input, out)
    }

    /// A machine that is down starts again, with a boot above those that it had or that were found. It has no proposal out then.
    pub fn restart<R: Rack>(
        &mut self,
        rack: &mut R,
        who: Actor,
        boot: u64,
        out: &mut Outbox,
    ) -> Result<(), FactError>
        requires there { IsMachine self.old.nodes who }
        requires disk { HasRoom (wanted_by (disk_of who) replica_sectors) (R.state rack.old).sizes }
        ensures keeps { (past : RegisterPast) → R.tells rack.old → Keeps self.old (R.state rack.old) (register_with past out.old) → past.boots who < boot → OnOk result (Keeps self.new (R.state rack.new) (register_with (register_restarted past who boot) out.new)) }
        ensures keeps_faulted { (past : RegisterPast) → R.tells rack.old → Keeps self.old (R.state rack.old) (register_with past out.old) → past.boots who < boot → IsErrOf result DiskFails → Keeps self.new (R.state rack.new) (register_with (register_failed past who boot) out.old) }
        ensures any_moment { (past : RegisterPast) → R.tells rack.old → Keeps self.old (R.state rack.old) (register_with past out.old) → LeavesOnly (R.moment rack.old) (R.moment rack.new) (R.left_since rack.old) (R.left_since rack.new) (ReadsOnly (ReadsState self.old.made) (R.state rack.old) (IsNext past.proposed (last past.chain))) }
        ensures starts { R.tells rack.old → OnOk result (Moves who (λ _ new. IfSome (acceptor_of new) (λ a. StartsWith a.replica a.first a.origin ((R.state rack.old).reads a.replica) a.held a.cell)) self.old self.new) }
        ensures restarts { OnOk result (Moves who (λ m new. MachineStarts m boot new out.old out.new × KnowsNoLess new) self.old self.new) }
        ensures only { OnlyMachine who self.old self.new }
        ensures knows { OnlyAt who (knows self.old) (knows self.new) }
        ensures others { OnlyFactsAt who (is_busy self.old) (is_busy self.new) }
        ensures idle { OnOk result (is_busy self.new who → ⊥) }
        ensures needs { NeedsAt who replica_sectors (needs self.old) (needs self.new) }
        ensures sent { OnOk result (SendsOnly IsRegisters out.old out.new) }
        ensures made { (self.new.made ≡ self.old.made) × (self.new.nodes ≡ self.old.nodes) }
        ensures members { R.tells rack.old → SameMembers (R.state rack.old) (R.state rack.new) × SameLabels (R.state rack.old) (R.state rack.new) }
        ensures disks { R.tells rack.old → OnlyDiskOf who (R.state rack.old) (R.state rack.new) }
        ensures rack { Counted R.Rack rack.old rack.new result DiskFails }
    {
        let place = place_of(&self.machines, &who);
        self.machines[place].restart(rack, boot, out)
    }
}
