//! One machine of a register.

ghost use Rattle.std.specs.Prelude.{◌≡◌, ◌≢◌, ℕ, ◌<◌, ◌≤◌, ◌⊎◌, ◌++◌, None, IfSome, IsErrOf, IsSome, OnOk};
ghost use Rattle.bx_acceptor.specs.Starting.{StartsWith};
ghost use Rattle.bx_acceptor.specs.declared.origin.Origin.TheVariants.{Made};
ghost use Rattle.bx_calls.specs.Calls.{KeepsAll, LeavesOnly};
ghost use Rattle.bx_disk.specs.Disks.{Disks};
ghost use Rattle.bx_disk.specs.Counts.{NoneRose};
ghost use Rattle.bx_disk.specs.Kept.{Counted};
ghost use Rattle.bx_facts.specs.Chains.{IsNext, last};
ghost use Rattle.bx_facts.specs.Disks.{OnlyDiskOf, ReadsOnly, SameDisks, SameLabels, SameMembers};
ghost use Rattle.bx_facts.specs.Inputs.{IsComing, IsRegisters, SendsOnly};
ghost use Rattle.bx_facts.specs.Pasts.{Decides, RegisterPast, proposing, register_failed, register_restarted, register_with};
ghost use Rattle.bx_facts.specs.declared.input.FactError.TheVariants.{Disk as DiskFails, OutOfMemory as MemoryFails};
ghost use Rattle.bx_facts.specs.declared.input.ProposeError.TheVariants.{NotLegal, Busy};
ghost use Rattle.bx_global.specs.Table.{IsLegal};
ghost use Rattle.bx_global.specs.Allowed.{IsAllowed};
ghost use Rattle.bx_paxos.specs.Fits.{Fits, Turned, Voters, going};
ghost use Rattle.bx_paxos.specs.Reading.{AreMade, ReadsState};
ghost use Rattle.bx_paxos_found.specs.Origins.{origin_in};
ghost use Rattle.bx_paxos_found.specs.declared.origins.Origins.{Origins};
ghost use Rattle.bx_proposer.specs.Standing.{ProposesTo};
ghost use Rattle.bx_rounds.specs.Courses.{LeadsOn, stopped};
ghost use Rattle.bx_rounds.specs.declared.course.Course.{Course};
ghost use Rattle.bx_paxos_machines.specs.Beginning.{HasFirst, IsBegun, IsCalm, IsNew};
ghost use Rattle.bx_paxos_machines.specs.Parts.{HasCellDisk, HasCells, HasDisk, IsOf, IsOut, IsPart, IsWhole, KnowsNoLess, KnowsPlace, MachineStarts, MachineTakes, acceptor_of, cell_of, course_of, name_of, proposer_of};

use bx_base::Actor;
use bx_disk::Rack;
use bx_facts::{FactError, Input, Outbox, ProposeError};
use bx_global::{Change, GlobalState};
use bx_paxos::Replica;
use bx_proposer::Proposer;

/// One machine of a register.
#[derive(Drop)]
pub enum Machine {
    /// A replica, which accepts and proposes.
    Replica(Replica),
    /// Any other machine, which proposes.
    Other(Proposer),
}

impl Machine {
    /// Its name.
    pub fn name(&self) -> Actor
        ensures { result ≡ name_of self.now }
    {
        match self {
            Machine::Replica(replica) => replica.proposer.at(),
            Machine::Other(proposer) => proposer.at(),
        }
    }

    /// The state that it knows.
    pub fn known(&self) -> &GlobalState
        ensures { result.now ≡ (course_of self.now).known }
    {
        match self {
            Machine::Replica(replica) => replica.known(),
            Machine::Other(proposer) => proposer.known(),
        }
    }

    /// Proposes a change. `NotLegal` exactly where it isn't legal on what the machine knows; else `Busy` exactly where it has a proposal out.
    pub fn propose(&mut self, change: &Change, out: &mut Outbox) -> Result<(), ProposeError>
        requires whole { IsWhole self.old }
        ensures keeps { (v : Voters) (x : Disks) (past : RegisterPast) (courses : ℕ → Course) → IsOf v self.old → Fits v x (register_with past out.old)
            → OnOk result (Turned (proposer_of self.old).actor (course_of self.new) v.courses courses → Fits (going v courses) x (register_with (proposing past change.now) out.new)) }
        ensures proposes { OnOk result (ProposesTo (proposer_of self.old) change.now (proposer_of self.new) out.old out.new) }
        ensures legal { OnOk result (IsLegal (course_of self.old).known change.now × (IsOut self.old → ⊥)) }
        ensures not_legal { IsErrOf result NotLegal → IsLegal (course_of self.old).known change.now → ⊥ }
        ensures busy { IsErrOf result Busy → IsLegal (course_of self.old).known change.now × IsOut self.old }
        ensures refused { IsErrOf result NotLegal ⊎ IsErrOf result Busy → (self.new ≡ self.old) × (out.new ≡ out.old) }
        ensures out { OnOk result (IsOut self.new) }
        ensures known { (course_of self.new).known ≡ (course_of self.old).known }
        ensures sent { OnOk result (SendsOnly IsRegisters out.old out.new) }
        ensures part { (nodes : ℕ) (made : GlobalState) (origins : Origins) → IsPart nodes made origins self.old → IsPart nodes made origins self.new }
        ensures name { name_of self.new ≡ name_of self.old }
        ensures acceptor { acceptor_of self.new ≡ acceptor_of self.old }
    {
        match self {
            Machine::Replica(replica) => replica.propose(change, out),
            Machine::Other(proposer) => proposer.propose(change, out),
        }
    }

    /// Takes what comes.
    pub fn take<R: Rack>(
        &mut self,
        rack: &mut R,
        input: &Input,
        out: &mut Outbox,
    ) -> Result<(), FactError>
        requires whole { IsWhole self.old }
        requires room { HasCellDisk (R.state rack.old).sizes self.old }
        ensures keeps { (v : Voters) (past : RegisterPast) (courses : ℕ → Course) → R.tells rack.old → IsOf v self.old → HasCells self.old (R.state rack.old) → KnowsPlace past.chain self.old
            → IsComing (past.letters ++ out.old) input.now → Fits v (R.state rack.old) (register_with past out.old)
            → OnOk result (Turned (proposer_of self.old).actor (course_of self.new) v.courses courses → Decides (Fits (going v courses) (R.state rack.new)) (course_of self.new).known (register_with past out.new)) }
        ensures keeps_faulted { (v : Voters) (past : RegisterPast) → R.tells rack.old → IsOf v self.old → HasCells self.old (R.state rack.old)
            → IsComing (past.letters ++ out.old) input.now → Fits v (R.state rack.old) (register_with past out.old) → IsErrOf result DiskFails → Fits v (R.state rack.new) (register_with past out.old) }
        ensures any_moment { (v : Voters) (past : RegisterPast) → R.tells rack.old → IsOf v self.old → HasCells self.old (R.state rack.old)
            → IsComing (past.letters ++ out.old) input.now → Fits v (R.state rack.old) (register_with past out.old)
            → LeavesOnly (R.moment rack.old) (R.moment rack.new) (R.left_since rack.old) (R.left_since rack.new) (ReadsOnly (ReadsState v.first) (R.state rack.old) (IsNext past.proposed (last past.chain))) }
        ensures places { (v : Voters) (past : RegisterPast) → R.tells rack.old → IsOf v self.old → HasCells self.old (R.state rack.old) → KnowsPlace past.chain self.old
            → IsComing (past.letters ++ out.old) input.now → Fits v (R.state rack.old) (register_with past out.old) → KnowsPlace past.chain self.new }
        ensures cells { R.tells rack.old → HasCells self.old (R.state rack.old) → OnOk result (HasCells self.new (R.state rack.new)) }
        ensures fault { IsErrOf result DiskFails → (cell_of self.new ≡ None) × (course_of self.new ≡ course_of self.old) }
        ensures leads { OnOk result (LeadsOn (course_of self.old) (course_of self.new)) }
        ensures steps { OnOk result (MachineTakes self.old input.now self.new out.old out.new (rack.new ≡ rack.old)) }
        ensures knows_all { OnOk result (KnowsNoLess self.new) }
        ensures stays_up { OnOk result (IfSome (cell_of self.old) (λ _. IsSome (cell_of self.new))) }
        ensures rises { (course_of self.old).known.index ≤ (course_of self.new).known.index }
        ensures down { cell_of self.old ≡ None → cell_of self.new ≡ None }
        ensures sent { OnOk result (SendsOnly IsRegisters out.old out.new) }
        ensures part { (nodes : ℕ) (made : GlobalState) (origins : Origins) → IsPart nodes made origins self.old → IsPart nodes made origins self.new }
        ensures name { name_of self.new ≡ name_of self.old }
        ensures disks { R.tells rack.old → OnlyDiskOf (name_of self.old) (R.state rack.old) (R.state rack.new) }
        ensures members { R.tells rack.old → SameMembers (R.state rack.old) (R.state rack.new) × SameLabels (R.state rack.old) (R.state rack.new) }
        ensures memory { IsErrOf result MemoryFails → NoneRose (R.faults rack.old) (R.faults rack.new) (R.faults_of rack.old) (R.faults_of rack.new) }
        ensures rack { Counted R.Rack rack.old rack.new result DiskFails }
    {
        match self {
            Machine::Replica(replica) => replica.take(rack, input, out),
            Machine::Other(proposer) => Ok(proposer.take(input, out)?),
        }
    }

    /// Stops. What it knows stays. It takes no memory.
    pub fn crash(&mut self)
        requires whole { IsWhole self.old }
        ensures course { course_of self.new ≡ stopped (course_of self.old) }
        ensures down { cell_of self.new ≡ None }
        ensures places { (past : RegisterPast) → KnowsPlace past.chain self.old → KnowsPlace past.chain self.new }
        ensures part { (nodes : ℕ) (made : GlobalState) (origins : Origins) → IsPart nodes made origins self.old → IsPart nodes made origins self.new }
        ensures name { name_of self.new ≡ name_of self.old }
    {
        match self {
            Machine::Replica(replica) => replica.crash(),
            Machine::Other(proposer) => proposer.crash(),
        }
    }

    /// Starts again, in a boot above those that it had; a replica with what its disk holds.
    pub fn restart<R: Rack>(
        &mut self,
        rack: &mut R,
        boot: u64,
        out: &mut Outbox,
    ) -> Result<(), FactError>
        requires whole { IsWhole self.old }
        requires room { HasDisk (R.state rack.old).sizes self.old }
        ensures keeps { (v : Voters) (past : RegisterPast) (courses : ℕ → Course) → R.tells rack.old → IsOf v self.old → v.nodes ≤ 16 → v.nodes ≡ (proposer_of self.old).nodes
            → past.boots (name_of self.old) < boot → Fits v (R.state rack.old) (register_with past out.old)
            → OnOk result (Turned (proposer_of self.old).actor (course_of self.new) v.courses courses → Fits (going v courses) (R.state rack.new) (register_with (register_restarted past (name_of self.old) boot) out.new)) }
        ensures keeps_faulted { (v : Voters) (past : RegisterPast) → R.tells rack.old → past.boots (name_of self.old) < boot → Fits v (R.state rack.old) (register_with past out.old)
            → IsErrOf result DiskFails → Fits v (R.state rack.new) (register_with (register_failed past (name_of self.old) boot) out.old) }
        ensures any_moment { (v : Voters) (past : RegisterPast) → R.tells rack.old → Fits v (R.state rack.old) (register_with past out.old)
            → LeavesOnly (R.moment rack.old) (R.moment rack.new) (R.left_since rack.old) (R.left_since rack.new) (ReadsOnly (ReadsState v.first) (R.state rack.old) (IsNext past.proposed (last past.chain))) }
        ensures places { (v : Voters) (past : RegisterPast) → R.tells rack.old → IsOf v self.old → Fits v (R.state rack.old) (register_with past out.old) → OnOk result (KnowsPlace past.chain self.new) }
        ensures cells { R.tells rack.old → OnOk result (HasCells self.new (R.state rack.new)) }
        ensures fault { IsErrOf result DiskFails → (cell_of self.new ≡ None) × (course_of self.new ≡ course_of self.old) }
        ensures places_faulted { (past : RegisterPast) → IsErrOf result DiskFails → KnowsPlace past.chain self.old → KnowsPlace past.chain self.new }
        ensures starts { R.tells rack.old → OnOk result (IfSome (acceptor_of self.new) (λ a. StartsWith a.replica a.first a.origin ((R.state rack.old).reads a.replica) a.held a.cell)) }
        ensures restarts { OnOk result (MachineStarts self.old boot self.new out.old out.new) }
        ensures knows_all { OnOk result (KnowsNoLess self.new) }
        ensures idle { OnOk result (IsOut self.new → ⊥) }
        ensures sent { OnOk result (SendsOnly IsRegisters out.old out.new) }
        ensures part { (nodes : ℕ) (made : GlobalState) (origins : Origins) → IsPart nodes made origins self.old → IsPart nodes made origins self.new }
        ensures name { name_of self.new ≡ name_of self.old }
        ensures disks { R.tells rack.old → OnlyDiskOf (name_of self.old) (R.state rack.old) (R.state rack.new) }
        ensures members { R.tells rack.old → SameMembers (R.state rack.old) (R.state rack.new) × SameLabels (R.state rack.old) (R.state rack.new) }
        ensures rack { Counted R.Rack rack.old rack.new result DiskFails }
    {
        match self {
            Machine::Replica(replica) => replica.restart(rack, boot, out),
            Machine::Other(proposer) => Ok(proposer.restart(boot, out)?),
        }
    }

    /// Starts for the first time, a replica with what its disk holds.
    pub fn begin<R: Rack>(&mut self, rack: &mut R) -> Result<(), FactError>
        requires whole { IsWhole self.old }
        requires room { HasDisk (R.state rack.old).sizes self.old }
        ensures begun { (nodes : ℕ) (made : GlobalState) (origins : Origins) → R.tells rack.old → IsPart nodes made origins self.old → AreMade (origin_in origins) → IsNew made self.old → HasFirst made (R.state rack.old).reads → OnOk result (IsBegun made (R.state rack.new) self.new) }
        ensures part { (nodes : ℕ) (made : GlobalState) (origins : Origins) → IsPart nodes made origins self.old → IsPart nodes made origins self.new }
        ensures name { name_of self.new ≡ name_of self.old }
        ensures course { course_of self.new ≡ course_of self.old }
        ensures calm { R.tells rack.old → IsCalm (R.state rack.old) (R.state rack.new) }
        ensures memory { IsErrOf result MemoryFails → NoneRose (R.faults rack.old) (R.faults rack.new) (R.faults_of rack.old) (R.faults_of rack.new) }
        ensures rack { Counted R.Rack rack.old rack.new result DiskFails }
    {
        match self {
            Machine::Replica(replica) => replica.acceptor.restart(rack),
            Machine::Other(_) => Ok(()),
        }
    }
}
