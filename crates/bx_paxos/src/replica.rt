//! The machine of a replica.

ghost use Rattle.std.specs.Prelude.{◌≡◌, ℕ, ◌<◌, ◌≤◌, ◌⊎◌, ◌++◌, None, IfSome, IsErrOf, IsSome, OnOk, slice_index};
ghost use Rattle.bx_acceptor.specs.Disks.{Syncs, Writes};
ghost use Rattle.bx_acceptor.specs.Standing.{HasCell, stopped as no_cell};
ghost use Rattle.bx_acceptor.specs.Starting.{StartsWith};
ghost use Rattle.bx_base.specs.declared.names.Actor.TheVariants.{Replica as OfReplica};
ghost use Rattle.bx_calls.specs.Calls.{LeavesOnly};
ghost use Rattle.bx_cell.specs.Images.{EachSure};
ghost use Rattle.bx_disk.specs.Disks.{Disks};
ghost use Rattle.bx_disk.specs.Counts.{NoneRose};
ghost use Rattle.bx_disk.specs.Kept.{CountedOn};
ghost use Rattle.bx_facts.specs.Chains.{IsPlace};
ghost use Rattle.bx_facts.specs.Inputs.{IsComing, IsRegisters, SendsOnly};
ghost use Rattle.bx_facts.specs.Pasts.{Decides, RegisterPast, proposing, register_failed, register_restarted, register_with};
ghost use Rattle.bx_facts.specs.declared.input.FactError.TheVariants.{Disk as DiskFails, OutOfMemory as MemoryFails};
ghost use Rattle.bx_facts.specs.declared.input.ProposeError.TheVariants.{NotLegal, Busy};
ghost use Rattle.bx_global.specs.Table.{IsLegal};
ghost use Rattle.bx_places.specs.Places.{replica_sectors};
ghost use Rattle.bx_rounds.specs.Courses.{LeadsOn, stopped};
ghost use Rattle.bx_proposer.specs.Standing.{IsBusy, ProposesTo, going_on};
ghost use Rattle.bx_rounds.specs.declared.course.Course.{Course};
ghost use Rattle.bx_paxos.specs.Fits.{Fits, Turned, Voters, going};
ghost use Rattle.bx_paxos.specs.Machines.{AreHalves, AreOf, IsSame, KnowsAll, StartsBoth, TakesBoth};
ghost use Rattle.bx_paxos.specs.Reading.{ReadsNext};

use bx_acceptor::Acceptor;
use bx_disk::Rack;
use bx_facts::{FactError, Input, Outbox, ProposeError};
use bx_global::{Change, GlobalState};
use bx_proposer::Proposer;

/// The machine of a replica: what comes to it goes to its acceptor and then to its proposer, which is told in between what the acceptor
/// knows.
#[derive(Drop)]
pub struct Replica {
    /// What promises and accepts.
    pub acceptor: Acceptor,
    /// What proposes and learns.
    pub proposer: Proposer,
}

impl Replica {
    /// The state that it knows.
    pub fn known(&self) -> &GlobalState
        ensures { result.now ≡ self.now.proposer.course.known }
    {
        self.proposer.known()
    }

    /// Takes what comes. Where a past led to it and to the disks, and what comes is one of its letters, that past led to it afterwards, with
    /// at most one change more in its chain and with what it sent.
    pub fn take<R: Rack>(
        &mut self,
        rack: &mut R,
        input: &Input,
        out: &mut Outbox,
    ) -> Result<(), FactError>
        requires halves { AreHalves self.old.acceptor self.old.proposer }
        requires room { IfSome self.old.acceptor.cell (λ _. replica_sectors ≤ slice_index (R.state rack.old).sizes self.old.acceptor.replica) }
        ensures keeps { (v : Voters) (past : RegisterPast) (courses : ℕ → Course) → R.tells rack.old → AreOf v self.old.acceptor self.old.proposer → EachSure (R.state rack.old) (HasCell self.old.acceptor) → IsPlace past.chain self.old.acceptor.held.decided
            → IsComing (past.letters ++ out.old) input.now → Fits v (R.state rack.old) (register_with past out.old)
            → OnOk result (Turned self.old.proposer.actor self.new.proposer.course v.courses courses → Decides (Fits (going v courses) (R.state rack.new)) self.new.proposer.course.known (register_with past out.new)) }
        ensures keeps_faulted { (v : Voters) (past : RegisterPast) → R.tells rack.old → AreOf v self.old.acceptor self.old.proposer → EachSure (R.state rack.old) (HasCell self.old.acceptor)
            → IsComing (past.letters ++ out.old) input.now → Fits v (R.state rack.old) (register_with past out.old)
            → IsErrOf result DiskFails → Fits v (R.state rack.new) (register_with past out.old) × (self.new.proposer ≡ self.old.proposer) }
        ensures any_moment { (v : Voters) (past : RegisterPast) → R.tells rack.old → AreOf v self.old.acceptor self.old.proposer → EachSure (R.state rack.old) (HasCell self.old.acceptor)
            → IsComing (past.letters ++ out.old) input.now → Fits v (R.state rack.old) (register_with past out.old)
            → LeavesOnly (R.moment rack.old) (R.moment rack.new) (R.left_since rack.old) (R.left_since rack.new) (ReadsNext v.first past (R.state rack.old).sizes) }
        ensures known { (v : Voters) (past : RegisterPast) → R.tells rack.old → AreOf v self.old.acceptor self.old.proposer → EachSure (R.state rack.old) (HasCell self.old.acceptor) → IsPlace past.chain self.old.acceptor.held.decided
            → IsComing (past.letters ++ out.old) input.now → Fits v (R.state rack.old) (register_with past out.old) → IsPlace past.chain self.new.acceptor.held.decided }
        ensures holds { R.tells rack.old → EachSure (R.state rack.old) (HasCell self.old.acceptor) → OnOk result (EachSure (R.state rack.new) (HasCell self.new.acceptor)) }
        ensures leads { OnOk result (LeadsOn self.old.proposer.course self.new.proposer.course) }
        ensures steps { OnOk result (TakesBoth self.old.acceptor self.old.proposer input.now self.new.acceptor self.new.proposer out.old out.new (rack.new ≡ rack.old)) }
        ensures knows_all { OnOk result (KnowsAll self.new.acceptor self.new.proposer) }
        ensures stays_up { OnOk result (IfSome self.old.acceptor.cell (λ _. IsSome self.new.acceptor.cell)) }
        ensures rises { self.old.proposer.course.known.index ≤ self.new.proposer.course.known.index }
        ensures down { self.old.acceptor.cell ≡ None → self.new.acceptor.cell ≡ None }
        ensures fault { IsErrOf result DiskFails → (self.new.acceptor.cell ≡ None) × (self.new.proposer ≡ self.old.proposer) }
        ensures sent { OnOk result (SendsOnly IsRegisters out.old out.new) }
        ensures halves { AreHalves self.new.acceptor self.new.proposer }
        ensures stays { IsSame self.old.acceptor self.new.acceptor self.old.proposer self.new.proposer }
        ensures disks { R.tells rack.old → Writes (R.state rack.old) (R.state rack.new) (R.moment rack.old) (R.moment rack.new) (R.left_since rack.old) (R.left_since rack.new) self.old.acceptor.replica }
        ensures memory { IsErrOf result MemoryFails → NoneRose (R.faults rack.old) (R.faults rack.new) (R.faults_of rack.old) (R.faults_of rack.new) }
        ensures rack { CountedOn R.Rack rack.old rack.new self.old.acceptor.replica result DiskFails }
    {
        self.acceptor.take(rack, input, out)?;
        self.proposer.learn(self.acceptor.known())?;
        self.proposer.take(input, out)?;
        Ok(())
    }

    /// Proposes a change. `NotLegal` exactly where it isn't legal on what the machine knows; else `Busy` exactly where it has a
    /// proposal out.
    pub fn propose(&mut self, change: &Change, out: &mut Outbox) -> Result<(), ProposeError>
        requires halves { AreHalves self.old.acceptor self.old.proposer }
        ensures keeps { (v : Voters) (x : Disks) (past : RegisterPast) (courses : ℕ → Course) → AreOf v self.old.acceptor self.old.proposer → Fits v x (register_with past out.old)
            → OnOk result (Turned self.old.proposer.actor self.new.proposer.course v.courses courses → Fits (going v courses) x (register_with (proposing past change.now) out.new)) }
        ensures proposes { OnOk result (ProposesTo self.old.proposer change.now self.new.proposer out.old out.new) }
        ensures legal { OnOk result (IsLegal self.old.proposer.course.known change.now × (IsBusy self.old.proposer → ⊥)) }
        ensures not_legal { IsErrOf result NotLegal → IsLegal self.old.proposer.course.known change.now → ⊥ }
        ensures busy { IsErrOf result Busy → IsLegal self.old.proposer.course.known change.now × IsBusy self.old.proposer }
        ensures refused { IsErrOf result NotLegal ⊎ IsErrOf result Busy → (self.new ≡ self.old) × (out.new ≡ out.old) }
        ensures out { OnOk result (IsBusy self.new.proposer) }
        ensures known { self.new.proposer.course.known ≡ self.old.proposer.course.known }
        ensures sent { OnOk result (SendsOnly IsRegisters out.old out.new) }
        ensures halves { AreHalves self.new.acceptor self.new.proposer }
        ensures stays { IsSame self.old.acceptor self.new.acceptor self.old.proposer self.new.proposer }
        ensures acceptor { self.new.acceptor ≡ self.old.acceptor }
    {
        self.proposer.propose(change, out)
    }

    /// Stops. What it knows stays. It takes no memory.
    pub fn crash(&mut self)
        requires halves { AreHalves self.old.acceptor self.old.proposer }
        ensures halves { AreHalves self.new.acceptor self.new.proposer }
        ensures acceptor { self.new.acceptor ≡ no_cell self.old.acceptor }
        ensures proposer { self.new.proposer ≡ going_on self.old.proposer (stopped self.old.proposer.course) }
    {
        self.acceptor.crash();
        self.proposer.crash();
    }

    /// Starts again, in a boot above those that it had, with what its disk holds.
    pub fn restart<R: Rack>(
        &mut self,
        rack: &mut R,
        boot: u64,
        out: &mut Outbox,
    ) -> Result<(), FactError>
        requires halves { AreHalves self.old.acceptor self.old.proposer }
        requires room { replica_sectors ≤ slice_index (R.state rack.old).sizes self.old.acceptor.replica }
        ensures keeps { (v : Voters) (past : RegisterPast) (courses : ℕ → Course) → R.tells rack.old → AreOf v self.old.acceptor self.old.proposer → v.nodes ≤ 16 → v.nodes ≡ self.old.proposer.nodes
            → past.boots (OfReplica self.old.acceptor.replica) < boot → Fits v (R.state rack.old) (register_with past out.old)
            → OnOk result (Turned self.old.proposer.actor self.new.proposer.course v.courses courses → Fits (going v courses) (R.state rack.new) (register_with (register_restarted past (OfReplica self.old.acceptor.replica) boot) out.new)) }
        ensures keeps_faulted { (v : Voters) (past : RegisterPast) → R.tells rack.old → past.boots (OfReplica self.old.acceptor.replica) < boot → Fits v (R.state rack.old) (register_with past out.old)
            → IsErrOf result DiskFails → Fits v (R.state rack.new) (register_with (register_failed past (OfReplica self.old.acceptor.replica) boot) out.old) }
        ensures any_moment { (v : Voters) (past : RegisterPast) → R.tells rack.old → Fits v (R.state rack.old) (register_with past out.old)
            → LeavesOnly (R.moment rack.old) (R.moment rack.new) (R.left_since rack.old) (R.left_since rack.new) (ReadsNext v.first past (R.state rack.old).sizes) }
        ensures known { (v : Voters) (past : RegisterPast) → R.tells rack.old → AreOf v self.old.acceptor self.old.proposer → Fits v (R.state rack.old) (register_with past out.old) → OnOk result (IsPlace past.chain self.new.acceptor.held.decided) }
        ensures holds { R.tells rack.old → OnOk result (EachSure (R.state rack.new) (HasCell self.new.acceptor)) }
        ensures starts { R.tells rack.old → OnOk result (StartsWith self.old.acceptor.replica self.old.acceptor.first self.old.acceptor.origin ((R.state rack.old).reads self.old.acceptor.replica) self.new.acceptor.held self.new.acceptor.cell) }
        ensures restarts { OnOk result (StartsBoth self.old.proposer boot self.new.acceptor self.new.proposer out.old out.new) }
        ensures knows_all { OnOk result (KnowsAll self.new.acceptor self.new.proposer) }
        ensures idle { OnOk result (IsBusy self.new.proposer → ⊥) }
        ensures failed { IsErrOf result DiskFails → (self.new.acceptor ≡ no_cell self.old.acceptor) × (self.new.proposer ≡ self.old.proposer) }
        ensures halves { AreHalves self.new.acceptor self.new.proposer }
        ensures stays { IsSame self.old.acceptor self.new.acceptor self.old.proposer self.new.proposer }
        ensures disks { R.tells rack.old → Syncs (R.state rack.old) (R.state rack.new) (R.moment rack.old) (R.moment rack.new) (R.left_since rack.old) (R.left_since rack.new) self.old.acceptor.replica }
        ensures rack { CountedOn R.Rack rack.old rack.new self.old.acceptor.replica result DiskFails }
    {
        self.acceptor.restart(rack)?;
        self.proposer.restart(boot, out)?;
        self.proposer.learn(self.acceptor.known())?;
        Ok(())
    }
}
