//! Proposers.

ghost use Rattle.std.specs.Prelude.{◌≡◌, ◌≤◌, ◌++◌, ◌⊎◌, ◌↔◌, IfOk, IsErrOf, IsTrue, OnErr, OnOk};
ghost use Rattle.bx_facts.specs.Machines.{IsMachine};
ghost use Rattle.bx_facts.specs.declared.input.ProposeError.TheVariants.{NotLegal, Busy};
ghost use Rattle.bx_global.specs.Allowed.{IsAllowed, IsChange};
ghost use Rattle.bx_global.specs.Table.{IsLegal};
ghost use Rattle.bx_packets.specs.Messages.{IsStateOf};
ghost use Rattle.bx_proposer.specs.Letters.{asks_of};
ghost use Rattle.bx_rounds.specs.Courses.{LeadsOn, started, stopped};
ghost use Rattle.bx_proposer.specs.Standing.{IsBusy, IsProposerView, ProposesTo, Takes, devices_of, going_on};
ghost use Rattle.bx_rounds.specs.Steps.{Learns};

use crate::letters::{ask, ask_at, tell};
use crate::names::{actor_number, others_of};
use bx_base::{Actor, List, OutOfMemory};
use bx_facts::{Input, Outbox, ProposeError};
use bx_global::{Change, GlobalState};
use bx_rounds::{Course, learn, propose, step};
use std::alloc::Global;
use std::marker::Model;

/// The proposer of a machine. It tries to have one change decided at a time, and learns what was decided. It counts replicas, and not
/// packets, and sends one state in a ballot.
#[derive(Drop)]
pub struct Proposer {
    alloc: Global,
    at: Actor,
    nodes: u32,
    first: GlobalState,
    actor: u32,
    others: List<Actor>,
    course: Course,
}

impl Model for Proposer {
    ghost use Rattle.bx_proposer.specs.Standing.{IsProposerView, ProposerView};

    ghost Value = { ProposerView };

    ghost view = { λ p. record { at = p.at; nodes = p.nodes; first = p.first; actor = p.actor; others = p.others; course = p.course } };

    ghost invariant = { λ p. IsProposerView (record { at = p.at; nodes = p.nodes; first = p.first; actor = p.actor; others = p.others; course = p.course }) };
}

impl Proposer {
    /// The proposer of a machine of a cluster of so many nodes that begins with a state.
    pub fn new(
        alloc: Global,
        at: Actor,
        nodes: u32,
        state: &GlobalState,
    ) -> Result<Proposer, OutOfMemory>
        requires machine { IsMachine nodes at }
        requires state { IsAllowed state.now }
        ensures made { IfOk result (λ p. (p.at ≡ at) × (p.nodes ≡ nodes) × (p.first ≡ state.now) × (p.course ≡ started 0 0 state.now)) }
        ensures standing { IfOk result IsProposerView }
    {
        let devices = state.devices.len() as u32;
        let others = others_of(alloc, at, nodes, devices)?;
        Ok(Proposer {
            alloc,
            at,
            nodes,
            first: state.copy(alloc)?,
            actor: actor_number(at),
            others,
            course: Course {
                boot: 0,
                seen: 0,
                reading: 0,
                known: state.copy(alloc)?,
                out: None,
            },
        })
    }

    /// The state that it knows: the last one of which it knows that it was decided. It takes no memory.
    pub fn known(&self) -> &GlobalState
        ensures { result.now ≡ self.now.course.known }
    {
        &self.course.known
    }

    /// Whether it has a proposal out.
    pub fn is_busy(&self) -> bool
        ensures { IsTrue result ↔ IsBusy self.now }
    {
        self.course.out.is_some()
    }

    /// Proposes a change. `NotLegal` exactly where it isn't legal on what the machine knows; else `Busy` exactly where a
    /// proposal is out.
    pub fn propose(&mut self, change: &Change, out: &mut Outbox) -> Result<(), ProposeError>
        ensures proposes { OnOk result (ProposesTo self.old change.now self.new out.old out.new) }
        ensures legal { OnOk result (IsLegal self.old.course.known change.now × (IsBusy self.old → ⊥)) }
        ensures numbers { OnOk result (IsChange change.now) }
        ensures not_legal { IsErrOf result NotLegal → IsLegal self.old.course.known change.now → ⊥ }
        ensures busy { IsErrOf result Busy → IsLegal self.old.course.known change.now × IsBusy self.old }
        ensures refused { IsErrOf result NotLegal ⊎ IsErrOf result Busy → (self.new ≡ self.old) × (out.new ≡ out.old) }
        ensures out { OnOk result (IsBusy self.new) }
        ensures stays { (self.new ≡ going_on self.old self.new.course) × (self.new.course.known ≡ self.old.course.known) }
        ensures standing { IsProposerView self.new }
    {
        let course = &mut self.course;
        let move_on = propose(self.alloc, self.actor, course, change)?;
        tell(
            self.alloc,
            self.at,
            self.others.items(),
            &self.course,
            move_on,
            out,
        )?;
        Ok(())
    }

    /// Takes what comes.
    pub fn take(&mut self, input: &Input, out: &mut Outbox) -> Result<(), OutOfMemory>
        ensures takes { OnOk result (Takes self.old input.now self.new out.old out.new) }
        ensures leads { OnOk result (LeadsOn self.old.course self.new.course) }
        ensures rises { self.old.course.known.index ≤ self.new.course.known.index }
        ensures stays { self.new ≡ going_on self.old self.new.course }
        ensures standing { IsProposerView self.new }
    {
        let devices = self.first.devices.len() as u32;
        let course = &mut self.course;
        let move_on = step(self.alloc, self.actor, devices, course, input)?;
        ask_at(self.alloc, self.at, input, out)?;
        tell(
            self.alloc,
            self.at,
            self.others.items(),
            &self.course,
            move_on,
            out,
        )
    }

    /// Is told a state that was decided, and takes it where it is newer.
    pub fn learn(&mut self, state: &GlobalState) -> Result<(), OutOfMemory>
        requires { IsStateOf (devices_of self.old) state.now }
        ensures learns { OnOk result (Learns self.old.course state.now self.new.course × (self.new ≡ going_on self.old self.new.course)) }
        ensures err { OnErr result (self.new ≡ self.old) }
        ensures standing { IsProposerView self.new }
    {
        let known = state.copy(self.alloc)?;
        learn(&mut self.course, known);
        Ok(())
    }

    /// The machine.
    pub fn at(&self) -> Actor
        ensures { result ≡ self.now.at }
    {
        self.at
    }

    /// The machine's number in its ballots.
    pub fn actor(&self) -> u32
        ensures { result ≡ self.now.actor }
    {
        self.actor
    }

    /// Stops: what was out is out no more. It takes no memory.
    pub fn crash(&mut self)
        ensures { self.new ≡ going_on self.old (stopped self.old.course) }
    {
        self.course.out = None;
    }

    /// Starts again, in a boot. It knows the first state, and asks for what was decided.
    pub fn restart(&mut self, boot: u64, out: &mut Outbox) -> Result<(), OutOfMemory>
        ensures restarts { OnOk result (self.new ≡ going_on self.old (started boot self.old.course.reading self.old.first)) }
        ensures asks { OnOk result (out.new ≡ out.old ++ asks_of self.old.at) }
        ensures stays { self.new ≡ going_on self.old self.new.course }
        ensures standing { IsProposerView self.new }
    {
        let known = self.first.copy(self.alloc)?;
        self.course.boot = boot;
        self.course.seen = 0;
        self.course.known = known;
        self.course.out = None;
        ask(self.alloc, self.at, out)
    }
}
