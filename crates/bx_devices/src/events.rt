//! What comes to a machine.

ghost use Rattle.std.specs.Prelude.{◌≡◌, ℕ, ◌+◌, ◌<◌, ◌≤◌, IfOk, IfSome, IsErrOf, None, OnErr, OnOk, Some, false, length, slice_index};
ghost use Rattle.bx_base.specs.declared.names.Actor.TheVariants.{Member, Node};
ghost use Rattle.bx_disk.specs.Kept.{Fails};
ghost use Rattle.bx_disk.specs.declared.fault.RackError.TheVariants.{Fault};
ghost use Rattle.bx_facts.specs.Chains.{IsStoresKind, session_of};
ghost use Rattle.bx_facts.specs.Disks.{HasRoom, NeedsNoMore, OnlyDiskOf, SameLabels, SameReplicas};
ghost use Rattle.bx_facts.specs.Inputs.{IsStores, SendsOnly};
ghost use Rattle.bx_facts.specs.Machines.{IsMachine, OnlyAt};
ghost use Rattle.bx_facts.specs.Writes.{label_on, store_room};
ghost use Rattle.bx_facts.specs.declared.input.Input.TheVariants.{Synced};
ghost use Rattle.bx_mirror_client.specs.Streams.{IsOwnRead};
ghost use Rattle.bx_mirror_member.specs.Standing.{new_member};
ghost use Rattle.bx_devices.specs.Disks.{DisksAt, Labels, LabelsAt};
ghost use Rattle.bx_devices.specs.Events.{FaultsAt, StreamGoes, RestartsAt, StopsAt, TakesAt, input_for};
ghost use Rattle.bx_devices.specs.Machines.{IsOwn, IsShape, OnlyMachine, StaysAway, due_at, made_of, needs_of, nodes_of, slot_of, stream_of, wanted_of};
ghost use Rattle.bx_devices.specs.Steps.{Hands, IsStep};

use crate::devices::Devices;
use bx_base::Actor;
use bx_disk::{Rack, RackError};
use bx_facts::{Input, Outbox};
use bx_global::{Change, GlobalState};
use bx_layout::Label;
use bx_mirror_disks::label_own;
use bx_mirror_server::MirrorServer;

/// What an input is to a machine: a packet for another one says nothing to it.
fn input_for<'a>(at: Actor, input: &'a Input<'a>, nothing: &'a Input<'a>) -> &'a Input<'a>
    requires { nothing.now ≡ Synced }
    ensures { result.now ≡ input_for at input.now }
{
    match input {
        Input::Packet(packet, _) if packet.to != at => nothing,
        _ => input,
    }
}

impl Devices {
    /// Whether a machine is a member that is up and owes an answer to a sync. It takes no memory.
    pub fn waiting(&self, at: Actor) -> bool
        ensures { result ≡ due_at self.now at }
    {
        let Actor::Member(member) = at else {
            return false;
        };
        match self.members.get(member as usize) {
            Some(Some(server)) => server.waiting(),
            _ => false,
        }
    }

    /// Does one event of a machine, which knows this state; readings are in milliseconds. The change is one that it must propose. A packet for
    /// another machine is passed over, and so is what comes to a member that isn't up. A member that ran out of memory isn't up any more.
    pub fn take<R: Rack>(
        &mut self,
        rack: &mut R,
        known: &GlobalState,
        at: Actor,
        input: &Input,
        out: &mut Outbox,
    ) -> Result<Option<Change>, RackError>
        requires there { IsMachine (nodes_of self.old) at }
        requires room { HasRoom (needs_of self.old) (R.state rack.old).sizes }
        requires devices { length known.now.devices ≤ 4 }
        ensures takes { IfOk result (λ change. TakesAt (R.tells rack.old) at known.now (input_for at input.now) self.old self.new change out.old out.new (R.state rack.old) (R.state rack.new)) }
        ensures fault { IsErrOf result Fault → FaultsAt at known.now self.old self.new }
        ensures works { DisksAt R.Rack rack.old rack.new at known.now (input_for at input.now) self.old }
        ensures sent { OnOk result (SendsOnly IsStores out.old out.new) }
        ensures only { OnlyMachine at self.old self.new }
        ensures steps { OnOk result (IsStep at known.now (input_for at input.now) self.old self.new) }
        ensures hands { IfOk result (Hands at known.now (input_for at input.now) self.old) }
        ensures kind { IfOk result (λ change. IfSome change IsStoresKind) }
        ensures goes { (node : ℕ) → OnOk result (StreamGoes (stream_of self.old node) (stream_of self.new node)) }
        ensures session { (node : ℕ) → at ≡ Node node → OnOk result ((stream_of self.new node).session ≡ session_of known.now (stream_of self.old node).node (stream_of self.old node).boot) }
        ensures owes { OnlyAt at (due_at self.old) (due_at self.new) }
        ensures needs { NeedsNoMore (needs_of self.old) (needs_of self.new) }
        ensures disks { R.tells rack.old → OnlyDiskOf at (R.state rack.old) (R.state rack.new) }
        ensures replicas { R.tells rack.old → SameReplicas (R.state rack.old) (R.state rack.new) × SameLabels (R.state rack.old) (R.state rack.new) }
        ensures rack { Fails R.Rack rack.old rack.new result }
    {
        let nothing = Input::Synced;
        let input = input_for(at, input, &nothing);
        self.take_own(rack, known, at, input, out)
    }

    /// Does one event of a machine, where what comes is for it.
    fn take_own<R: Rack>(
        &mut self,
        rack: &mut R,
        known: &GlobalState,
        at: Actor,
        input: &Input,
        out: &mut Outbox,
    ) -> Result<Option<Change>, RackError>
        requires there { IsMachine (nodes_of self.old) at }
        requires room { HasRoom (needs_of self.old) (R.state rack.old).sizes }
        requires devices { length known.now.devices ≤ 4 }
        ensures takes { IfOk result (λ change. TakesAt (R.tells rack.old) at known.now input.now self.old self.new change out.old out.new (R.state rack.old) (R.state rack.new)) }
        ensures fault { IsErrOf result Fault → FaultsAt at known.now self.old self.new }
        ensures works { DisksAt R.Rack rack.old rack.new at known.now input.now self.old }
        ensures sent { OnOk result (SendsOnly IsStores out.old out.new) }
        ensures only { OnlyMachine at self.old self.new }
        ensures away { StaysAway self.old self.new }
        ensures shape { (n : ℕ) → at ≡ Member n → IsShape self.old }
        ensures own_read { (node : ℕ) → at ≡ Node node → IsOwnRead (stream_of self.old node).session (stream_of self.old node).asks }
        ensures rack { Fails R.Rack rack.old rack.new result }
    {
        match at {
            Actor::Node(node) => {
                self.streams[node as usize].take(known, input, out)?;
                Ok(None)
            }
            Actor::Member(member) => self.take_at(rack, known, member as usize, input, out),
            Actor::Replica(_) | Actor::Server(_) => Ok(None),
        }
    }

    /// Does one event of a member, where it is up.
    fn take_at<R: Rack>(
        &mut self,
        rack: &mut R,
        known: &GlobalState,
        place: usize,
        input: &Input,
        out: &mut Outbox,
    ) -> Result<Option<Change>, RackError>
        requires room { HasRoom (needs_of self.old) (R.state rack.old).sizes }
        ensures takes { IfOk result (λ change. TakesAt (R.tells rack.old) (Member place) known.now input.now self.old self.new change out.old out.new (R.state rack.old) (R.state rack.new)) }
        ensures fault { IsErrOf result Fault → FaultsAt (Member place) known.now self.old self.new }
        ensures works { DisksAt R.Rack rack.old rack.new (Member place) known.now input.now self.old }
        ensures sent { OnOk result (SendsOnly IsStores out.old out.new) }
        ensures only { OnlyMachine (Member place) self.old self.new }
        ensures away { slot_of self.old place ≡ None → slot_of self.new place ≡ None }
        ensures shape { IsShape self.old }
        ensures rack { Fails R.Rack rack.old rack.new result }
    {
        if place >= self.members.len() {
            return Ok(None);
        }
        let Some(mut server) = self.take_member(place) else {
            return Ok(None);
        };
        match server.take(rack, known, input, out) {
            Ok(change) => {
                self.put_member(place, server);
                Ok(change)
            }
            Err(RackError::Fault) => {
                self.put_member(place, server);
                Err(RackError::Fault)
            }
            Err(RackError::OutOfMemory) => Err(RackError::OutOfMemory),
        }
    }

    /// Takes a member out, where it is up.
    fn take_member(&mut self, place: usize) -> Option<MirrorServer>
        requires { place < length self.old.members }
        ensures was { result ≡ slot_of self.old place }
        ensures gone { slot_of self.new place ≡ None }
        ensures long { length self.new.members ≡ length self.old.members }
        ensures only { OnlyMachine (Member place) self.old self.new }
    {
        self.members[place].take()
    }

    /// Puts a member in its place: it is up.
    fn put_member(&mut self, place: usize, server: MirrorServer)
        requires there { place < length self.old.members }
        requires own { IsOwn (made_of self.old) place server }
        ensures here { slot_of self.new place ≡ Some server }
        ensures only { OnlyMachine (Member place) self.old self.new }
    {
        self.members[place] = Some(server);
    }

    /// A machine stops. What a member knew and owed is gone, and so is what a node had out. It takes no memory.
    pub fn crash(&mut self, who: Actor)
        ensures stops { StopsAt who self.old self.new }
        ensures only { OnlyMachine who self.old self.new }
        ensures still { due_at self.new who ≡ false }
    {
        match who {
            Actor::Node(node) => {
                if (node as usize) < self.streams.len() {
                    self.streams[node as usize].crash();
                }
            }
            Actor::Member(member) => {
                if (member as usize) < self.members.len() {
                    self.take_member(member as usize);
                }
            }
            Actor::Replica(_) | Actor::Server(_) => {}
        }
    }

    /// A machine starts again, in a boot, at a reading in milliseconds, and knows nothing of what was before. A member's disk gets its label where it
    /// has another or none, and is synced, also that of a member that the volume hasn't got. Where that fails the member isn't up.
    pub fn restart<R: Rack>(
        &mut self,
        rack: &mut R,
        who: Actor,
        boot: u64,
        reading: u64,
    ) -> Result<(), RackError>
        requires there { IsMachine (nodes_of self.old) who }
        requires disk { HasRoom (wanted_of self.old who) (R.state rack.old).sizes }
        ensures restarts { OnOk result (RestartsAt who boot reading self.old self.new) }
        ensures failed { OnErr result (StopsAt who self.old self.new) }
        ensures fails { OnErr result ((n : ℕ) × (who ≡ Member n)) }
        ensures labels { LabelsAt R.Rack rack.old rack.new (made_of self.old) who result }
        ensures only { OnlyMachine who self.old self.new }
        ensures disks { R.tells rack.old → OnlyDiskOf who (R.state rack.old) (R.state rack.new) }
        ensures rack { Fails R.Rack rack.old rack.new result }
    {
        match who {
            Actor::Node(node) => {
                if (node as usize) < self.streams.len() {
                    self.streams[node as usize].restart(boot);
                }
                Ok(())
            }
            Actor::Member(member) => self.restart_at(rack, member, boot, reading),
            Actor::Replica(_) | Actor::Server(_) => Ok(()),
        }
    }

    /// Starts a member, where the volume has it.
    fn restart_at<R: Rack>(
        &mut self,
        rack: &mut R,
        member: u32,
        boot: u64,
        reading: u64,
    ) -> Result<(), RackError>
        requires there { member < 8 }
        requires room { store_room (made_of self.old) ≤ slice_index (R.state rack.old).sizes (3 + member) }
        ensures restarts { OnOk result (RestartsAt (Member member) boot reading self.old self.new) }
        ensures failed { OnErr result (StopsAt (Member member) self.old self.new) }
        ensures labels { Labels R.Rack rack.old rack.new (label_on (made_of self.old) (3 + member)) (3 + member) result }
        ensures only { OnlyMachine (Member member) self.old self.new }
        ensures rack { Fails R.Rack rack.old rack.new result }
    {
        let place = member as usize;
        if place >= self.members.len() {
            let label = Label {
                volume: self.volume,
                disk: 3 + member,
                devices: self.devices,
                areas: self.areas,
            };
            return label_own(rack, 3 + member, &label);
        }
        self.take_member(place);
        let mut server = self.member(member);
        let result = server.restart(rack, boot, reading);
        if result.is_ok() {
            self.put_member(place, server);
        }
        result
    }

    /// A member of the volume that does nothing yet.
    fn member(&self, number: u32) -> MirrorServer
        requires { number < length self.now.members }
        ensures { result ≡ new_member number (made_of self.now) }
    {
        MirrorServer::new(
            self.alloc,
            number,
            self.volume,
            self.nodes,
            self.devices,
            self.areas,
        )
    }
}
