//! Members over the racks that have their disks.

ghost use Rattle.std.specs.Prelude.{◌≡◌, ℕ, ◌*◌, ◌<◌, ◌≤◌, List, slice_index, IfOk, IsErrOf, OnErr, OnOk};
ghost use Rattle.bx_calls.specs.Calls.{HasSure, KeepsAll, KeepsSure, LeavesOnly};
ghost use Rattle.bx_calls.specs.Regions.{IsSynced};
ghost use Rattle.bx_disk.specs.Disks.{IsImage};
ghost use Rattle.bx_disk.specs.Kept.{Fails};
ghost use Rattle.bx_disk.specs.declared.fault.RackError.TheVariants.{Fault};
ghost use Rattle.bx_facts.specs.Inputs.{IsStores, SendsOnly};
ghost use Rattle.bx_facts.specs.Writes.{Sent, label_on};
ghost use Rattle.bx_layout.specs.Labels.{SpellsLabel};
ghost use Rattle.bx_mirror_member.specs.Standing.{disk_in, first_piece, hearing, learned, new_member, room_in, started, stopped};
ghost use Rattle.bx_mirror_server.specs.Serving.{BringsOnly, Does, OfInput, SendsAny};
ghost use Rattle.bx_mirror_server.specs.Working.{Reads, Works};

use bx_disk::{Rack, RackError};
use bx_facts::{Input, Outbox};
use bx_global::{Change, GlobalState};
use bx_mirror_disks::label_own;
use bx_mirror_member::Member;
use std::alloc::Global;
use std::marker::Model;

/// A member of a mirrored device, over a rack that has its disk.
#[derive(Drop)]
pub struct MirrorServer {
    pub(crate) alloc: Global,
    pub(crate) member: Member,
}

impl Model for MirrorServer {
    ghost use Rattle.bx_mirror_member.specs.Standing.{MemberView};

    ghost Value = { MemberView };

    ghost view = { λ server. server.member };
}

impl MirrorServer {
    /// A member of a volume of so many nodes, devices (1 to 4) and areas (1 to 64): `2 * d` is member A of device d, and `2 * d + 1` member B. It
    /// takes no memory.
    pub fn new(
        alloc: Global,
        number: u32,
        volume: u64,
        nodes: u32,
        devices: u32,
        areas: u32,
    ) -> MirrorServer
        requires least_devices { 1 ≤ devices }
        requires most_devices { devices ≤ 4 }
        requires least_areas { 1 ≤ areas }
        requires most_areas { areas ≤ 64 }
        requires number { number < 2 * devices }
        ensures { result ≡ new_member number (record { volume = volume; nodes = nodes; devices = devices; areas = areas }) }
    {
        MirrorServer {
            alloc,
            member: Member::new(alloc, number, volume, nodes, devices, areas),
        }
    }

    /// Whether it owes an answer to a sync. It takes no memory.
    pub fn waiting(&self) -> bool
        ensures { result ≡ self.now.due }
    {
        self.member.waiting()
    }

    /// Does one event, knowing this state; readings are in milliseconds. The change is one that it must propose. After a fault it is what it was
    /// once it knew the state, and what is in the box isn't to be sent. For want of memory it isn't used again.
    pub fn take<R: Rack>(
        &mut self,
        rack: &mut R,
        known: &GlobalState,
        input: &Input,
        out: &mut Outbox,
    ) -> Result<Option<Change>, RackError>
        requires room { room_in self.old ≤ slice_index (R.state rack.old).sizes (disk_in self.old) }
        ensures does { IfOk result (λ change. Does (R.tells rack.old) known.now input.now self.old self.new change out.old out.new (R.state rack.old) (R.state rack.new)) }
        ensures fault { IsErrOf result Fault → self.new ≡ learned known.now self.old }
        ensures works { Works R.Rack rack.old rack.new (disk_in self.old) (room_in self.old) (BringsOnly (learned known.now self.old) input.now) }
        ensures sent { OnOk result (SendsOnly IsStores out.old out.new) }
        ensures rack { Fails R.Rack rack.old rack.new result }
    {
        self.learn(rack, known, out)?;
        self.take_input(rack, input, out)
    }

    /// Learns the state. Where a copy begins that it makes, the first piece goes.
    fn learn<R: Rack>(
        &mut self,
        rack: &mut R,
        known: &GlobalState,
        out: &mut Outbox,
    ) -> Result<(), RackError>
        requires room { room_in self.old ≤ slice_index (R.state rack.old).sizes (disk_in self.old) }
        ensures learns { self.new ≡ learned known.now self.old }
        ensures sends { OnOk result (SendsAny (R.tells rack.old) (learned known.now self.old) (first_piece known.now self.old) (R.state rack.old) out.old out.new) }
        ensures reads { Reads R.Rack rack.old rack.new }
        ensures rack { Fails R.Rack rack.old rack.new result }
    {
        let Some(piece) = self.member.learn(known) else {
            return Ok(());
        };
        self.send_piece(rack, piece, out)
    }

    /// Takes what comes, once it knows the state.
    fn take_input<R: Rack>(
        &mut self,
        rack: &mut R,
        input: &Input,
        out: &mut Outbox,
    ) -> Result<Option<Change>, RackError>
        requires room { room_in self.old ≤ slice_index (R.state rack.old).sizes (disk_in self.old) }
        ensures does { IfOk result (λ change. OfInput (R.tells rack.old) input.now self.old self.new change out.old out.new (R.state rack.old) (R.state rack.new)) }
        ensures fault { IsErrOf result Fault → self.new ≡ self.old }
        ensures works { Works R.Rack rack.old rack.new (disk_in self.old) (room_in self.old) (BringsOnly self.old input.now) }
        ensures rack { Fails R.Rack rack.old rack.new result }
    {
        match input {
            Input::Packet(packet, reading) => self.take_packet(rack, packet, *reading, out),
            Input::Tick(reading) => self.take_tick(rack, *reading, out),
            Input::Synced => {
                self.take_sync(rack, out)?;
                Ok(None)
            }
        }
    }

    /// Stops. What it knew and owed is gone. It takes no memory.
    pub fn crash(&mut self)
        ensures { self.new ≡ stopped self.old }
    {
        self.member.crash();
    }

    /// Starts in a boot, at a reading in milliseconds, with nothing that it knew or owed. Its disk gets its label where it has another or none, and
    /// is synced. Its partner counts as heard.
    pub fn restart<R: Rack>(
        &mut self,
        rack: &mut R,
        boot: u64,
        reading: u64,
    ) -> Result<(), RackError>
        requires room { room_in self.old ≤ slice_index (R.state rack.old).sizes (disk_in self.old) }
        ensures starts { OnOk result (self.new ≡ hearing reading (started boot self.old)) }
        ensures failed { OnErr result (self.new ≡ started boot self.old) }
        ensures synced { R.tells rack.old → OnOk result (IsSynced (R.state rack.new) (disk_in self.old)) }
        ensures label { R.tells rack.old → OnOk result (SpellsLabel (label_on self.old.made (disk_in self.old)) ((R.state rack.new).reads (disk_in self.old) 0)) }
        ensures had_label { R.tells rack.old → SpellsLabel (label_on self.old.made (disk_in self.old)) ((R.state rack.old).reads (disk_in self.old) 0) → KeepsAll (R.state rack.old) (R.state rack.new) (disk_in self.old) }
        ensures keeps { R.tells rack.old → KeepsSure (R.state rack.old) (R.state rack.new) (disk_in self.old) 0 1 }
        ensures any_moment { R.tells rack.old → LeavesOnly (R.moment rack.old) (R.moment rack.new) (R.left_since rack.old) (R.left_since rack.new) (HasSure (R.state rack.old) (disk_in self.old) 0 1) }
        ensures had_moment { R.tells rack.old → SpellsLabel (label_on self.old.made (disk_in self.old)) ((R.state rack.old).reads (disk_in self.old) 0) → LeavesOnly (R.moment rack.old) (R.moment rack.new) (R.left_since rack.old) (R.left_since rack.new) (IsImage (R.state rack.old)) }
        ensures rack { Fails R.Rack rack.old rack.new result }
    {
        self.member.start(boot);
        let label = self.member.label();
        label_own(rack, self.member.disk(), &label)?;
        self.member.hear(reading);
        Ok(())
    }
}
