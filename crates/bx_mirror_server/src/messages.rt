//! What comes to a member: messages, ticks and syncs.

ghost use Rattle.std.specs.Prelude.{◌≡◌, None, ◌≤◌, slice_index, IfOk, IsErrOf, OnOk};
ghost use Rattle.bx_disk.specs.Kept.{Fails};
ghost use Rattle.bx_disk.specs.declared.fault.RackError.TheVariants.{Fault};
ghost use Rattle.bx_facts.specs.declared.input.Input.TheVariants.{Packet as PacketComes};
ghost use Rattle.bx_mirror_packets.specs.DeviceMessages.{IsDeviceMessage};
ghost use Rattle.bx_mirror_member.specs.Standing.{disk_in, room_in};
ghost use Rattle.bx_mirror_server.specs.Serving.{BringsIn, BringsOf, OfMessage, OfPacket, OfSync, OfTick};
ghost use Rattle.bx_mirror_server.specs.Working.{Nothing, Reads, Works};

use crate::server::MirrorServer;
use bx_base::Actor;
use bx_calls::sync_disk;
use bx_disk::{Rack, RackError};
use bx_facts::{Outbox, Packet};
use bx_global::Change;
use bx_mirror_packets::DeviceMessage;

impl MirrorServer {
    /// Takes a packet. One that says nothing to a member is passed over.
    pub(crate) fn take_packet<R: Rack>(
        &mut self,
        rack: &mut R,
        packet: &Packet,
        reading: u64,
        out: &mut Outbox,
    ) -> Result<Option<Change>, RackError>
        requires room { room_in self.old ≤ slice_index (R.state rack.old).sizes (disk_in self.old) }
        ensures does { IfOk result (λ change. OfPacket (R.tells rack.old) reading packet.now.from packet.now.kind packet.now.body self.old self.new change out.old out.new (R.state rack.old) (R.state rack.new)) }
        ensures fault { IsErrOf result Fault → self.new ≡ self.old }
        ensures works { Works R.Rack rack.old rack.new (disk_in self.old) (room_in self.old) (BringsIn self.old reading packet.now.kind packet.now.body) }
        ensures rack { Fails R.Rack rack.old rack.new result }
    {
        let said = DeviceMessage::read(self.alloc, packet.kind, packet.body.bytes())?;
        let Some(message) = said else {
            return Ok(None);
        };
        self.take_message(rack, reading, packet.from, message, out)
    }

    /// Takes what a packet says.
    fn take_message<R: Rack>(
        &mut self,
        rack: &mut R,
        reading: u64,
        from: Actor,
        message: DeviceMessage,
        out: &mut Outbox,
    ) -> Result<Option<Change>, RackError>
        requires message { IsDeviceMessage message }
        requires room { room_in self.old ≤ slice_index (R.state rack.old).sizes (disk_in self.old) }
        ensures does { IfOk result (λ change. OfMessage (R.tells rack.old) reading from message self.old self.new change out.old out.new (R.state rack.old) (R.state rack.new)) }
        ensures fault { IsErrOf result Fault → self.new ≡ self.old }
        ensures works { Works R.Rack rack.old rack.new (disk_in self.old) (room_in self.old) (BringsOf self.old reading message) }
        ensures rack { Fails R.Rack rack.old rack.new result }
    {
        match message {
            DeviceMessage::Write(write) => {
                self.take_write(rack, reading, from, &write, out)?;
                Ok(None)
            }
            DeviceMessage::Read(read) => {
                self.take_read(rack, from, &read, out)?;
                Ok(None)
            }
            DeviceMessage::Copy(copy) => {
                self.take_copy(rack, from, copy)?;
                Ok(None)
            }
            DeviceMessage::Copied(copied) => self.take_copied(rack, &copied, out),
            DeviceMessage::Alive => {
                self.member.hear(reading);
                Ok(None)
            }
            DeviceMessage::Wrote(_) | DeviceMessage::Data(_) => Ok(None),
        }
    }

    /// Takes a tick: its partner hears that it is up, and the current piece of a copy goes again.
    pub(crate) fn take_tick<R: Rack>(
        &self,
        rack: &mut R,
        reading: u64,
        out: &mut Outbox,
    ) -> Result<Option<Change>, RackError>
        requires room { room_in self.now ≤ slice_index (R.state rack.old).sizes (disk_in self.now) }
        ensures does { IfOk result (λ change. OfTick (R.tells rack.old) reading self.now self.now change out.old out.new (R.state rack.old) (R.state rack.new)) }
        ensures reads { Reads R.Rack rack.old rack.new }
        ensures rack { Fails R.Rack rack.old rack.new result }
    {
        self.member.say_alive(out)?;
        if let Some(piece) = self.member.piece() {
            self.send_piece(rack, piece, out)?;
        }
        Ok(self.member.proposal(reading))
    }

    /// Syncs the disk. All that is owed goes.
    pub(crate) fn take_sync<R: Rack>(
        &mut self,
        rack: &mut R,
        out: &mut Outbox,
    ) -> Result<(), RackError>
        requires room { room_in self.old ≤ slice_index (R.state rack.old).sizes (disk_in self.old) }
        ensures does { OnOk result (OfSync (R.tells rack.old) self.old self.new None out.old out.new (R.state rack.old) (R.state rack.new)) }
        ensures fault { IsErrOf result Fault → self.new ≡ self.old }
        ensures works { Works R.Rack rack.old rack.new (disk_in self.old) (room_in self.old) Nothing }
        ensures rack { Fails R.Rack rack.old rack.new result }
    {
        sync_disk(rack, self.member.disk())?;
        self.member.release(out)?;
        Ok(())
    }
}
