//! Writes of nodes.

ghost use Rattle.std.specs.Prelude.{◌≡◌, ℕ, ◌≤◌, slice_index, IsErrOf, OnOk};
ghost use Rattle.bx_disk.specs.Kept.{Fails};
ghost use Rattle.bx_disk.specs.declared.fault.RackError.TheVariants.{Fault};
ghost use Rattle.bx_mirror_packets.specs.DeviceMessages.{IsWriteBody};
ghost use Rattle.bx_mirror_member.specs.Standing.{disk_in, room_in};
ghost use Rattle.bx_mirror_server.specs.Serving.{BringsWrite, OfWrite};
ghost use Rattle.bx_mirror_server.specs.Working.{Works};

use crate::server::MirrorServer;
use bx_base::Actor;
use bx_disk::{Rack, RackError};
use bx_facts::Outbox;
use bx_mirror_disks::put_runs;
use bx_mirror_member::Judgement;
use bx_mirror_packets::WriteBody;

impl MirrorServer {
    /// Takes a write: it is put and its answer owed, or answered again, or refused. What a fault cuts short is neither noted nor owed.
    pub(crate) fn take_write<R: Rack>(
        &mut self,
        rack: &mut R,
        reading: u64,
        from: Actor,
        write: &WriteBody,
        out: &mut Outbox,
    ) -> Result<(), RackError>
        requires write { IsWriteBody write.now }
        requires room { room_in self.old ≤ slice_index (R.state rack.old).sizes (disk_in self.old) }
        ensures does { OnOk result (OfWrite (R.tells rack.old) reading from write.now self.old self.new out.old out.new (R.state rack.old) (R.state rack.new)) }
        ensures fault { IsErrOf result Fault → self.new ≡ self.old }
        ensures works { Works R.Rack rack.old rack.new (disk_in self.old) (room_in self.old) (BringsWrite self.old reading write.now) }
        ensures rack { Fails R.Rack rack.old rack.new result }
    {
        match self.member.judge(reading, write) {
            Judgement::Taken => {
                put_runs(rack, self.member.disk(), self.member.room(), &write.runs)?;
                self.member.note_write(from, write)?;
                Ok(())
            }
            Judgement::Repeated => {
                self.member.repeat(from, write, out)?;
                Ok(())
            }
            Judgement::Refused => Ok(()),
        }
    }
}
