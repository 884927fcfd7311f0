//! Reads of nodes.

ghost use Rattle.std.specs.Prelude.{◌≡◌, ◌≤◌, slice_index, OnOk};
ghost use Rattle.bx_disk.specs.Kept.{Fails};
ghost use Rattle.bx_mirror_member.specs.Standing.{disk_in, room_in};
ghost use Rattle.bx_mirror_server.specs.Serving.{OfRead};
ghost use Rattle.bx_mirror_server.specs.Working.{Reads};

use crate::server::MirrorServer;
use bx_base::Actor;
use bx_disk::{Rack, RackError};
use bx_facts::Outbox;
use bx_mirror_disks::read_raw;
use bx_mirror_packets::{DataBody, DeviceMessage, ReadBody};

impl MirrorServer {
    /// Answers a read, where it is the member that reads go to.
    pub(crate) fn take_read<R: Rack>(
        &self,
        rack: &mut R,
        from: Actor,
        read: &ReadBody,
        out: &mut Outbox,
    ) -> Result<(), RackError>
        requires room { room_in self.now ≤ slice_index (R.state rack.old).sizes (disk_in self.now) }
        ensures does { OnOk result (OfRead (R.tells rack.old) from read.now self.now self.now out.old out.new (R.state rack.old) (R.state rack.new)) }
        ensures reads { Reads R.Rack rack.old rack.new }
        ensures rack { Fails R.Rack rack.old rack.new result }
    {
        if !self.member.is_read_here(read) {
            return Ok(());
        }
        let disk = self.member.disk();
        let bytes = read_raw(self.alloc, rack, disk, read.place, read.sectors)?;
        let answer = DeviceMessage::Data(DataBody {
            session: read.session,
            device: read.device,
            epoch: read.epoch,
            tag: read.tag,
            bytes,
        });
        self.member.say(from, &answer, out)?;
        Ok(())
    }
}
