//! Copies between a member and its partner.

ghost use Rattle.std.specs.Prelude.{◌≡◌, ◌+◌, ◌∷◌, [], ◌≤◌, slice_index, IfOk, IsErrOf, OnOk};
ghost use Rattle.bx_disk.specs.Kept.{Fails};
ghost use Rattle.bx_disk.specs.declared.fault.RackError.TheVariants.{Fault};
ghost use Rattle.bx_mirror_packets.specs.DeviceMessages.{IsCopyBody};
ghost use Rattle.bx_mirror_member.specs.Standing.{disk_in, room_in};
ghost use Rattle.bx_mirror_server.specs.Serving.{BringsPiece, OfCopy, SendsPiece, TakesCopied, run_of};
ghost use Rattle.bx_mirror_server.specs.Working.{Reads, Works};

use crate::server::MirrorServer;
use bx_base::{Actor, OutOfMemory};
use bx_disk::{Rack, RackError};
use bx_facts::Outbox;
use bx_global::Change;
use bx_mirror_disks::{put_runs, read_raw};
use bx_mirror_member::{Piece, Progress};
use bx_mirror_packets::{CopiedBody, CopyBody, DeviceMessage};
use bx_records::{Run, Runs};
use std::alloc::Global;

/// The kind of the packets that carry pieces of copies.
const COPY: u8 = 22;

/// The run that a piece of a copy is.
fn run_in(alloc: Global, copy: CopyBody) -> Result<Runs, OutOfMemory>
    ensures { IfOk result (λ runs. runs.1 ≡ run_of copy ∷ []) }
{
    let mut runs = Runs::new(alloc, COPY);
    runs.push(Run {
        device: copy.device,
        place: copy.place,
        bytes: copy.bytes,
    })?;
    Ok(runs)
}

impl MirrorServer {
    /// Sends a piece of the copy that it makes.
    pub(crate) fn send_piece<R: Rack>(
        &self,
        rack: &mut R,
        piece: Piece,
        out: &mut Outbox,
    ) -> Result<(), RackError>
        requires room { room_in self.now ≤ slice_index (R.state rack.old).sizes (disk_in self.now) }
        requires within { piece.place + piece.sectors ≤ room_in self.now }
        ensures sends { OnOk result (SendsPiece (R.tells rack.old) self.now piece (R.state rack.old) out.old out.new) }
        ensures reads { Reads R.Rack rack.old rack.new }
        ensures rack { Fails R.Rack rack.old rack.new result }
    {
        let disk = self.member.disk();
        let bytes = read_raw(self.alloc, rack, disk, piece.place, piece.sectors)?;
        let copy = DeviceMessage::Copy(CopyBody {
            device: self.member.device(),
            epoch: piece.epoch,
            place: piece.place,
            bytes,
        });
        self.member.say(self.member.partner(), &copy, out)?;
        Ok(())
    }

    /// Takes a piece of the copy that its partner makes.
    pub(crate) fn take_copy<R: Rack>(
        &mut self,
        rack: &mut R,
        from: Actor,
        copy: CopyBody,
    ) -> Result<(), RackError>
        requires copy { IsCopyBody copy }
        requires room { room_in self.old ≤ slice_index (R.state rack.old).sizes (disk_in self.old) }
        ensures does { OnOk result (OfCopy (R.tells rack.old) from copy self.old self.new (R.state rack.old) (R.state rack.new)) }
        ensures fault { IsErrOf result Fault → self.new ≡ self.old }
        ensures works { Works R.Rack rack.old rack.new (disk_in self.old) (room_in self.old) (BringsPiece self.old copy) }
        ensures rack { Fails R.Rack rack.old rack.new result }
    {
        if !self.member.is_copied_here(&copy) {
            return Ok(());
        }
        let copied = CopiedBody {
            device: copy.device,
            epoch: copy.epoch,
            place: copy.place,
        };
        let runs = run_in(self.alloc, copy)?;
        put_runs(rack, self.member.disk(), self.member.room(), &runs)?;
        self.member.note_piece(from, copied)?;
        Ok(())
    }

    /// Takes that its partner has a piece: the next one goes, or both members are whole.
    pub(crate) fn take_copied<R: Rack>(
        &mut self,
        rack: &mut R,
        copied: &CopiedBody,
        out: &mut Outbox,
    ) -> Result<Option<Change>, RackError>
        requires room { room_in self.old ≤ slice_index (R.state rack.old).sizes (disk_in self.old) }
        ensures does { IfOk result (λ change. TakesCopied (R.tells rack.old) copied.now self.old self.new change out.old out.new (R.state rack.old) (R.state rack.new)) }
        ensures fault { IsErrOf result Fault → self.new ≡ self.old }
        ensures reads { Reads R.Rack rack.old rack.new }
        ensures rack { Fails R.Rack rack.old rack.new result }
    {
        match self.member.progress(copied) {
            Progress::Unchanged => Ok(None),
            Progress::Next(piece) => {
                self.send_piece(rack, piece, out)?;
                self.member.go_on(piece);
                Ok(None)
            }
            Progress::Whole(change) => Ok(Some(change)),
        }
    }
}
