//! Which messages a member takes.

ghost use Rattle.std.specs.Prelude.{◌≡◌, ◌↔◌, IfNone, IfSome, IsTrue};
ghost use Rattle.bx_rows.specs.declared.device.DeviceRow.{DeviceRow};
ghost use Rattle.bx_mirror_member.specs.Acting.{IsActing, IsCopiedHere, IsOpen, IsReadHere, Judges, LieIn};

use crate::copies::{copy_from, is_named};
use crate::member::Member;
use bx_mirror_packets::{CopyBody, ReadBody, WriteBody};
use bx_mirror_tables::{are_inside, last_of};
use bx_rows::DeviceRow;

/// The bytes of a sector.
const SECTOR: u64 = 512;

/// What becomes of a write.
#[derive(Clone, Copy, PartialEq, Eq)]
pub enum Judgement {
    /// It is taken.
    Taken,
    /// It came before, and is answered again.
    Repeated,
    /// It is refused: no answer goes.
    Refused,
}

impl Member {
    /// The row in which the member acts, where it is that of a message's device and epoch.
    pub(crate) fn acting(&self, device: u32, epoch: u64) -> Option<DeviceRow>
        ensures some { IfSome result (λ row. IsActing self.now device epoch row) }
        ensures none { IfNone result ((row : DeviceRow) → IsActing self.now device epoch row → ⊥) }
    {
        let Some(row) = self.row else {
            return None;
        };
        if device != self.device() || !is_named(self, &row) || row.epoch != epoch {
            return None;
        }
        Some(row)
    }

    /// What becomes of a write at a reading in milliseconds.
    pub fn judge(&self, reading: u64, write: &WriteBody) -> Judgement
        ensures { Judges self.now reading write.now result }
    {
        if !self.opens(reading, write) {
            return Judgement::Refused;
        }
        if last_of(self.lasts.as_slice(), write.session) < write.sequence {
            Judgement::Taken
        } else {
            Judgement::Repeated
        }
    }

    /// Whether a write isn't refused.
    fn opens(&self, reading: u64, write: &WriteBody) -> bool
        ensures { IsTrue result ↔ IsOpen self.now reading write.now }
    {
        let Some(row) = self.acting(write.device, write.epoch) else {
            return false;
        };
        row.writes(self.is_second())
            && reading <= write.until
            && are_inside(&write.runs, self.room())
    }

    /// Whether so many sectors lie in the device, behind the label, and are at least one.
    fn lie_in(&self, place: u64, sectors: u64) -> bool
        ensures { IsTrue result ↔ LieIn self.now place sectors }
    {
        let room = self.room();
        place >= 1 && sectors >= 1 && sectors <= room && place <= room - sectors
    }

    /// Whether it answers a read.
    pub fn is_read_here(&self, read: &ReadBody) -> bool
        ensures { IsTrue result ↔ IsReadHere self.now read.now }
    {
        let Some(row) = self.acting(read.device, read.epoch) else {
            return false;
        };
        row.reads_second() == self.is_second() && self.lie_in(read.place, u64::from(read.sectors))
    }

    /// Whether it takes a piece of a copy.
    pub fn is_copied_here(&self, copy: &CopyBody) -> bool
        ensures { IsTrue result ↔ IsCopiedHere self.now copy.now }
    {
        let Some(row) = self.acting(copy.device, copy.epoch) else {
            return false;
        };
        let sectors = copy.bytes.bytes().len() as u64 / SECTOR;
        row.mode == copy_from(!self.is_second()) && self.lie_in(copy.place, sectors)
    }
}
