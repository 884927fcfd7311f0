//! Racks whose disks crash at a call.

ghost use Rattle.std.specs.Prelude.{◌≡◌, ◌<◌, length, OnOk, OnErr};
ghost use Rattle.bx_disk.specs.Disks.{IsImage, blanked};
ghost use Rattle.bx_disk.specs.Crash.{crashed};
ghost use Rattle.bx_disk.specs.Moments.{Elapses};
ghost use Rattle.bx_disk.specs.Counts.{NoneRose};

use crate::noise::Noise;
use crate::rack::Rack;
use bx_base::OutOfMemory;

/// A rack whose disks can be made to crash. Its content is always told where `tells` holds.
pub trait CrashRack: Rack {
    /// Crashes a disk: afterwards none of its sectors is unsure. What it leaves is one of the images that a crash may
    /// leave. For want of memory all stays as it was.
    fn crash(&mut self, disk: u32, how: Noise) -> Result<(), OutOfMemory>
        requires { disk < length (Self.state self.old).sizes }
        ensures crashed { Self.tells self.old → OnOk result (Self.state self.new ≡ crashed (Self.state self.old) disk how) }
        ensures image { Self.tells self.old → OnOk result (IsImage (Self.state self.old) (Self.state self.new).reads) }
        ensures memory { Self.tells self.old → OnErr result (Self.state self.new ≡ Self.state self.old) }
        ensures time { Self.tells self.old → Elapses (Self.moment self.old) (Self.moment self.new) (Self.left_since self.old) (Self.left_since self.new) (Self.state self.new) }
        ensures no_fault { NoneRose (Self.faults self.old) (Self.faults self.new) (Self.faults_of self.old) (Self.faults_of self.new) }
        ensures sizes { (Self.state self.new).sizes ≡ (Self.state self.old).sizes }
        ensures keeps_telling { Self.tells self.old → Self.tells self.new };

    /// Makes all sectors of a disk zero and sure. For want of memory all stays as it was.
    fn blank(&mut self, disk: u32) -> Result<(), OutOfMemory>
        requires { disk < length (Self.state self.old).sizes }
        ensures blanked { Self.tells self.old → OnOk result (Self.state self.new ≡ blanked (Self.state self.old) disk) }
        ensures memory { Self.tells self.old → OnErr result (Self.state self.new ≡ Self.state self.old) }
        ensures time { Self.tells self.old → Elapses (Self.moment self.old) (Self.moment self.new) (Self.left_since self.old) (Self.left_since self.new) (Self.state self.new) }
        ensures no_fault { NoneRose (Self.faults self.old) (Self.faults self.new) (Self.faults_of self.old) (Self.faults_of self.new) }
        ensures sizes { (Self.state self.new).sizes ≡ (Self.state self.old).sizes }
        ensures keeps_telling { Self.tells self.old → Self.tells self.new };
}
