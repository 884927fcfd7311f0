//! Cells that are written anew.

ghost use Rattle.std.specs.Prelude.{◌≡◌, ℕ, ◌+◌, ◌<◌, ◌≤◌, length, slice_index, Some, OnOk, OnErr, IsErrOf};
ghost use Rattle.bx_disk.specs.Kept.{FailsOn, Fails};
ghost use Rattle.bx_disk.specs.declared.fault.RackError.TheVariants.{Fault, OutOfMemory};
ghost use Rattle.bx_disk.specs.Disks.{MayBeWritten};
ghost use Rattle.bx_disk.specs.Counts.{BothRose};
ghost use Rattle.bx_calls.specs.Regions.{IsSynced};
ghost use Rattle.bx_calls.specs.Calls.{KeepsSure, HasSure, LeavesOnly};
ghost use Rattle.bx_cell.specs.Halves.{cell_in};
ghost use Rattle.bx_cell.specs.Images.{EachSure};
ghost use Rattle.bx_cell.specs.Formats.{first, KeepsBeside, HasBeside, AreFormatted};

use crate::halves::{FORMAT, write_format};
use bx_calls::write_through;
use bx_disk::{Rack, RackError};

/// Writes a cell anew, whatever stands there, and makes its disk sure: half 0 has the value under number 1, and half 1 is
/// closed. A crash in between may leave anything in its first eleven sectors. For want of memory all is as it was.
pub fn format<R: Rack>(rack: &mut R, disk: u32, base: u64, value: &[u8]) -> Result<(), RackError>
    requires disk { disk < length (R.state rack.old).sizes }
    requires range { base + 20 ≤ slice_index (R.state rack.old).sizes disk }
    requires short { length value.now ≤ 4096 }
    ensures cell { R.tells rack.old → OnOk result (cell_in ((R.state rack.new).reads disk) base ≡ Some (first value.now)) }
    ensures holds { R.tells rack.old → OnOk result (EachSure (R.state rack.new) (λ image. cell_in (image disk) base ≡ Some (first value.now))) }
    ensures sure { R.tells rack.old → OnOk result (IsSynced (R.state rack.new) disk) }
    ensures keeps { R.tells rack.old → KeepsSure (R.state rack.old) (R.state rack.new) disk base 11 }
    ensures any_moment { R.tells rack.old → LeavesOnly (R.moment rack.old) (R.moment rack.new) (R.left_since rack.old) (R.left_since rack.new) (HasSure (R.state rack.old) disk base 11) }
    ensures torn { R.tells rack.old → OnErr result (MayBeWritten (R.state rack.old) (R.state rack.new) disk base 11) }
    ensures memory { R.tells rack.old → IsErrOf result OutOfMemory → R.state rack.new ≡ R.state rack.old }
    ensures rack { FailsOn R.Rack rack.old rack.new disk result }
{
    let mut bytes = [0; FORMAT];
    write_format(&mut bytes, value);
    write_through(rack, disk, base, &bytes)?;
    Ok(())
}

/// Writes a cell anew on each of the first disks, at the same sector, all with one value. After an error none, some or
/// all of them are written.
pub fn format_each<R: Rack>(
    rack: &mut R,
    count: u32,
    base: u64,
    value: &[u8],
) -> Result<(), RackError>
    requires disks { count ≤ length (R.state rack.old).sizes }
    requires range { (d : ℕ) → d < count → base + 20 ≤ slice_index (R.state rack.old).sizes d }
    requires short { length value.now ≤ 4096 }
    ensures formatted { R.tells rack.old → OnOk result (AreFormatted (R.state rack.new) count base value.now) }
    ensures holds { R.tells rack.old → OnOk result ((d : ℕ) → d < count → EachSure (R.state rack.new) (λ image. cell_in (image d) base ≡ Some (first value.now))) }
    ensures keeps { R.tells rack.old → KeepsBeside (R.state rack.old) (R.state rack.new) count base }
    ensures any_moment { R.tells rack.old → LeavesOnly (R.moment rack.old) (R.moment rack.new) (R.left_since rack.old) (R.left_since rack.new) (HasBeside (R.state rack.old) count base) }
    ensures cause { IsErrOf result Fault → (d : ℕ) × (d < count) × BothRose (R.faults rack.old) (R.faults rack.new) (R.faults_of rack.old) (R.faults_of rack.new) d }
    ensures rack { Fails R.Rack rack.old rack.new result }
{
    for disk in 0..count {
        format(rack, disk, base, value)?;
    }
    Ok(())
}
