//! The disks of the members that a volume is read from.

ghost use Rattle.std.specs.Prelude.{◌≡◌, ◌≤◌, ◌<◌, ℕ, length, slice_get, Some, IfOk, IfSome, IfNone, IsTrue, IsFalse};
ghost use Rattle.bx_rows.specs.declared.device.DeviceRow.{DeviceRow};
ghost use Rattle.bx_rows.specs.Modes.{IsSource};
ghost use Rattle.bx_volume.specs.Images.{IsLabelled, member_disk};
ghost use Rattle.bx_homes.specs.Sources.{AreLabelled, IsFirstUnlabelled, IsLongEnough, HaveRoom, HasSource, IsFirstAbsent};
ghost use Rattle.bx_disk.specs.Kept.{Faults};

use crate::homes::member_disk;
use crate::labels::is_labelled;
use bx_disk::{DiskFault, Rack};
use bx_layout::Label;
use bx_rows::DeviceRow;

/// The first disk, device by device and member A before B, that is a source in its device's mode and has no label of the volume that
/// the first label is of. `None` exactly where each source has one.
pub fn first_unlabelled<R: Rack>(
    rack: &mut R,
    first: &Label,
    rows: &[DeviceRow],
) -> Result<Option<u32>, DiskFault>
    requires { length rows.now ≤ 4 }
    ensures none { R.tells rack.old → IfOk result (λ found. IfNone found ((device : ℕ) (row : DeviceRow) → slice_get rows.now device ≡ Some row → AreLabelled (R.state rack.old).sizes (R.state rack.old).reads first.now device row)) }
    ensures room { IfOk result (λ found. IfNone found ((device : ℕ) (row : DeviceRow) → slice_get rows.now device ≡ Some row → HaveRoom (R.state rack.old).sizes first.now device row)) }
    ensures some { R.tells rack.old → IfOk result (λ found. IfSome found (IsFirstUnlabelled (R.state rack.old).sizes (R.state rack.old).reads first.now rows.now)) }
    ensures stays { R.state rack.new ≡ R.state rack.old }
    ensures rack { Faults R.Rack rack.old rack.new result }
{
    for device in 0..rows.len() as u32 {
        let row = &rows[device as usize];
        if lacks_label(rack, first, row, device, false)? {
            return Ok(Some(member_disk(device, false)));
        }
        if lacks_label(rack, first, row, device, true)? {
            return Ok(Some(member_disk(device, true)));
        }
    }
    Ok(None)
}

/// Whether a member of a device, B (`second`) or A, is a source without a label of the volume.
fn lacks_label<R: Rack>(
    rack: &mut R,
    first: &Label,
    row: &DeviceRow,
    device: u32,
    second: bool,
) -> Result<bool, DiskFault>
    requires { device < 4 }
    ensures yes { R.tells rack.old → IfOk result (λ lacks. IsTrue lacks → IsSource row.now.mode second × (IsLabelled (R.state rack.old).sizes (R.state rack.old).reads first.now (member_disk device second) → ⊥)) }
    ensures room { IfOk result (λ lacks. IsFalse lacks → IsSource row.now.mode second → IsLongEnough (R.state rack.old).sizes first.now (member_disk device second)) }
    ensures no { R.tells rack.old → IfOk result (λ lacks. IsFalse lacks → IsSource row.now.mode second → IsLabelled (R.state rack.old).sizes (R.state rack.old).reads first.now (member_disk device second)) }
    ensures stays { R.state rack.new ≡ R.state rack.old }
    ensures rack { Faults R.Rack rack.old rack.new result }
{
    if !row.is_source(second) {
        return Ok(false);
    }
    let labelled = is_labelled(rack, first, member_disk(device, second))?;
    Ok(!labelled)
}

/// The first device of whose member that reads go to the rack has no disk. `None` exactly where it has one of each.
pub fn first_absent<R: Rack>(rack: &R, rows: &[DeviceRow]) -> Option<u32>
    requires { length rows.now ≤ 4 }
    ensures none { IfNone result ((device : ℕ) (row : DeviceRow) → slice_get rows.now device ≡ Some row → HasSource (R.state rack.now).sizes device row) }
    ensures some { IfSome result (IsFirstAbsent (R.state rack.now).sizes rows.now) }
{
    for device in 0..rows.len() as u32 {
        if is_absent(rack, &rows[device as usize], device) {
            return Some(device);
        }
    }
    None
}

/// Whether the rack has no disk of the member of a device that reads go to.
fn is_absent<R: Rack>(rack: &R, row: &DeviceRow, device: u32) -> bool
    requires { device < 4 }
    ensures yes { IsTrue result → HasSource (R.state rack.now).sizes device row.now → ⊥ }
    ensures no { IsFalse result → HasSource (R.state rack.now).sizes device row.now }
{
    member_disk(device, row.reads_second()) >= rack.disks()
}
