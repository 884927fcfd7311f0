//! Labels of disks.

ghost use Rattle.std.specs.Prelude.{◌≡◌, ◌≤◌, ◌<◌, ◌↔◌, ℕ, length, slice_index, IfOk, IfSome, IfNone, IsTrue};
ghost use Rattle.bx_layout.specs.declared.label.Label.{Label};
ghost use Rattle.bx_layout.specs.Labels.{IsLabel};
ghost use Rattle.bx_places.specs.Places.{disk_count, disk_sectors};
ghost use Rattle.bx_homes.specs.Sources.{Fits, IsLongEnough};
ghost use Rattle.bx_volume.specs.Images.{IsOwnLabel, IsFirstLabel, IsLabelled};
ghost use Rattle.bx_disk.specs.Kept.{Faults, FaultsOn};

use bx_calls::read_sectors;
use bx_disk::{DiskFault, Rack};
use bx_layout::{Label, one_reading};
use bx_places::{SECTOR, disk_sectors};

/// The label of the least disk that has one of its own. `None` exactly where no disk has.
pub fn first_label<R: Rack>(rack: &mut R) -> Result<Option<Label>, DiskFault>
    ensures some { R.tells rack.old → IfOk result (λ found. IfSome found (IsFirstLabel (R.state rack.old).sizes (R.state rack.old).reads)) }
    ensures is { IfOk result (λ found. IfSome found IsLabel) }
    ensures none { R.tells rack.old → IfOk result (λ found. IfNone found ((disk : ℕ) (label : Label) → IsOwnLabel (R.state rack.old).sizes (R.state rack.old).reads disk label → ⊥)) }
    ensures stays { R.state rack.new ≡ R.state rack.old }
    ensures rack { Faults R.Rack rack.old rack.new result }
{
    for disk in 0..rack.disks() {
        if let Some(label) = own_label(rack, disk)? {
            return Ok(Some(label));
        }
    }
    Ok(None)
}

/// Whether a disk has a label of the volume that the first label is of.
pub fn is_labelled<R: Rack>(rack: &mut R, first: &Label, disk: u32) -> Result<bool, DiskFault>
    ensures answer { R.tells rack.old → IfOk result (λ is. IsTrue is ↔ IsLabelled (R.state rack.old).sizes (R.state rack.old).reads first.now disk) }
    ensures room { IfOk result (λ is. IsTrue is → IsLongEnough (R.state rack.old).sizes first.now disk) }
    ensures stays { R.state rack.new ≡ R.state rack.old }
    ensures rack { FaultsOn R.Rack rack.old rack.new disk result }
{
    let Some(label) = own_label(rack, disk)? else {
        return Ok(false);
    };
    Ok(label.volume == first.volume && label.devices == first.devices && label.areas == first.areas)
}

/// The label of a disk, if it is this very disk's and the disk is as long as it says.
fn own_label<R: Rack>(rack: &mut R, disk: u32) -> Result<Option<Label>, DiskFault>
    ensures some { R.tells rack.old → IfOk result (λ found. IfSome found (IsOwnLabel (R.state rack.old).sizes (R.state rack.old).reads disk)) }
    ensures fits { IfOk result (λ found. IfSome found (Fits (R.state rack.old).sizes disk)) }
    ensures none { R.tells rack.old → IfOk result (λ found. IfNone found ((label : Label) → IsOwnLabel (R.state rack.old).sizes (R.state rack.old).reads disk label → ⊥)) }
    ensures stays { R.state rack.new ≡ R.state rack.old }
    ensures rack { FaultsOn R.Rack rack.old rack.new disk result }
{
    one_reading();
    let sectors = sectors_of(rack, disk);
    if sectors == 0 {
        return Ok(None);
    }
    let mut bytes = [0; SECTOR];
    read_sectors(rack, disk, 0, &mut bytes)?;
    let Some(label) = Label::read(&bytes) else {
        return Ok(None);
    };
    if is_of(&label, disk, sectors) {
        Ok(Some(label))
    } else {
        Ok(None)
    }
}

/// How many sectors a disk has, 0 for one that isn't there.
fn sectors_of<R: Rack>(rack: &R, disk: u32) -> u64
    ensures sectors { result ≡ slice_index (R.state rack.now).sizes disk }
    ensures there { 0 < result → disk < length (R.state rack.now).sizes }
{
    if disk < rack.disks() {
        rack.sectors(disk)
    } else {
        0
    }
}

/// Whether a label is that of a disk with this number and so many sectors.
fn is_of(label: &Label, disk: u32, sectors: u64) -> bool
    requires { IsLabel label.now }
    ensures { IsTrue result ↔ ((label.now.disk ≡ disk) × (disk < disk_count label.now.devices) × (disk_sectors label.now.devices label.now.areas disk ≤ sectors)) }
{
    label.disk == disk
        && disk < 3 + 2 * label.devices
        && disk_sectors(label.devices, label.areas as u16, disk) <= sectors
}
