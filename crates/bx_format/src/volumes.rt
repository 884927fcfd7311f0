//! A volume that is made.

ghost use Rattle.std.specs.Prelude.{◌≡◌, ℕ, ◌<◌, false, OnOk};
ghost use Rattle.bx_disk.specs.Kept.{Fails};
ghost use Rattle.bx_format.specs.Kept.{FailsAnew};
ghost use Rattle.bx_places.specs.Places.{IsVolume, disk_count};
ghost use Rattle.bx_truth.specs.Opening.{opening_truth};
ghost use Rattle.bx_calls.specs.Calls.{LeavesOnly};
ghost use Rattle.bx_format.specs.Moments.{AreBare, IsBareOrBehind, IsInTheMaking, IsOldOrBare};
ghost use Rattle.bx_format.specs.Formats.{HasLabels, HasNoRecords, HasSizes, HoldsBlocks, IsFormatted, KeepsBehind};

use crate::homes::{write_areas, write_root};
use crate::labels::{sync_all, write_labels};
use crate::shapes::shape_disks;
use bx_disk::{Rack, RackError};
use std::alloc::Global;

/// Makes the disks of a volume of 1 to 4 devices and 1 to 64 areas anew, and formats them: what was on them is gone. The labels
/// come last, once all else is sure: a crash before the end leaves what was there before, or disks without a label, or all of the
/// volume but labels. After an error the rack isn't used again.
pub fn format<R: Rack>(
    alloc: Global,
    rack: &mut R,
    volume: u64,
    devices: u32,
    areas: u16,
) -> Result<(), RackError>
    requires volume { IsVolume devices areas }
    ensures formatted { R.tells rack.old → OnOk result (IsFormatted (R.state rack.new) (record { volume = volume; disk = 0; devices = devices; areas = areas })) }
    ensures moments { R.tells rack.old → OnOk result (LeavesOnly (R.moment rack.old) (R.moment rack.new) (R.left_since rack.old) (R.left_since rack.new) (IsInTheMaking (R.state rack.old) (R.state rack.new))) }
    ensures sizes { OnOk result (HasSizes (R.state rack.new).sizes devices areas) }
    ensures rack { FailsAnew R.Rack rack.old rack.new result }
{
    lay_out(alloc, rack, devices, areas)?;
    label_disks(rack, volume, devices, areas)?;
    Ok(())
}

/// Makes the disks of a volume of 1 to 4 devices and 1 to 64 areas anew, with all but their labels: what was on them is gone, and no
/// disk has a label. What was written is not yet sure. After an error the rack isn't used again.
pub fn lay_out<R: Rack>(
    alloc: Global,
    rack: &mut R,
    devices: u32,
    areas: u16,
) -> Result<(), RackError>
    requires volume { IsVolume devices areas }
    ensures sizes { OnOk result (HasSizes (R.state rack.new).sizes devices areas) }
    ensures blocks { R.tells rack.old → OnOk result (HoldsBlocks (R.state rack.new).reads devices areas opening_truth) }
    ensures bare { R.tells rack.old → OnOk result (AreBare (R.state rack.new)) }
    ensures moments { R.tells rack.old → OnOk result (LeavesOnly (R.moment rack.old) (R.moment rack.new) (R.left_since rack.old) (R.left_since rack.new) (IsOldOrBare (R.state rack.old) (R.state rack.new).sizes)) }
    ensures none { R.tells rack.old → OnOk result (HasNoRecords (R.state rack.new).sizes (R.state rack.new).reads) }
    ensures rack { FailsAnew R.Rack rack.old rack.new result }
{
    shape_disks(rack, devices, areas)?;
    write_areas(alloc, rack, devices, areas)?;
    write_root(alloc, rack, devices, areas)?;
    Ok(())
}

/// Makes all disks sure, labels those of a volume, and makes the labels sure. Nothing but labels is written.
pub fn label_disks<R: Rack>(
    rack: &mut R,
    volume: u64,
    devices: u32,
    areas: u16,
) -> Result<(), RackError>
    requires volume { IsVolume devices areas }
    requires sizes { HasSizes (R.state rack.old).sizes devices areas }
    ensures labels { R.tells rack.old → OnOk result (HasLabels (R.state rack.new).reads (record { volume = volume; disk = 0; devices = devices; areas = areas }) (disk_count devices)) }
    ensures sure { (d s : ℕ) → R.tells rack.old → OnOk result ((R.state rack.new).unsure d s ≡ false) }
    ensures moments { R.tells rack.old → LeavesOnly (R.moment rack.old) (R.moment rack.new) (R.left_since rack.old) (R.left_since rack.new) (IsBareOrBehind (R.state rack.old)) }
    ensures behind { R.tells rack.old → KeepsBehind (R.state rack.old) (R.state rack.new) }
    ensures rack { Fails R.Rack rack.old rack.new result }
{
    sync_all(rack)?;
    write_labels(rack, volume, devices, areas)?;
    sync_all(rack)?;
    Ok(())
}
