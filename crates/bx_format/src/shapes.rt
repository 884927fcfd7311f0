//! Disks that are made as long as those of a volume.

ghost use Rattle.std.specs.Prelude.{◌≡◌, ◌<◌, length, OnOk};
ghost use Rattle.bx_format.specs.Kept.{FailsAnew};
ghost use Rattle.bx_places.specs.Places.{IsVolume, disk_count};
ghost use Rattle.bx_calls.specs.Calls.{LeavesOnly};
ghost use Rattle.bx_format.specs.Moments.{AreBare, IsOldOrBare};
ghost use Rattle.bx_format.specs.Formats.{areas_truth, HasNoRecords, HasSizes, HoldsBlocks};

use bx_disk::{Rack, RackError};
use bx_places::disk_sectors;

/// How many disks a volume has at most.
const MOST_DISKS: usize = 11;

/// Makes the disks of a volume, all of zeros.
pub(crate) fn shape_disks<R: Rack>(rack: &mut R, devices: u32, areas: u16) -> Result<(), RackError>
    requires volume { IsVolume devices areas }
    ensures sizes { OnOk result (HasSizes (R.state rack.new).sizes devices areas) }
    ensures blocks { R.tells rack.old → OnOk result (HoldsBlocks (R.state rack.new).reads devices areas (areas_truth 0)) }
    ensures bare { R.tells rack.old → OnOk result (AreBare (R.state rack.new)) }
    ensures moments { R.tells rack.old → OnOk result (LeavesOnly (R.moment rack.old) (R.moment rack.new) (R.left_since rack.old) (R.left_since rack.new) (IsOldOrBare (R.state rack.old) (R.state rack.new).sizes)) }
    ensures none { R.tells rack.old → OnOk result (HasNoRecords (R.state rack.new).sizes (R.state rack.new).reads) }
    ensures rack { FailsAnew R.Rack rack.old rack.new result }
{
    let mut sizes = [0; MOST_DISKS];
    let sizes = &mut sizes[..3 + 2 * devices as usize];
    put_sizes(sizes, devices, areas);
    rack.shape(sizes)?;
    Ok(())
}

/// How long each disk of a volume is.
fn put_sizes(into: &mut [u64], devices: u32, areas: u16)
    requires volume { IsVolume devices areas }
    requires long { length into.old ≡ disk_count devices }
    ensures { HasSizes into.new devices areas }
{
    for disk in 0..3 + 2 * devices {
        into[disk as usize] = disk_sectors(devices, areas, disk);
    }
}
