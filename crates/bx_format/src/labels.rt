//! Labels and syncs of all disks.

ghost use Rattle.std.specs.Prelude.{◌≡◌, ℕ, ◌+◌, ◌*◌, ◌<◌, false, OnOk};
ghost use Rattle.bx_disk.specs.Kept.{Fails, Faults};
ghost use Rattle.bx_places.specs.Places.{disk_count};
ghost use Rattle.bx_format.specs.Moments.{IsAnySector, IsBehindLabel, Spares};
ghost use Rattle.bx_format.specs.Formats.{FitsVolume, HasLabels, KeepsBehind};

use bx_calls::{sync_disk, write_some};
use bx_disk::{DiskFault, Rack, RackError};
use bx_layout::Label;

/// Labels each disk of a volume.
pub(crate) fn write_labels<R: Rack>(
    rack: &mut R,
    volume: u64,
    devices: u32,
    areas: u16,
) -> Result<(), RackError>
    requires { FitsVolume (R.state rack.old).sizes devices areas }
    ensures labels { R.tells rack.old → OnOk result (HasLabels (R.state rack.new).reads (record { volume = volume; disk = 0; devices = devices; areas = areas }) (disk_count devices)) }
    ensures spares { R.tells rack.old → Spares IsBehindLabel (R.state rack.old) (R.state rack.new) (R.moment rack.old) (R.moment rack.new) (R.left_since rack.old) (R.left_since rack.new) }
    ensures behind { R.tells rack.old → KeepsBehind (R.state rack.old) (R.state rack.new) }
    ensures rack { Fails R.Rack rack.old rack.new result }
{
    let mut sector = [0; 512];
    for disk in 0..3 + 2 * devices {
        let label = Label {
            volume,
            disk,
            devices,
            areas: u32::from(areas),
        };
        label.write(&mut sector);
        write_some(rack, disk, 0, &sector)?;
    }
    Ok(())
}

/// Makes all disks sure.
pub(crate) fn sync_all<R: Rack>(rack: &mut R) -> Result<(), DiskFault>
    ensures spares { R.tells rack.old → Spares IsAnySector (R.state rack.old) (R.state rack.new) (R.moment rack.old) (R.moment rack.new) (R.left_since rack.old) (R.left_since rack.new) }
    ensures sure { (d s : ℕ) → R.tells rack.old → OnOk result ((R.state rack.new).unsure d s ≡ false) }
    ensures reads { R.tells rack.old → (R.state rack.new).reads ≡ (R.state rack.old).reads }
    ensures rack { Faults R.Rack rack.old rack.new result }
{
    for disk in 0..rack.disks() {
        sync_disk(rack, disk)?;
    }
    Ok(())
}
