//! Sectors of a disk that are read.

ghost use Rattle.std.specs.Prelude.{◌≡◌, ◌+◌, ◌*◌, ◌<◌, ◌≤◌, length, slice_index, IfOk};
ghost use Rattle.bx_calls.specs.Calls.{LeavesOnly};
ghost use Rattle.bx_calls.specs.Regions.{ReadsAs};
ghost use Rattle.bx_disk.specs.Disks.{IsImage};
ghost use Rattle.bx_disk.specs.Kept.{Fails};

use bx_base::{OutOfMemory, Raw};
use bx_calls::read_sectors;
use bx_disk::{Rack, RackError};
use std::alloc::Global;

/// The bytes of so many sectors of a disk.
pub fn read_raw<R: Rack>(
    alloc: Global,
    rack: &mut R,
    disk: u32,
    place: u64,
    count: u32,
) -> Result<Raw, RackError>
    requires disk { disk < length (R.state rack.old).sizes }
    requires range { place + count ≤ slice_index (R.state rack.old).sizes disk }
    ensures bytes { R.tells rack.old → IfOk result (λ bytes. ReadsAs (R.state rack.old).reads disk place bytes) }
    ensures long { IfOk result (λ bytes. length bytes ≡ 512 * count) }
    ensures stays { R.state rack.new ≡ R.state rack.old }
    ensures any_moment { R.tells rack.old → LeavesOnly (R.moment rack.old) (R.moment rack.new) (R.left_since rack.old) (R.left_since rack.new) (IsImage (R.state rack.old)) }
    ensures rack { Fails R.Rack rack.old rack.new result }
{
    let size = 512 * count as usize;
    let mut bytes = vec![in alloc; 0; size].map_err(OutOfMemory::from)?;
    read_sectors(rack, disk, place, bytes.as_mut_slice())?;
    Ok(Raw::from(bytes))
}
