//! A small store: both members of one device, on which each write is made sure.

ghost use Rattle.std.specs.Prelude.{◌≡◌, ◌%◌, IsTrue, length, slice_index};

use bx_disk::Rack;
use bx_members::{put_both, sync_both};
use bx_records::{Run, Runs};

/// The disks of a volume of one device and one area.
pub(crate) const SIZES: [u64; 5] = [21, 21, 21, 17994, 17994];

/// How many sectors a member has.
const MEMBER: u64 = 17994;

/// Whether a rack has the disks of the volume.
pub fn is_bench<R: Rack>(rack: &R) -> bool
    ensures disks { IsTrue result → length (R.state rack.now).sizes ≡ 5 }
    ensures first { IsTrue result → slice_index (R.state rack.now).sizes 3 ≡ 17994 }
    ensures second { IsTrue result → slice_index (R.state rack.now).sizes 4 ≡ 17994 }
{
    rack.disks() == 5 && rack.sectors(3) == MEMBER && rack.sectors(4) == MEMBER
}

/// Writes a run on both members, and says whether that went well.
fn puts<R: Rack>(rack: &mut R, run: &Run) -> bool {
    let size = run.bytes.bytes().len();
    let count = (size / 512) as u64;
    is_bench(rack)
        && run.device == 0
        && size % 512 == 0
        && run.place <= MEMBER
        && count <= MEMBER - run.place
        && put_both(rack, run).is_ok()
}

/// Writes runs on both members and makes them sure, and says whether that went well.
pub fn stores<R: Rack>(rack: &mut R, runs: &Runs) -> bool {
    for at in 0..runs.len() {
        let Some(run) = runs.get(at) else {
            return false;
        };
        if !puts(rack, run) {
            return false;
        }
    }
    is_bench(rack) && sync_both(rack, 0).is_ok()
}
