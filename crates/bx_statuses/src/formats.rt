//! `format`, by its exit status.

ghost use Rattle.std.specs.Prelude.{◌≡◌, ◌≢◌, ◌⊎◌, ℕ, [], ◌∷◌};
ghost use Rattle.bx_base.specs.Faults.{Rose};
ghost use Rattle.bx_calls.specs.Calls.{LeavesOnly};
ghost use Rattle.bx_disk.specs.Counts.{NoneFalls, NoneRose};
ghost use Rattle.bx_format.specs.Formats.{HasSizes};
ghost use Rattle.bx_format.specs.Moments.{IsInTheMaking};
ghost use Rattle.bx_places.specs.Places.{IsVolume};
ghost use Rattle.bx_rack_commands.specs.NewVolumes.{IsNewVolume};
ghost use Rattle.bx_statuses.specs.Report.{IsAmong, IsTold, line_of};

use crate::telling::report;
use bx_disk::{Rack, RackError};
use bx_outside::Sink;
use bx_rack_commands::format;
use bx_stops::Stop;
use std::alloc::Global;

/// Makes the disks of a rack anew a volume of this number, with 1 to 4 devices and 1 to 64 areas, and answers the exit status: 0, done; 5, the
/// rack failed; 9, memory ran out. Each but 0 has a line on `err`.
pub fn format_rack<R: Rack, K: Sink>(
    alloc: Global,
    rack: &mut R,
    err: &mut K,
    volume: u64,
    devices: u32,
    areas: u16,
) -> u8
    requires volume { IsVolume devices areas }
    ensures status { IsAmong (0 ∷ 5 ∷ 9 ∷ []) result }
    ensures made { result ≡ 0 → R.tells rack.old → IsNewVolume (R.state rack.new) (record { volume = volume; disk = 0; devices = devices; areas = areas }) }
    ensures moments { result ≡ 0 → R.tells rack.old → LeavesOnly (R.moment rack.old) (R.moment rack.new) (R.left_since rack.old) (R.left_since rack.new) (IsInTheMaking (R.state rack.old) (R.state rack.new)) }
    ensures sizes { result ≡ 0 → HasSizes (R.state rack.new).sizes devices areas }
    ensures silent { result ≡ 0 → err.new ≡ err.old }
    ensures disk_fault { result ≡ 5 → Rose (R.faults rack.old) (R.faults rack.new) }
    ensures disk_first { result ≢ 5 → NoneRose (R.faults rack.old) (R.faults rack.new) (R.faults_of rack.old) (R.faults_of rack.new) }
    ensures complete { (Rose (R.faults rack.old) (R.faults rack.new) → ⊥) → (result ≡ 0) ⊎ (result ≡ 9) }
    ensures told { result ≢ 0 → K.tells err.old → IsTold (K.written err.old) (K.written err.new) (K.faults err.old) (K.faults err.new) (line_of result) }
    ensures later { NoneFalls (R.faults rack.old) (R.faults rack.new) (R.faults_of rack.old) (R.faults_of rack.new) }
    ensures keeps_telling { R.tells rack.old → R.tells rack.new }
{
    match format(alloc, rack, volume, devices, areas) {
        Ok(()) => 0,
        Err(RackError::Fault) => report(alloc, Stop::DiskFault, err),
        Err(RackError::OutOfMemory) => report(alloc, Stop::OutOfMemory, err),
    }
}
