//! The gates of logs.

ghost use Rattle.std.specs.Prelude.{◌≡◌, ◌↔◌, ◌<◌, ◌≤◌, ℕ, List, length, slice_index, IfOk, IsTrue};
ghost use Rattle.bx_layout.specs.Labels.{IsOpenGate};
ghost use Rattle.bx_places.specs.Places.{log_device};
ghost use Rattle.bx_volume.specs.Images.{devices_of, member_disk};
ghost use Rattle.bx_volume.specs.Records.{Logged, IsLog, gate_of};
ghost use Rattle.bx_disk.specs.Kept.{FaultsOn};

use crate::homes::member_disk;
use bx_calls::read_sectors;
use bx_disk::{DiskFault, Rack};
use bx_layout::Gate;
use bx_places::{SECTOR, gate_place};

/// How many gates a log has.
const GATES: u32 = 8;

/// How many gates of a log are open, from its first one on, read off member A or B (`second`) of its device: as many as the log has
/// records.
pub fn open_gates<R: Rack>(
    rack: &mut R,
    devices: u32,
    second: bool,
    slot: u32,
) -> Result<u32, DiskFault>
    requires least { 0 < devices }
    requires most { devices ≤ 4 }
    requires slot { slot < 8 }
    requires disk { member_disk (log_device slot devices) second < length (R.state rack.old).sizes }
    requires room { 9345 ≤ slice_index (R.state rack.old).sizes (member_disk (log_device slot devices) second) }
    ensures most { IfOk result (λ count. count ≤ 8) }
    ensures opened { R.tells rack.old → IfOk result (λ count. (gate : ℕ) → gate < count → IsOpenGate (gate_of (devices_of (R.state rack.old).reads (λ device sector. second)) devices slot gate)) }
    ensures end { R.tells rack.old → IfOk result (λ count. count < 8 → IsOpenGate (gate_of (devices_of (R.state rack.old).reads (λ device sector. second)) devices slot count) → ⊥) }
    ensures records { R.tells rack.old → IfOk result (λ count. (areas : ℕ) (records : List Logged) → IsLog (devices_of (R.state rack.old).reads (λ device sector. second)) devices areas slot records → length records ≡ count) }
    ensures stays { R.state rack.new ≡ R.state rack.old }
    ensures rack { FaultsOn R.Rack rack.old rack.new (member_disk (log_device slot devices) second) result }
{
    for gate in 0..GATES {
        if !is_open(rack, devices, second, slot, gate)? {
            return Ok(gate);
        }
    }
    Ok(GATES)
}

/// Whether a gate of a log is open.
fn is_open<R: Rack>(
    rack: &mut R,
    devices: u32,
    second: bool,
    slot: u32,
    gate: u32,
) -> Result<bool, DiskFault>
    requires least { 0 < devices }
    requires most { devices ≤ 4 }
    requires slot { slot < 8 }
    requires gate { gate < 8 }
    requires disk { member_disk (log_device slot devices) second < length (R.state rack.old).sizes }
    requires room { 9345 ≤ slice_index (R.state rack.old).sizes (member_disk (log_device slot devices) second) }
    ensures answer { R.tells rack.old → IfOk result (λ is. IsTrue is ↔ IsOpenGate (gate_of (devices_of (R.state rack.old).reads (λ device sector. second)) devices slot gate)) }
    ensures stays { R.state rack.new ≡ R.state rack.old }
    ensures rack { FaultsOn R.Rack rack.old rack.new (member_disk (log_device slot devices) second) result }
{
    let (device, sector) = gate_place(slot, gate, devices);
    let mut bytes = [0; SECTOR];
    read_sectors(rack, member_disk(device, second), sector, &mut bytes)?;
    Ok(reads_open(&bytes))
}

/// Whether bytes begin as an open gate does.
fn reads_open(bytes: &[u8]) -> bool
    ensures { IsTrue result ↔ IsOpenGate bytes.now }
{
    match Gate::read(bytes) {
        Gate::Open => true,
        Gate::Closed => false,
    }
}
