//! Reads that are out.

ghost use Rattle.std.specs.Prelude.{◌≡◌, ℕ, ◌+◌, ◌-◌, ◌*◌, ◌^◌, ◌<◌, ◌≤◌, List, length, slice_index, IfOk, IfSome, IsErrOf, IsSome};
ghost use Rattle.bx_disk.specs.Counts.{NoneRose};
ghost use Rattle.bx_disk.specs.Kept.{Counted};
ghost use Rattle.bx_disk.specs.Disks.{IsImage, sector_of};
ghost use Rattle.bx_calls.specs.Calls.{LeavesOnly};
ghost use Rattle.bx_facts.specs.declared.input.FactError.TheVariants.{Disk as DiskFails, OutOfMemory as MemoryFails};
ghost use Rattle.bx_facts.specs.Writes.{IsSettled};
ghost use Rattle.bx_plain_store.specs.Sources.{IsSourceDisk};

use bx_base::Raw;
use bx_disk::Rack;
use bx_facts::FactError;
use bx_global::GlobalState;
use bx_mirror_disks::read_raw;
use bx_rows::DeviceRow;
use std::alloc::Global;

/// Sectors that a node reads.
#[derive(Clone, Copy, PartialEq, Eq)]
pub struct Ask {
    /// The device, from 0 on.
    pub device: u32,
    /// The first sector.
    pub place: u64,
    /// How many they are.
    pub count: u32,
}

/// The bytes of sectors, of the member of their device that reads go to. `None` where there is no such device.
pub(crate) fn answer<R: Rack>(
    alloc: Global,
    rack: &mut R,
    known: &GlobalState,
    ask: Ask,
) -> Result<Option<Raw>, FactError>
    requires disk { ask.device < length known.now.devices → 4 + 2 * ask.device < length (R.state rack.old).sizes }
    requires first { ask.device < length known.now.devices → ask.place + ask.count ≤ slice_index (R.state rack.old).sizes (3 + 2 * ask.device) }
    requires second { ask.device < length known.now.devices → ask.place + ask.count ≤ slice_index (R.state rack.old).sizes (4 + 2 * ask.device) }
    ensures settled { (sector : ℕ) (content : List ℕ) → R.tells rack.old → IsSettled (R.state rack.old) known.now ask.device sector content → ask.place ≤ sector → sector < ask.place + ask.count → IfOk result (λ found. IfSome found (λ bytes. sector_of bytes (sector - ask.place) ≡ content)) }
    ensures there { ask.device < length known.now.devices → IfOk result (λ found. IsSome found) }
    ensures stays { R.tells rack.old → R.state rack.new ≡ R.state rack.old }
    ensures any_moment { R.tells rack.old → LeavesOnly (R.moment rack.old) (R.moment rack.new) (R.left_since rack.old) (R.left_since rack.new) (IsImage (R.state rack.old)) }
    ensures memory { IsErrOf result MemoryFails → NoneRose (R.faults rack.old) (R.faults rack.new) (R.faults_of rack.old) (R.faults_of rack.new) }
    ensures rack { Counted R.Rack rack.old rack.new result DiskFails }
{
    let Some(row) = known.devices.get(ask.device as usize) else {
        return Ok(None);
    };
    let _disks = rack.disks();
    let disk = source_disk(row, ask.device);
    let bytes = read_raw(alloc, rack, disk, ask.place, ask.count)?;
    Ok(Some(bytes))
}

/// The disk of the member that reads go to.
fn source_disk(row: &DeviceRow, device: u32) -> u32
    requires { 4 + 2 * device < 2 ^ 32 }
    ensures { IsSourceDisk row.now.mode device result }
{
    if row.is_source(false) {
        3 + 2 * device
    } else {
        4 + 2 * device
    }
}
