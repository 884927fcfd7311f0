//! Disks that crash, what they hold, and their recovery.

ghost use Rattle.std.specs.Prelude.{IsTrue};
ghost use Rattle.bx_plain_repair.specs.Bench.{AreLong};

use bx_audit::audit;
use bx_base::{CallNo, OutOfMemory};
use bx_disk::{CrashRack, Noise, Rack, RackError};
use bx_plain::endless;
use bx_plain_repair::{Recovery, recover};
use bx_tests_bench::is_bench;
use std::alloc::Global;

/// How many disks there are.
const DISKS: u32 = 5;

/// How many sectors a replica's disk has.
const REPLICA: u64 = 21;

/// All disks crash.
pub(crate) fn crash<R: CrashRack>(rack: &mut R, noise: Noise) -> Result<(), OutOfMemory> {
    for disk in 0..DISKS {
        if disk < rack.disks() {
            rack.crash(disk, noise)?;
        }
    }
    Ok(())
}

/// Whether a rack has the disks of the volume.
pub(crate) fn is_long<R: Rack>(rack: &R) -> bool
    ensures { IsTrue result → AreLong (R.state rack.now).sizes }
{
    is_bench(rack)
        && rack.sectors(0) >= REPLICA
        && rack.sectors(1) >= REPLICA
        && rack.sectors(2) >= REPLICA
}

/// Brings the disks to rest where calls up to a number are told. Says the number of the call that was found behind it, or 0.
pub(crate) fn recovers<R: Rack>(
    alloc: Global,
    rack: &mut R,
    floor: CallNo,
) -> Result<CallNo, RackError> {
    if !is_long(rack) {
        return Err(RackError::Fault);
    }
    match recover(alloc, rack, floor)? {
        Recovery::Closed => Ok(0),
        Recovery::Found(point) => Ok(point.call),
    }
}

/// Whether this is the listing of what the disks hold.
pub(crate) fn shows<R: Rack>(
    alloc: Global,
    rack: &mut R,
    listing: &str,
) -> Result<bool, OutOfMemory> {
    let state = endless(alloc, 1, 1)?;
    Ok(audit(alloc, rack, &state).is_ok_and(|listed| listed.text.bytes() == listing.as_bytes()))
}
