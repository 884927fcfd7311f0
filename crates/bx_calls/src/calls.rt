//! Reads, writes and syncs.

ghost use Rattle.std.specs.Prelude.{◌≡◌, ℕ, ◌+◌, ◌/◌, ◌%◌, ◌<◌, ◌≤◌, length, slice_index, OnOk, OnErr, IsErrOf};
ghost use Rattle.bx_disk.specs.Kept.{FaultsOn, FailsOn};
ghost use Rattle.bx_disk.specs.declared.fault.RackError.TheVariants.{OutOfMemory};
ghost use Rattle.bx_disk.specs.Disks.{IsImage, MayBeWritten};
ghost use Rattle.bx_calls.specs.Regions.{ReadsAs, IsSynced};
ghost use Rattle.bx_calls.specs.Calls.{KeepsSure, KeepsAll, WritesOnly, HasSure, LeavesOnly};

use bx_disk::{DiskFault, Rack, RackError};

/// Writes sectors. Each of them is unsure from then on and still has what it held at its last sync, or is as it was,
/// also after a fault. For want of memory nothing is written.
#[tactic(auto, unfolding(crate::specs::Calls::WritesOnly))]
pub fn write_some<R: Rack>(
    rack: &mut R,
    disk: u32,
    sector: u64,
    bytes: &[u8],
) -> Result<(), RackError>
    requires disk { disk < length (R.state rack.old).sizes }
    requires whole { length bytes.now % 512 ≡ 0 }
    requires range { sector + length bytes.now / 512 ≤ slice_index (R.state rack.old).sizes disk }
    ensures written { R.tells rack.old → OnOk result (ReadsAs (R.state rack.new).reads disk sector bytes.now) }
    ensures keeps { R.tells rack.old → KeepsSure (R.state rack.old) (R.state rack.new) disk sector (length bytes.now / 512) }
    ensures any_moment { R.tells rack.old → LeavesOnly (R.moment rack.old) (R.moment rack.new) (R.left_since rack.old) (R.left_since rack.new) (HasSure (R.state rack.old) disk sector (length bytes.now / 512)) }
    ensures only { R.tells rack.old → WritesOnly (R.state rack.old) (R.state rack.new) disk sector (length bytes.now / 512) }
    ensures torn { R.tells rack.old → OnErr result (MayBeWritten (R.state rack.old) (R.state rack.new) disk sector (length bytes.now / 512)) }
    ensures memory { R.tells rack.old → IsErrOf result OutOfMemory → R.state rack.new ≡ R.state rack.old }
    ensures rack { FailsOn R.Rack rack.old rack.new disk result }
{
    rack.write(disk, sector, bytes)?;
    Ok(())
}

/// Makes the sectors of a disk sure. A fault leaves all as it was.
pub fn sync_disk<R: Rack>(rack: &mut R, disk: u32) -> Result<(), DiskFault>
    requires { disk < length (R.state rack.old).sizes }
    ensures sure { R.tells rack.old → OnOk result (IsSynced (R.state rack.new) disk) }
    ensures stays { R.tells rack.old → OnErr result (R.state rack.new ≡ R.state rack.old) }
    ensures keeps { R.tells rack.old → KeepsAll (R.state rack.old) (R.state rack.new) disk }
    ensures any_moment { R.tells rack.old → LeavesOnly (R.moment rack.old) (R.moment rack.new) (R.left_since rack.old) (R.left_since rack.new) (IsImage (R.state rack.old)) }
    ensures rack { FaultsOn R.Rack rack.old rack.new disk result }
{
    rack.sync(disk)?;
    Ok(())
}

/// Writes sectors and makes all of the disk sure. After a fault each of them is unsure and still has what it held at
/// its last sync, or is as it was. For want of memory nothing is written.
#[tactic(auto, unfolding(crate::specs::Calls::WritesOnly))]
pub fn write_through<R: Rack>(
    rack: &mut R,
    disk: u32,
    sector: u64,
    bytes: &[u8],
) -> Result<(), RackError>
    requires disk { disk < length (R.state rack.old).sizes }
    requires whole { length bytes.now % 512 ≡ 0 }
    requires range { sector + length bytes.now / 512 ≤ slice_index (R.state rack.old).sizes disk }
    ensures written { R.tells rack.old → OnOk result (ReadsAs (R.state rack.new).reads disk sector bytes.now) }
    ensures sure { R.tells rack.old → OnOk result (IsSynced (R.state rack.new) disk) }
    ensures keeps { R.tells rack.old → KeepsSure (R.state rack.old) (R.state rack.new) disk sector (length bytes.now / 512) }
    ensures any_moment { R.tells rack.old → LeavesOnly (R.moment rack.old) (R.moment rack.new) (R.left_since rack.old) (R.left_since rack.new) (HasSure (R.state rack.old) disk sector (length bytes.now / 512)) }
    ensures torn { R.tells rack.old → OnErr result (MayBeWritten (R.state rack.old) (R.state rack.new) disk sector (length bytes.now / 512)) }
    ensures memory { R.tells rack.old → IsErrOf result OutOfMemory → R.state rack.new ≡ R.state rack.old }
    ensures rack { FailsOn R.Rack rack.old rack.new disk result }
{
    write_some(rack, disk, sector, bytes)?;
    sync_disk(rack, disk)?;
    Ok(())
}

/// Reads sectors, and changes none. A fault leaves any bytes in the slice.
pub fn read_sectors<R: Rack>(
    rack: &mut R,
    disk: u32,
    sector: u64,
    into: &mut [u8],
) -> Result<(), DiskFault>
    requires disk { disk < length (R.state rack.old).sizes }
    requires whole { length into.old % 512 ≡ 0 }
    requires range { sector + length into.old / 512 ≤ slice_index (R.state rack.old).sizes disk }
    ensures bytes { R.tells rack.old → OnOk result (ReadsAs (R.state rack.old).reads disk sector into.new) }
    ensures stays { R.state rack.new ≡ R.state rack.old }
    ensures any_moment { R.tells rack.old → LeavesOnly (R.moment rack.old) (R.moment rack.new) (R.left_since rack.old) (R.left_since rack.new) (IsImage (R.state rack.old)) }
    ensures rack { FaultsOn R.Rack rack.old rack.new disk result }
{
    rack.read(disk, sector, into)?;
    Ok(())
}
