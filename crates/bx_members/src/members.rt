//! Sectors and runs of members.

ghost use Rattle.std.specs.Prelude.{◌≡◌, ◌≢◌, ℕ, ◌+◌, ◌*◌, ◌/◌, ◌%◌, ◌<◌, ◌≤◌, Bool, true, false, List, length, slice_index, OnOk, IfOk};
ghost use Rattle.bx_disk.specs.Kept.{Faults, Fails};
ghost use Rattle.bx_disk.specs.Disks.{IsImage, sector_of};
ghost use Rattle.bx_calls.specs.Regions.{ReadsAs};
ghost use Rattle.bx_calls.specs.Calls.{HasSure, KeepsSure, LeavesOnly};
ghost use Rattle.bx_facts.specs.Disks.{SameDisks};
ghost use Rattle.bx_facts.specs.Writes.{Sent, member_disk};
ghost use Rattle.bx_members.specs.Members.{IsBrought, IsTaken, KeepsMembers, HasMembers};

use bx_calls::{read_sectors, sync_disk, write_some};
use bx_disk::{DiskFault, Rack, RackError};
use bx_records::Run;

/// Whether a sector reads as these bytes.
pub fn has_bytes<R: Rack>(
    rack: &mut R,
    disk: u32,
    sector: u64,
    bytes: &[u8],
) -> Result<bool, DiskFault>
    requires disk { disk < length (R.state rack.old).sizes }
    requires whole { length bytes.now ≡ 512 }
    requires range { sector < slice_index (R.state rack.old).sizes disk }
    ensures same { R.tells rack.old → IfOk result (λ same. same ≡ true → (R.state rack.old).reads disk sector ≡ bytes.now) }
    ensures other { R.tells rack.old → IfOk result (λ same. same ≡ false → (R.state rack.old).reads disk sector ≢ bytes.now) }
    ensures stays { R.tells rack.old → R.state rack.new ≡ R.state rack.old }
    ensures any_moment { R.tells rack.old → LeavesOnly (R.moment rack.old) (R.moment rack.new) (R.left_since rack.old) (R.left_since rack.new) (IsImage (R.state rack.old)) }
    ensures rack { Faults R.Rack rack.old rack.new result }
{
    let mut into = [0; 512];
    read_sectors(rack, disk, sector, &mut into)?;
    Ok(into.as_slice() == bytes)
}

/// Writes a sector, where it doesn't read as these bytes already.
pub fn put_sector<R: Rack>(
    rack: &mut R,
    disk: u32,
    sector: u64,
    bytes: &[u8],
) -> Result<(), RackError>
    requires disk { disk < length (R.state rack.old).sizes }
    requires whole { length bytes.now ≡ 512 }
    requires range { sector < slice_index (R.state rack.old).sizes disk }
    ensures written { R.tells rack.old → OnOk result ((R.state rack.new).reads disk sector ≡ bytes.now) }
    ensures elsewhere { R.tells rack.old → KeepsSure (R.state rack.old) (R.state rack.new) disk sector 1 }
    ensures keeps { (writes : List Sent) (greatest device : ℕ) (second : Bool) → R.tells rack.old → disk ≡ member_disk device second → IsBrought writes greatest device sector bytes.now → KeepsMembers writes greatest (R.state rack.old) (R.state rack.new) }
    ensures any_moment { (writes : List Sent) (greatest device : ℕ) (second : Bool) → R.tells rack.old → disk ≡ member_disk device second → IsBrought writes greatest device sector bytes.now → LeavesOnly (R.moment rack.old) (R.moment rack.new) (R.left_since rack.old) (R.left_since rack.new) (HasMembers writes greatest (R.state rack.old)) }
    ensures sure_moment { R.tells rack.old → LeavesOnly (R.moment rack.old) (R.moment rack.new) (R.left_since rack.old) (R.left_since rack.new) (HasSure (R.state rack.old) disk sector 1) }
    ensures rack { Fails R.Rack rack.old rack.new result }
{
    if has_bytes(rack, disk, sector, bytes)? {
        return Ok(());
    }
    write_some(rack, disk, sector, bytes)?;
    Ok(())
}

/// Writes a run on a disk, but for sectors that read as its bytes already.
pub fn put_run<R: Rack>(rack: &mut R, disk: u32, run: &Run) -> Result<(), RackError>
    requires disk { disk < length (R.state rack.old).sizes }
    requires whole { length run.now.bytes % 512 ≡ 0 }
    requires range { run.now.place + length run.now.bytes / 512 ≤ slice_index (R.state rack.old).sizes disk }
    ensures written { R.tells rack.old → OnOk result (ReadsAs (R.state rack.new).reads disk run.now.place run.now.bytes) }
    ensures elsewhere { R.tells rack.old → KeepsSure (R.state rack.old) (R.state rack.new) disk run.now.place (length run.now.bytes / 512) }
    ensures keeps { (writes : List Sent) (greatest : ℕ) (second : Bool) → R.tells rack.old → disk ≡ member_disk run.now.device second → IsTaken writes greatest run.now → KeepsMembers writes greatest (R.state rack.old) (R.state rack.new) }
    ensures any_moment { (writes : List Sent) (greatest : ℕ) (second : Bool) → R.tells rack.old → disk ≡ member_disk run.now.device second → IsTaken writes greatest run.now → LeavesOnly (R.moment rack.old) (R.moment rack.new) (R.left_since rack.old) (R.left_since rack.new) (HasMembers writes greatest (R.state rack.old)) }
    ensures sure_moment { R.tells rack.old → LeavesOnly (R.moment rack.old) (R.moment rack.new) (R.left_since rack.old) (R.left_since rack.new) (HasSure (R.state rack.old) disk run.now.place (length run.now.bytes / 512)) }
    ensures rack { Fails R.Rack rack.old rack.new result }
{
    let _sectors = rack.sectors(disk);
    let bytes = run.bytes.bytes();
    for i in 0..bytes.len() / 512 {
        put_sector(rack, disk, run.place + i as u64, sector_in(bytes, i))?;
    }
    Ok(())
}

/// Writes a run on both members of its device, but for sectors that read as its bytes already.
pub fn put_both<R: Rack>(rack: &mut R, run: &Run) -> Result<(), RackError>
    requires disk { 4 + 2 * run.now.device < length (R.state rack.old).sizes }
    requires whole { length run.now.bytes % 512 ≡ 0 }
    requires first { run.now.place + length run.now.bytes / 512 ≤ slice_index (R.state rack.old).sizes (3 + 2 * run.now.device) }
    requires second { run.now.place + length run.now.bytes / 512 ≤ slice_index (R.state rack.old).sizes (4 + 2 * run.now.device) }
    ensures written { (second : Bool) → R.tells rack.old → OnOk result (ReadsAs (R.state rack.new).reads (member_disk run.now.device second) run.now.place run.now.bytes) }
    ensures keeps { (writes : List Sent) (greatest : ℕ) → R.tells rack.old → IsTaken writes greatest run.now → KeepsMembers writes greatest (R.state rack.old) (R.state rack.new) }
    ensures any_moment { (writes : List Sent) (greatest : ℕ) → R.tells rack.old → IsTaken writes greatest run.now → LeavesOnly (R.moment rack.old) (R.moment rack.new) (R.left_since rack.old) (R.left_since rack.new) (HasMembers writes greatest (R.state rack.old)) }
    ensures rack { Fails R.Rack rack.old rack.new result }
{
    let _disks = rack.disks();
    put_run(rack, 3 + 2 * run.device, run)?;
    put_run(rack, 4 + 2 * run.device, run)?;
    Ok(())
}

/// Makes both members of a device sure.
pub fn sync_both<R: Rack>(rack: &mut R, device: u32) -> Result<(), DiskFault>
    requires disk { 4 + 2 * device < length (R.state rack.old).sizes }
    ensures sure { (second : Bool) (sector : ℕ) → R.tells rack.old → OnOk result ((R.state rack.new).unsure (member_disk device second) sector ≡ false) }
    ensures keeps { R.tells rack.old → SameDisks (R.state rack.old) (R.state rack.new) }
    ensures any_moment { (writes : List Sent) (greatest : ℕ) → R.tells rack.old → LeavesOnly (R.moment rack.old) (R.moment rack.new) (R.left_since rack.old) (R.left_since rack.new) (HasMembers writes greatest (R.state rack.old)) }
    ensures rack { Faults R.Rack rack.old rack.new result }
{
    let _disks = rack.disks();
    sync_disk(rack, 3 + 2 * device)?;
    sync_disk(rack, 4 + 2 * device)?;
    Ok(())
}

/// A sector of bytes.
#[tactic(auto, unfolding(bx_disk::specs::Disks::sector_of))]
fn sector_in(bytes: &[u8], i: usize) -> &[u8]
    requires { 512 * i + 512 ≤ length bytes.now }
    ensures is { result.now ≡ sector_of bytes.now i }
    ensures long { length result.now ≡ 512 }
{
    &bytes[512 * i..512 * i + 512]
}
