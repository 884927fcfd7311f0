//! Chains of calls, which show that they close.

ghost use Rattle.std.specs.Prelude.{◌≡◌, ◌≢◌, ℕ, ◌+◌, ◌<◌, ◌≤◌, List, length, slice_index, OnOk, IsErrOf};
ghost use Rattle.bx_disk.specs.declared.fault.RackError.TheVariants.{Fault, OutOfMemory};
ghost use Rattle.bx_disk.specs.Disks.{Stays};
ghost use Rattle.bx_disk.specs.Counts.{NoneFalls, NoneRose, BothRose};
ghost use Rattle.bx_calls.specs.Regions.{ReadsAs, IsSure};
ghost use Rattle.bx_calls.specs.Calls.{KeepsSure, HasSure, LeavesOnly};

use bx_calls::{sync_disk, write_some, write_through};
use bx_disk::{Rack, RackError};

/// What a call of a rack answers that gives nothing else.
pub type CallResult = Result<(), RackError>;

/// Eight calls in a row, which are ten of the rack.
pub fn eight_calls<R: Rack>(rack: &mut R, disk: u32, sector: u64, bytes: &[u8]) -> CallResult
    requires disk { disk < length (R.state rack.old).sizes }
    requires whole { length bytes.now ≡ 512 }
    requires range { sector + 6 ≤ slice_index (R.state rack.old).sizes disk }
    ensures sure { R.tells rack.old → OnOk result (IsSure (R.state rack.new) disk sector 6) }
    ensures first { R.tells rack.old → OnOk result (ReadsAs (R.state rack.new).reads disk sector bytes.now) }
    ensures last { R.tells rack.old → OnOk result (ReadsAs (R.state rack.new).reads disk (sector + 5) bytes.now) }
    ensures keeps { R.tells rack.old → KeepsSure (R.state rack.old) (R.state rack.new) disk sector 6 }
    ensures any_moment { R.tells rack.old → LeavesOnly (R.moment rack.old) (R.moment rack.new) (R.left_since rack.old) (R.left_since rack.new) (HasSure (R.state rack.old) disk sector 6) }
    ensures cause { IsErrOf result Fault → BothRose (R.faults rack.old) (R.faults rack.new) (R.faults_of rack.old) (R.faults_of rack.new) disk }
    ensures later { NoneFalls (R.faults rack.old) (R.faults rack.new) (R.faults_of rack.old) (R.faults_of rack.new) }
    ensures memory_counts { IsErrOf result OutOfMemory → NoneRose (R.faults rack.old) (R.faults rack.new) (R.faults_of rack.old) (R.faults_of rack.new) }
    ensures no_fault { OnOk result (NoneRose (R.faults rack.old) (R.faults rack.new) (R.faults_of rack.old) (R.faults_of rack.new)) }
    ensures sizes { (R.state rack.new).sizes ≡ (R.state rack.old).sizes }
    ensures keeps_telling { R.tells rack.old → R.tells rack.new }
{
    let _sectors = rack.sectors(disk);
    write_some(rack, disk, sector, bytes)?;
    write_some(rack, disk, sector + 1, bytes)?;
    sync_disk(rack, disk)?;
    write_through(rack, disk, sector + 2, bytes)?;
    write_some(rack, disk, sector + 3, bytes)?;
    write_some(rack, disk, sector + 4, bytes)?;
    sync_disk(rack, disk)?;
    write_through(rack, disk, sector + 5, bytes)?;
    Ok(())
}

/// Two parts of a structure, each written through.
pub fn two_parts<R: Rack>(
    rack: &mut R,
    disk: u32,
    sector: u64,
    first: &[u8],
    second: &[u8],
) -> CallResult
    requires disk { disk < length (R.state rack.old).sizes }
    requires first { length first.now ≡ 512 }
    requires second { length second.now ≡ 1024 }
    requires range { sector + 3 ≤ slice_index (R.state rack.old).sizes disk }
    ensures first { R.tells rack.old → OnOk result (ReadsAs (R.state rack.new).reads disk sector first.now) }
    ensures second { R.tells rack.old → OnOk result (ReadsAs (R.state rack.new).reads disk (sector + 1) second.now) }
    ensures keeps { R.tells rack.old → KeepsSure (R.state rack.old) (R.state rack.new) disk sector 3 }
    ensures any_moment { R.tells rack.old → LeavesOnly (R.moment rack.old) (R.moment rack.new) (R.left_since rack.old) (R.left_since rack.new) (HasSure (R.state rack.old) disk sector 3) }
    ensures sizes { (R.state rack.new).sizes ≡ (R.state rack.old).sizes }
{
    let _sectors = rack.sectors(disk);
    write_through(rack, disk, sector, first)?;
    write_through(rack, disk, sector + 1, second)?;
    Ok(())
}

/// A write on one disk, and a sync of another whose fault is passed over. Third disks are as they were.
pub fn two_disks<R: Rack>(rack: &mut R, disk: u32, other: u32, bytes: &[u8]) -> CallResult
    requires disk { disk < length (R.state rack.old).sizes }
    requires other { other < length (R.state rack.old).sizes }
    requires whole { length bytes.now ≡ 512 }
    requires range { 1 ≤ slice_index (R.state rack.old).sizes disk }
    ensures first { R.tells rack.old → OnOk result (ReadsAs (R.state rack.new).reads disk 0 bytes.now) }
    ensures thirds { R.tells rack.old → (d s : ℕ) → d ≢ disk → d ≢ other → Stays (R.state rack.old) (R.state rack.new) d s }
    ensures behind { R.tells rack.old → (s : ℕ) → 1 ≤ s → (R.state rack.new).reads disk s ≡ (R.state rack.old).reads disk s }
    ensures any_moment { R.tells rack.old → LeavesOnly (R.moment rack.old) (R.moment rack.new) (R.left_since rack.old) (R.left_since rack.new) (HasSure (R.state rack.old) disk 0 1) }
    ensures sizes { (R.state rack.new).sizes ≡ (R.state rack.old).sizes }
{
    write_some(rack, disk, 0, bytes)?;
    let _passed_over = sync_disk(rack, other);
    Ok(())
}

/// Writes the second sector of a disk. Whatever the first one surely holds, each image has it, at any moment.
pub fn put_beside<R: Rack>(rack: &mut R, disk: u32, bytes: &[u8]) -> CallResult
    requires disk { disk < length (R.state rack.old).sizes }
    requires whole { length bytes.now ≡ 512 }
    requires range { 2 ≤ slice_index (R.state rack.old).sizes disk }
    ensures beside { (kept : List ℕ) → length kept ≡ 512 → R.tells rack.old → IsSure (R.state rack.old) disk 0 1 → ReadsAs (R.state rack.old).reads disk 0 kept
        → LeavesOnly (R.moment rack.old) (R.moment rack.new) (R.left_since rack.old) (R.left_since rack.new) (λ image. ReadsAs image disk 0 kept) }
    ensures sizes { (R.state rack.new).sizes ≡ (R.state rack.old).sizes }
{
    write_some(rack, disk, 1, bytes)?;
    sync_disk(rack, disk)?;
    write_through(rack, disk, 1, bytes)?;
    Ok(())
}
