//! What calls do to disks in memory, and to the record.

ghost use Rattle.std.specs.Prelude.{◌≡◌, ◌+◌, ◌/◌, ◌%◌, ◌^◌, ◌<◌, ◌≤◌, ◌==◌, [], ◌∷◌, ◌++◌, length, slice_index, vec_capacity, ℕ, slice_set, IfOk, OnOk, OnErr, IsErr};
ghost use Rattle.std.specs.List.{list_any};
ghost use Rattle.bx_disk.specs.declared.entry.Entry.TheVariants.{Wrote, Shaped, Crashed, Blanked};
ghost use Rattle.bx_base.specs.Faults.{count_up};
ghost use Rattle.bx_disk.specs.Disks.{Disks, written, synced, shaped, blanked};
ghost use Rattle.bx_disk.specs.Crash.{crashed};
ghost use Rattle.bx_memory_rack.specs.Memory.{AreKept, NotesSync, owed};

use crate::mem_disk::MemDisk;
use bx_base::{OutOfMemory, Raw};
use bx_disk::{Entry, Noise, Sizes};
use std::alloc::Global;

/// Writes sectors, and notes it. For want of memory all stays as it was.
pub fn write_sectors(
    alloc: Global,
    disks: &mut Vec<MemDisk>,
    entries: &mut Vec<Entry>,
    disk: u32,
    sector: u64,
    bytes: &[u8],
) -> Result<(), OutOfMemory>
    requires there { disk < length disks.old.items }
    requires whole { length bytes.now % 512 ≡ 0 }
    requires range { sector + length bytes.now / 512 < 2 ^ 64 }
    ensures ok { OnOk result (entries.new.items ≡ entries.old.items ++ Wrote disk sector bytes.now ∷ []) }
    ensures err { OnErr result (entries.new.items ≡ entries.old.items) }
    ensures kept { (before : Disks) → AreKept before disks.old.items (length entries.old.items) → sector + length bytes.now / 512 ≤ slice_index before.sizes disk → OnOk result (AreKept (written before disk sector bytes.now) disks.new.items (length entries.old.items + 1)) }
    ensures kept_err { (before : Disks) → AreKept before disks.old.items (length entries.old.items) → IsErr result → AreKept before disks.new.items (length entries.old.items) }
    ensures room { owed disks.old.items + length entries.old.items ≤ vec_capacity entries.old → owed disks.new.items + length entries.new.items ≤ vec_capacity entries.new }
    ensures many { length disks.new.items ≡ length disks.old.items }
{
    entries.reserve(disks.len() + 1)?;
    let copy = Raw::of(alloc, bytes)?;
    let place = &mut disks[disk as usize];
    place.make_room(alloc, sector, (bytes.len() / 512) as u64)?;
    entries.push_reserved(Entry::Wrote(disk, sector, copy));
    place.write(sector, bytes, entries.len());
    Ok(())
}

/// Makes all sectors of a disk sure, and notes it where one was unsure.
pub fn sync_sectors(disks: &mut Vec<MemDisk>, entries: &mut Vec<Entry>, disk: u32)
    requires there { disk < length disks.old.items }
    requires room { owed disks.old.items + length entries.old.items ≤ vec_capacity entries.old }
    ensures room { owed disks.new.items + length entries.new.items ≤ vec_capacity entries.new }
    ensures noted { (before : Disks) → AreKept before disks.old.items (length entries.old.items) → NotesSync before disk entries.old.items entries.new.items }
    ensures kept { (before : Disks) → AreKept before disks.old.items (length entries.old.items) → AreKept (synced before disk) disks.new.items (length entries.new.items) }
    ensures many { length disks.new.items ≡ length disks.old.items }
{
    let place = &mut disks[disk as usize];
    if place.dirty {
        entries.push_reserved(Entry::Synced(disk));
        place.mark_synced(entries.len());
    }
}

/// Disks of these sizes, all of zeros, once the record is so long.
pub fn make_disks(alloc: Global, sizes: &[u64], synced: usize) -> Result<Vec<MemDisk>, OutOfMemory>
    ensures kept { IfOk result (λ disks. AreKept (shaped sizes.now) disks.items synced) }
    ensures owed { IfOk result (λ disks. owed disks.items ≡ 0) }
{
    let mut disks = Vec::new(alloc);
    for size in sizes {
        disks.push(MemDisk::blank(alloc, *size, synced))?;
    }
    Ok(disks)
}

/// Counts a call, and says whether its number stands among those that fail.
pub fn count_call(calls: &mut u64, failing: &[u64]) -> bool
    ensures counted { calls.new ≡ count_up calls.old }
    ensures fails { result ≡ list_any (λ n. n == calls.new) failing.now }
{
    *calls = calls.saturating_add(1);
    failing.contains(calls)
}

/// Counts a fault of a disk.
pub fn count_fault(by_disk: &mut Vec<u64>, disk: u32)
    requires { disk < length by_disk.old.items }
    ensures value { by_disk.new.items ≡ slice_set by_disk.old.items disk (count_up (slice_index by_disk.old.items disk)) }
    ensures later { (d : ℕ) → slice_index by_disk.old.items d ≤ slice_index by_disk.new.items d }
    ensures long { length by_disk.new.items ≡ length by_disk.old.items }
{
    let at = disk as usize;
    by_disk[at] = by_disk[at].saturating_add(1);
}

// Makes counts of 0 for disks that have none.
fn make_counts(by_disk: &mut Vec<u64>, disks: usize) -> Result<(), OutOfMemory>
    ensures counts { (d : ℕ) → slice_index by_disk.new.items d ≡ slice_index by_disk.old.items d }
    ensures long { OnOk result (disks ≤ length by_disk.new.items) }
    ensures longer { length by_disk.old.items ≤ length by_disk.new.items }
{
    while by_disk.len() < disks {
        by_disk.push(0)?;
    }
    Ok(())
}

/// Makes the disks anew, and notes it. For want of memory all stays as it was, but that there may be more counts.
pub fn shape_disks(
    alloc: Global,
    disks: &mut Vec<MemDisk>,
    entries: &mut Vec<Entry>,
    by_disk: &mut Vec<u64>,
    sizes: &[u64],
) -> Result<(), OutOfMemory>
    ensures ok { OnOk result (entries.new.items ≡ entries.old.items ++ Shaped sizes.now ∷ []) }
    ensures kept { OnOk result (AreKept (shaped sizes.now) disks.new.items (length entries.old.items + 1)) }
    ensures owed { OnOk result (owed disks.new.items ≡ 0) }
    ensures err { IsErr result → (entries.new.items ≡ entries.old.items) × (disks.new.items ≡ disks.old.items) }
    ensures room { vec_capacity entries.old ≤ vec_capacity entries.new }
    ensures fits { OnOk result (length entries.new.items ≤ vec_capacity entries.new) }
    ensures counts { (d : ℕ) → slice_index by_disk.new.items d ≡ slice_index by_disk.old.items d }
    ensures long { OnOk result (length sizes.now ≤ length by_disk.new.items) }
    ensures longer { length by_disk.old.items ≤ length by_disk.new.items }
{
    entries.reserve(1)?;
    make_counts(by_disk, sizes.len())?;
    let copy = Sizes::of(alloc, sizes)?;
    *disks = make_disks(alloc, sizes, entries.len() + 1)?;
    entries.push_reserved(Entry::Shaped(copy));
    Ok(())
}

/// Crashes a disk, and notes it. For want of memory all stays as it was.
pub fn crash_disk(
    disks: &mut Vec<MemDisk>,
    entries: &mut Vec<Entry>,
    disk: u32,
    how: Noise,
) -> Result<(), OutOfMemory>
    requires { disk < length disks.old.items }
    ensures ok { OnOk result (entries.new.items ≡ entries.old.items ++ Crashed disk how ∷ []) }
    ensures kept { (before : Disks) → AreKept before disks.old.items (length entries.old.items) → OnOk result (AreKept (crashed before disk how) disks.new.items (length entries.old.items + 1)) }
    ensures err { IsErr result → (entries.new.items ≡ entries.old.items) × (disks.new.items ≡ disks.old.items) }
    ensures room { owed disks.old.items + length entries.old.items ≤ vec_capacity entries.old → owed disks.new.items + length entries.new.items ≤ vec_capacity entries.new }
    ensures many { length disks.new.items ≡ length disks.old.items }
{
    entries.reserve(disks.len() + 1)?;
    entries.push_reserved(Entry::Crashed(disk, how));
    disks[disk as usize].crash(how, entries.len());
    Ok(())
}

/// Makes all sectors of a disk zero and sure, and notes it. For want of memory all stays as it was.
pub fn blank_disk(
    disks: &mut Vec<MemDisk>,
    entries: &mut Vec<Entry>,
    disk: u32,
) -> Result<(), OutOfMemory>
    requires { disk < length disks.old.items }
    ensures ok { OnOk result (entries.new.items ≡ entries.old.items ++ Blanked disk ∷ []) }
    ensures kept { (before : Disks) → AreKept before disks.old.items (length entries.old.items) → OnOk result (AreKept (blanked before disk) disks.new.items (length entries.old.items + 1)) }
    ensures err { IsErr result → (entries.new.items ≡ entries.old.items) × (disks.new.items ≡ disks.old.items) }
    ensures room { owed disks.old.items + length entries.old.items ≤ vec_capacity entries.old → owed disks.new.items + length entries.new.items ≤ vec_capacity entries.new }
    ensures many { length disks.new.items ≡ length disks.old.items }
{
    entries.reserve(disks.len() + 1)?;
    entries.push_reserved(Entry::Blanked(disk));
    disks[disk as usize].clear(entries.len());
    Ok(())
}
