//! The writes of a cell.

ghost use Rattle.std.specs.Prelude.{◌≡◌, ℕ, ◌+◌, ◌-◌, ◌*◌, ◌/◌, ◌%◌, ◌^◌, ◌<◌, ◌≤◌, true, false, length, slice_index, Some, OnOk};
ghost use Rattle.bx_disk.specs.Kept.{FaultsOn, FailsOn};
ghost use Rattle.bx_disk.specs.Disks.{IsImage};
ghost use Rattle.bx_calls.specs.Regions.{ReadsAs, IsSynced};
ghost use Rattle.bx_calls.specs.Calls.{KeepsSure, KeepsAll, HasSure, LeavesOnly};
ghost use Rattle.bx_cell.specs.Halves.{Found, is_open, cell_in};
ghost use Rattle.bx_cell.specs.Bytes.{body_text};
ghost use Rattle.bx_cell.specs.Images.{EachImage, EachSure};
ghost use Rattle.bx_cell.specs.Cells.{ClosesOnly, HasBefore, HasEither, CellStands, next};

use crate::halves::{BODY, HALF_SECTORS, reads_open, write_body};
use bx_calls::{read_sectors, sync_disk, write_through};
use bx_disk::{DiskFault, Rack, RackError};
use bx_layout::Gate;
use bx_places::SECTOR;

/// Makes the disk sure, and reads sectors of it.
pub fn sync_and_read<R: Rack>(
    rack: &mut R,
    disk: u32,
    sector: u64,
    into: &mut [u8],
) -> Result<(), DiskFault>
    requires disk { disk < length (R.state rack.old).sizes }
    requires whole { length into.old % 512 ≡ 0 }
    requires range { sector + length into.old / 512 ≤ slice_index (R.state rack.old).sizes disk }
    ensures bytes { R.tells rack.old → OnOk result (ReadsAs (R.state rack.old).reads disk sector into.new) }
    ensures sure { R.tells rack.old → OnOk result (IsSynced (R.state rack.new) disk) }
    ensures keeps { R.tells rack.old → KeepsAll (R.state rack.old) (R.state rack.new) disk }
    ensures any_moment { R.tells rack.old → LeavesOnly (R.moment rack.old) (R.moment rack.new) (R.left_since rack.old) (R.left_since rack.new) (IsImage (R.state rack.old)) }
    ensures rack { FaultsOn R.Rack rack.old rack.new disk result }
{
    sync_disk(rack, disk)?;
    read_sectors(rack, disk, sector, into)?;
    Ok(())
}

/// Closes a gate. One that reads closed isn't written: a torn write could open it.
fn close_gate<R: Rack>(rack: &mut R, disk: u32, sector: u64) -> Result<(), RackError>
    requires disk { disk < length (R.state rack.old).sizes }
    requires range { sector + 1 ≤ slice_index (R.state rack.old).sizes disk }
    ensures closed { R.tells rack.old → OnOk result (is_open ((R.state rack.new).reads disk sector) ≡ false) }
    ensures sure { R.tells rack.old → IsSynced (R.state rack.old) disk → OnOk result (IsSynced (R.state rack.new) disk) }
    ensures keeps { R.tells rack.old → KeepsSure (R.state rack.old) (R.state rack.new) disk sector 1 }
    ensures any_moment { R.tells rack.old → IsSynced (R.state rack.old) disk → LeavesOnly (R.moment rack.old) (R.moment rack.new) (R.left_since rack.old) (R.left_since rack.new) (ClosesOnly (R.state rack.old) disk sector) }
    ensures either { R.tells rack.old → IsSynced (R.state rack.old) disk → EachSure (R.state rack.new) (ClosesOnly (R.state rack.old) disk sector) }
    ensures beside { R.tells rack.old → LeavesOnly (R.moment rack.old) (R.moment rack.new) (R.left_since rack.old) (R.left_since rack.new) (HasSure (R.state rack.old) disk sector 1) }
    ensures rack { FailsOn R.Rack rack.old rack.new disk result }
{
    let mut gate = [0; SECTOR];
    read_sectors(rack, disk, sector, &mut gate)?;
    if !reads_open(&gate) {
        return Ok(());
    }
    Gate::Closed.write(&mut gate);
    write_through(rack, disk, sector, &gate)?;
    Ok(())
}

/// Makes the disk sure, and closes the gate of the half of a cell that doesn't have its value.
fn clear_half<R: Rack>(rack: &mut R, disk: u32, base: u64, half: u64) -> Result<(), RackError>
    requires disk { disk < length (R.state rack.old).sizes }
    requires range { base + 20 ≤ slice_index (R.state rack.old).sizes disk }
    requires half { half < 2 }
    ensures closed { R.tells rack.old → OnOk result (is_open ((R.state rack.new).reads disk (base + 10 * half)) ≡ false) }
    ensures stands { R.tells rack.old → (found : Found) → found.half + half ≡ 1 → EachImage (R.state rack.old) (λ image. cell_in (image disk) base ≡ Some found)
        → OnOk result (CellStands (R.state rack.old) (R.state rack.new) disk base found) }
    ensures any_moment { R.tells rack.old → (found : Found) → found.half + half ≡ 1 → EachImage (R.state rack.old) (λ image. cell_in (image disk) base ≡ Some found)
        → LeavesOnly (R.moment rack.old) (R.moment rack.new) (R.left_since rack.old) (R.left_since rack.new) (HasBefore (R.state rack.old) disk base found) }
    ensures either { R.tells rack.old → (found : Found) → found.half + half ≡ 1 → EachSure (R.state rack.old) (λ image. cell_in (image disk) base ≡ Some found)
        → EachSure (R.state rack.new) (HasBefore (R.state rack.old) disk base found) }
    ensures keeps { R.tells rack.old → KeepsSure (R.state rack.old) (R.state rack.new) disk base 20 }
    ensures beside { R.tells rack.old → LeavesOnly (R.moment rack.old) (R.moment rack.new) (R.left_since rack.old) (R.left_since rack.new) (HasSure (R.state rack.old) disk base 20) }
    ensures rack { FailsOn R.Rack rack.old rack.new disk result }
{
    let _sectors = rack.sectors(disk);
    sync_disk(rack, disk)?;
    close_gate(rack, disk, base + HALF_SECTORS * half)?;
    Ok(())
}

/// Writes the header and the value of the half that begins at a sector, and makes them sure.
fn fill_half<R: Rack>(
    rack: &mut R,
    disk: u32,
    start: u64,
    number: u64,
    value: &[u8],
) -> Result<(), RackError>
    requires disk { disk < length (R.state rack.old).sizes }
    requires range { start + 10 ≤ slice_index (R.state rack.old).sizes disk }
    requires short { length value.now ≤ 4096 }
    ensures written { R.tells rack.old → OnOk result (ReadsAs (R.state rack.new).reads disk (start + 1) (body_text number value.now)) }
    ensures sure { R.tells rack.old → OnOk result (IsSynced (R.state rack.new) disk) }
    ensures keeps { R.tells rack.old → KeepsSure (R.state rack.old) (R.state rack.new) disk (start + 1) 9 }
    ensures any_moment { R.tells rack.old → LeavesOnly (R.moment rack.old) (R.moment rack.new) (R.left_since rack.old) (R.left_since rack.new) (HasSure (R.state rack.old) disk (start + 1) 9) }
    ensures rack { FailsOn R.Rack rack.old rack.new disk result }
{
    let _sectors = rack.sectors(disk);
    let mut body = [0; BODY];
    write_body(&mut body, number, value);
    write_through(rack, disk, start + 1, &body)?;
    Ok(())
}

/// Opens a gate, and makes that sure.
fn open_gate<R: Rack>(rack: &mut R, disk: u32, sector: u64) -> Result<(), RackError>
    requires disk { disk < length (R.state rack.old).sizes }
    requires range { sector + 1 ≤ slice_index (R.state rack.old).sizes disk }
    ensures opened { R.tells rack.old → OnOk result (is_open ((R.state rack.new).reads disk sector) ≡ true) }
    ensures sure { R.tells rack.old → OnOk result (IsSynced (R.state rack.new) disk) }
    ensures keeps { R.tells rack.old → KeepsSure (R.state rack.old) (R.state rack.new) disk sector 1 }
    ensures any_moment { R.tells rack.old → LeavesOnly (R.moment rack.old) (R.moment rack.new) (R.left_since rack.old) (R.left_since rack.new) (HasSure (R.state rack.old) disk sector 1) }
    ensures rack { FailsOn R.Rack rack.old rack.new disk result }
{
    let mut gate = [0; SECTOR];
    Gate::Open.write(&mut gate);
    write_through(rack, disk, sector, &gate)?;
    Ok(())
}

/// Puts a value into the half of a cell that doesn't have it, under a number.
pub fn replace<R: Rack>(
    rack: &mut R,
    disk: u32,
    base: u64,
    half: u64,
    number: u64,
    value: &[u8],
) -> Result<(), RackError>
    requires disk { disk < length (R.state rack.old).sizes }
    requires range { base + 20 ≤ slice_index (R.state rack.old).sizes disk }
    requires half { half < 2 }
    requires short { length value.now ≤ 4096 }
    ensures holds { R.tells rack.old → (found : Found) → found.half + half ≡ 1 → found.number + 1 ≡ number
        → EachImage (R.state rack.old) (λ image. cell_in (image disk) base ≡ Some found)
        → OnOk result (EachSure (R.state rack.new) (λ image. cell_in (image disk) base ≡ Some (next found value.now))) }
    ensures any_moment { R.tells rack.old → (found : Found) → found.half + half ≡ 1 → found.number + 1 ≡ number
        → EachImage (R.state rack.old) (λ image. cell_in (image disk) base ≡ Some found)
        → LeavesOnly (R.moment rack.old) (R.moment rack.new) (R.left_since rack.old) (R.left_since rack.new) (HasEither (R.state rack.old) disk base found (next found value.now)) }
    ensures either { R.tells rack.old → (found : Found) → found.half + half ≡ 1 → found.number + 1 ≡ number
        → EachSure (R.state rack.old) (λ image. cell_in (image disk) base ≡ Some found)
        → EachSure (R.state rack.new) (HasEither (R.state rack.old) disk base found (next found value.now)) }
    ensures sure { R.tells rack.old → OnOk result (IsSynced (R.state rack.new) disk) }
    ensures keeps { R.tells rack.old → KeepsSure (R.state rack.old) (R.state rack.new) disk base 20 }
    ensures beside { R.tells rack.old → LeavesOnly (R.moment rack.old) (R.moment rack.new) (R.left_since rack.old) (R.left_since rack.new) (HasSure (R.state rack.old) disk base 20) }
    ensures rack { FailsOn R.Rack rack.old rack.new disk result }
{
    let _sectors = rack.sectors(disk);
    let start = base + HALF_SECTORS * half;
    clear_half(rack, disk, base, half)?;
    fill_half(rack, disk, start, number, value)?;
    open_gate(rack, disk, start)?;
    Ok(())
}
