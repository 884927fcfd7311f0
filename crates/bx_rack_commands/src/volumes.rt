//! A volume that is made on a rack.

ghost use Rattle.std.specs.Prelude.{ℕ, ◌<◌, ◌≤◌, length, slice_index, OnOk};
ghost use Rattle.bx_cell.specs.Formats.{KeepsBeside};
ghost use Rattle.bx_disk.specs.Kept.{Fails};
ghost use Rattle.bx_calls.specs.Calls.{LeavesOnly};
ghost use Rattle.bx_format.specs.Formats.{HasNoRecords, HasSizes, HoldsBlocks};
ghost use Rattle.bx_format.specs.Moments.{AreBare, IsInTheMaking, IsLabelSector, Spares};
ghost use Rattle.bx_places.specs.Places.{IsVolume};
ghost use Rattle.bx_rack_commands.specs.NewVolumes.{HaveFirstState, IsBareOrWhole, IsNewVolume};
ghost use Rattle.bx_truth.specs.Opening.{opening_truth};
ghost use Rattle.bx_format.specs.Kept.{FailsAnew};

use bx_acceptor::first_value;
use bx_cell::format_each;
use bx_disk::{Rack, RackError};
use bx_format::{label_disks, lay_out};
use bx_global_laws::{begins_allowed, formatted};
use bx_volume::one_first_label;
use std::alloc::Global;

/// How many replicas there are.
const REPLICAS: u32 = 3;

/// The first sector of a replica's cell, behind the label.
const CELL: u64 = 1;

/// Makes the disks of a rack anew a volume of 1 to 4 devices and 1 to 64 areas, whose file tree has the root alone: what was on them
/// is gone. The cells of its replicas hold the state that a volume begins with, and no record is in doubt. The labels come last, once
/// all else is sure: a crash before the end leaves what was there before, or disks without a label, or all of the volume but labels. After
/// an error the rack isn't used again.
pub fn format<R: Rack>(
    alloc: Global,
    rack: &mut R,
    volume: u64,
    devices: u32,
    areas: u16,
) -> Result<(), RackError>
    requires volume { IsVolume devices areas }
    ensures made { R.tells rack.old → OnOk result (IsNewVolume (R.state rack.new) (record { volume = volume; disk = 0; devices = devices; areas = areas })) }
    ensures moments { R.tells rack.old → OnOk result (LeavesOnly (R.moment rack.old) (R.moment rack.new) (R.left_since rack.old) (R.left_since rack.new) (IsInTheMaking (R.state rack.old) (R.state rack.new))) }
    ensures sizes { OnOk result (HasSizes (R.state rack.new).sizes devices areas) }
    ensures rack { FailsAnew R.Rack rack.old rack.new result }
{
    lay_out(alloc, rack, devices, areas)?;
    finish(alloc, rack, volume, devices, areas)?;
    Ok(())
}

/// Writes the cells of the replicas of a volume that is laid out, and then its labels. While a cell lacks what it is to hold no disk has a label,
/// also after an error.
fn finish<R: Rack>(
    alloc: Global,
    rack: &mut R,
    volume: u64,
    devices: u32,
    areas: u16,
) -> Result<(), RackError>
    requires volume { IsVolume devices areas }
    requires sizes { HasSizes (R.state rack.old).sizes devices areas }
    ensures made { R.tells rack.old → HoldsBlocks (R.state rack.old).reads devices areas opening_truth → HasNoRecords (R.state rack.old).sizes (R.state rack.old).reads
        → OnOk result (IsNewVolume (R.state rack.new) (record { volume = volume; disk = 0; devices = devices; areas = areas })) }
    ensures moments { R.tells rack.old → AreBare (R.state rack.old) → LeavesOnly (R.moment rack.old) (R.moment rack.new) (R.left_since rack.old) (R.left_since rack.new) (IsBareOrWhole (R.state rack.new) devices) }
    ensures rack { Fails R.Rack rack.old rack.new result }
{
    one_first_label();
    put_cells(alloc, rack, devices)?;
    label_disks(rack, volume, devices, areas)?;
    Ok(())
}

/// Writes the state that a volume of so many devices begins with into the cell of each replica.
fn put_cells<R: Rack>(alloc: Global, rack: &mut R, devices: u32) -> Result<(), RackError>
    requires least { 1 ≤ devices }
    requires most { devices ≤ 4 }
    requires disks { 3 ≤ length (R.state rack.old).sizes }
    requires room { (disk : ℕ) → disk < 3 → 21 ≤ slice_index (R.state rack.old).sizes disk }
    ensures cells { R.tells rack.old → OnOk result (HaveFirstState (R.state rack.new) devices) }
    ensures beside { R.tells rack.old → KeepsBeside (R.state rack.old) (R.state rack.new) 3 1 }
    ensures spares { R.tells rack.old → Spares IsLabelSector (R.state rack.old) (R.state rack.new) (R.moment rack.old) (R.moment rack.new) (R.left_since rack.old) (R.left_since rack.new) }
    ensures rack { Fails R.Rack rack.old rack.new result }
{
    begins_allowed();
    let state = formatted(alloc, devices)?;
    let value = first_value(alloc, &state)?;
    format_each(rack, REPLICAS, CELL, value.bytes())?;
    Ok(())
}
