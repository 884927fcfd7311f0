//! A cell that is read, and not opened.

ghost use Rattle.std.specs.Prelude.{◌≡◌, ◌+◌, ◌<◌, ◌≤◌, length, slice_index, Some, None, IfOk, IfSome, IfNone};
ghost use Rattle.bx_cell.specs.Halves.{Found, cell_in};
ghost use Rattle.bx_disk.specs.Kept.{FailsOn};

use crate::halves::{CELL, place_of, value_of};
use bx_base::Raw;
use bx_calls::read_sectors;
use bx_disk::{Rack, RackError};
use std::alloc::Global;

/// What a cell has.
#[derive(Drop)]
pub struct CellValue {
    /// The number of the half that has it.
    pub number: u64,
    /// The value.
    pub value: Raw,
}

/// Reads the cell whose first sector this is, and changes nothing. `None` exactly where neither half has an open gate and a length of at
/// most 4096.
pub fn read_cell<R: Rack>(
    alloc: Global,
    rack: &mut R,
    disk: u32,
    base: u64,
) -> Result<Option<CellValue>, RackError>
    requires disk { disk < length (R.state rack.old).sizes }
    requires range { base + 20 ≤ slice_index (R.state rack.old).sizes disk }
    ensures some { R.tells rack.old → IfOk result (λ read. IfSome read (λ cell. (found : Found) × (cell_in ((R.state rack.old).reads disk) base ≡ Some found) × (found.number ≡ cell.number) × (found.value ≡ cell.value))) }
    ensures none { R.tells rack.old → IfOk result (λ read. IfNone read (cell_in ((R.state rack.old).reads disk) base ≡ None)) }
    ensures stays { R.state rack.new ≡ R.state rack.old }
    ensures rack { FailsOn R.Rack rack.old rack.new disk result }
{
    let mut bytes = [0; CELL];
    read_sectors(rack, disk, base, &mut bytes)?;
    let Some(place) = place_of(&bytes) else {
        return Ok(None);
    };
    let value = Raw::of(alloc, value_of(&bytes, place))?;
    Ok(Some(CellValue {
        number: place.head.number,
        value,
    }))
}
