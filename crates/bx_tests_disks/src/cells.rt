//! Calls of cells on the first disks of a rack, for tests.

ghost use Rattle.std.specs.Prelude.{◌≡◌, ◌+◌, ◌<◌, ◌≤◌, IsTrue, length, slice_index};

use bx_base::OutOfMemory;
use bx_cell::{Cell, CellError, format};
use bx_disk::Rack;
use std::alloc::Global;

/// Fills bytes with 3, 10, 17 and so on.
pub(crate) fn fill(bytes: &mut [u8]) {
    let mut next = 3u8;
    for byte in bytes.iter_mut() {
        *byte = next;
        next = next.wrapping_add(7);
    }
}

/// Whether a cell that begins at a sector fits the first disk.
pub(crate) fn has_room<R: Rack>(rack: &R, base: u64) -> bool
    ensures disk { IsTrue result → 0 < length (R.state rack.now).sizes }
    ensures room { IsTrue result → base + 20 ≤ slice_index (R.state rack.now).sizes 0 }
{
    rack.disks() > 0 && base < 1000 && base + 20 <= rack.sectors(0)
}

/// Writes a cell anew, and says whether that went well.
pub(crate) fn formats<R: Rack>(rack: &mut R, base: u64, value: &[u8]) -> bool {
    has_room(rack, base) && value.len() <= 4096 && format(rack, 0, base, value).is_ok()
}

/// Opens a cell and puts two values. Says how many were put, if memory didn't run out before.
pub(crate) fn puts_two<R: Rack>(
    alloc: Global,
    rack: &mut R,
    base: u64,
    first: &[u8],
    other: &[u8],
) -> Result<u32, OutOfMemory> {
    if !has_room(rack, base) || first.len() > 4096 || other.len() > 4096 {
        return Ok(0);
    }
    let mut cell = match Cell::open(alloc, rack, 0, base) {
        Ok(cell) => cell,
        Err(CellError::OutOfMemory) => return Err(OutOfMemory),
        Err(_) => return Ok(0),
    };
    if cell.number() > 1000 || cell.put(rack, first).is_err() {
        return Ok(0);
    }
    if cell.put(rack, other).is_err() {
        return Ok(1);
    }
    Ok(2)
}

/// The number and the length of a cell's value, and its first byte or 0, if there is a cell.
pub(crate) fn looks<R: Rack>(
    alloc: Global,
    rack: &mut R,
    base: u64,
) -> Result<Option<(u64, usize, u8)>, OutOfMemory> {
    if !has_room(rack, base) {
        return Ok(None);
    }
    let cell = match Cell::open(alloc, rack, 0, base) {
        Ok(cell) => cell,
        Err(CellError::OutOfMemory) => return Err(OutOfMemory),
        Err(_) => return Ok(None),
    };
    let value = cell.get();
    let first = value.first().copied().unwrap_or(0);
    Ok(Some((cell.number(), value.len(), first)))
}
