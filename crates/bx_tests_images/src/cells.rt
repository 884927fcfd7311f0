//! Cells.

use bx_cell::{Cell, CellError};
use bx_disk::Rack;
use bx_tests_lines::Line;
use std::alloc::Global;

/// Tells the cell on a disk whose first sector this is: its number and its value.
pub(crate) fn tell<R: Rack>(alloc: Global, line: &mut Line, rack: &mut R, numbers: &[u64]) {
    let [disk, base] = *numbers else {
        return line.text("no cell is asked for");
    };
    if disk >= u64::from(rack.disks()) {
        return line.text("no disk");
    }
    let disk = disk as u32;
    if base > 1000 || base + 20 > rack.sectors(disk) {
        return line.text("no room");
    }
    match Cell::open(alloc, rack, disk, base) {
        Ok(cell) => {
            line.number(cell.number());
            line.bytes(cell.get());
        }
        Err(CellError::NoCell) => line.text("none"),
        Err(_) => line.text("fault"),
    }
}
