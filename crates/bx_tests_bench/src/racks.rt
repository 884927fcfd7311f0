//! Racks in memory whose members crash.

use crate::bench::SIZES;
use crate::drafts::{Bytes, go_home};
use bx_base::OutOfMemory;
use bx_disk::{CrashRack, Noise, Rack};
use bx_memory_rack::MemRack;
use std::alloc::Global;

/// What two blocks are filled with before any record.
const FORMATTED: [Bytes; 2] = [(0, 10), (7, 17)];

/// What the disks of both members make of unsure sectors.
pub type Ways = (Noise, Noise);

/// A rack of which the homes of two blocks are written, block 0 filled with 10 and block 7 with 17, and whether they are.
pub fn formatted(alloc: Global) -> Result<(MemRack, bool), OutOfMemory> {
    let mut rack = MemRack::new(alloc, &SIZES, &[])?;
    let written = go_home(alloc, &mut rack, &FORMATTED)?;
    Ok((rack, written))
}

/// Lets both members crash, and says whether that went well.
pub fn crash(rack: &mut MemRack, ways: Ways) -> bool {
    rack.disks() == 5 && rack.crash(3, ways.0).is_ok() && rack.crash(4, ways.1).is_ok()
}
