//! A recovery of the log in slot 0: gates, homes, closing.

use crate::bench::stores;
use crate::life::{Reached, moves};
use crate::looks::{block_in, gates, head_in, reads};
use bx_base::{OutOfMemory, Raw};
use bx_disk::Rack;
use bx_places::{is_block, place};
use bx_records::{Run, Runs};
use bx_redo::Log;
use std::alloc::Global;

/// The kind of the packets that carry settled gates.
const SETTLE: u8 = 18;

/// Writes the gates of the log in slot 0 back as the first member has them, and says whether that went well.
fn settles<R: Rack>(alloc: Global, rack: &mut R) -> Result<bool, OutOfMemory> {
    let mut bytes = [0; 4096];
    if !reads(rack, false, 1, &mut bytes) {
        return Ok(false);
    }
    let mut runs = Runs::new(alloc, SETTLE);
    runs.push(Run {
        device: 0,
        place: 1,
        bytes: Raw::of(alloc, &bytes)?,
    })?;
    Ok(stores(rack, &runs))
}

/// Writes a block of the record in a body into its home, and says whether that went well.
fn block_goes_home<R: Rack>(
    alloc: Global,
    rack: &mut R,
    body: u32,
    index: usize,
    at: u64,
) -> Result<bool, OutOfMemory> {
    let Some(_block) = block_in(alloc, rack, false, body, index)? else {
        return Ok(false);
    };
    let mut bytes = [0; 4608];
    let sector = 10 + 145 * u64::from(body.min(7)) + 9 * index.min(15) as u64;
    if !is_block(at, 1) || !reads(rack, false, sector, &mut bytes) {
        return Ok(false);
    }
    let (device, place) = place(at, 1, 1);
    let mut runs = Runs::new(alloc, 16);
    runs.push(Run {
        device,
        place,
        bytes: Raw::of(alloc, &bytes)?,
    })?;
    Ok(stores(rack, &runs))
}

/// Writes the blocks of the record in a body into their homes, and says whether that went well.
fn record_goes_home<R: Rack>(alloc: Global, rack: &mut R, body: u32) -> Result<bool, OutOfMemory> {
    let Some(head) = head_in(alloc, rack, false, body)? else {
        return Ok(false);
    };
    for (index, at) in head.blocks.items().iter().enumerate() {
        if !block_goes_home(alloc, rack, body, index, *at)? {
            return Ok(false);
        }
    }
    Ok(true)
}

/// Closes a log that was found with so many open records, and says whether that went well.
fn closes_found<R: Rack>(alloc: Global, rack: &mut R, count: u32) -> Result<bool, OutOfMemory> {
    let mut log = Log::found(alloc, 0, 0, count.min(8));
    let mut reached = Reached::START;
    moves(&mut log, rack, &mut reached)
}

/// Recovers the log, and says how many records it found open once the gates were sure; nothing where the rack stopped before that.
/// What is left of it is done as far as the rack goes.
pub fn recovers<R: Rack>(alloc: Global, rack: &mut R) -> Result<Option<u32>, OutOfMemory> {
    if !settles(alloc, rack)? {
        return Ok(None);
    }
    let count = gates(rack, false);
    if count > 8 {
        return Ok(None);
    }
    for body in 0..count {
        if !record_goes_home(alloc, rack, body)? {
            return Ok(Some(count));
        }
    }
    closes_found(alloc, rack, count)?;
    Ok(Some(count))
}
