//! What a member of the device says.

use crate::bench::is_bench;
use bx_base::OutOfMemory;
use bx_calls::read_sectors;
use bx_disk::Rack;
use bx_homes::{open_gates, read_home};
use bx_layout::Block;
use bx_places::is_block;
use bx_records::RecordHead;
use std::alloc::Global;

/// How many gates are open from the first one on, by a member; 9 where that can't be read.
pub fn gates<R: Rack>(rack: &mut R, second: bool) -> u32 {
    if !is_bench(rack) {
        return 9;
    }
    let found = if second {
        open_gates(rack, 1, true, 0)
    } else {
        open_gates(rack, 1, false, 0)
    };
    found.unwrap_or(9)
}

/// The byte that a block is filled with; 0 where it isn't filled with one.
fn byte_of(block: &Block) -> u8 {
    let bytes = block.payload.bytes();
    match bytes.first() {
        Some(first) if bytes.iter().all(|byte| byte == first) => *first,
        _ => 0,
    }
}

/// The byte of the block in a home, by a member; 0 where there is none.
fn at_home<R: Rack>(alloc: Global, rack: &mut R, second: bool, at: u64) -> Result<u8, OutOfMemory> {
    if !is_bench(rack) || !is_block(at, 1) {
        return Ok(0);
    }
    let found = if second {
        read_home(alloc, rack, 1, 1, true, at)
    } else {
        read_home(alloc, rack, 1, 1, false, at)
    };
    Ok(match found {
        Ok(Some(block)) => byte_of(&block),
        _ => 0,
    })
}

/// Reads sectors of a member, and says whether that went well.
pub fn reads<R: Rack>(rack: &mut R, second: bool, sector: u64, into: &mut [u8]) -> bool {
    let disk = if second { 4 } else { 3 };
    is_bench(rack)
        && into.len() % 512 == 0
        && into.len() <= 512 * 1168
        && sector <= 8000
        && read_sectors(rack, disk, sector, into).is_ok()
}

/// The header of the record in a body, by a member.
pub(crate) fn head_in<R: Rack>(
    alloc: Global,
    rack: &mut R,
    second: bool,
    body: u32,
) -> Result<Option<RecordHead>, OutOfMemory> {
    let mut sector = [0; 512];
    if !reads(rack, second, 9 + 145 * u64::from(body.min(7)), &mut sector) {
        return Ok(None);
    }
    RecordHead::read(alloc, &sector)
}

/// A block of the record in a body, by a member.
pub(crate) fn block_in<R: Rack>(
    alloc: Global,
    rack: &mut R,
    second: bool,
    body: u32,
    index: usize,
) -> Result<Option<Block>, OutOfMemory> {
    let mut bytes = [0; 4608];
    let sector = 10 + 145 * u64::from(body.min(7)) + 9 * index.min(15) as u64;
    if !reads(rack, second, sector, &mut bytes) {
        return Ok(None);
    }
    Block::read(alloc, &bytes)
}

/// The byte of a block of the record in the first body, by a member: nothing where the record hasn't the block, and 0 where there is
/// no record, or no block.
fn in_record<R: Rack>(
    alloc: Global,
    rack: &mut R,
    second: bool,
    at: u64,
) -> Result<Option<u8>, OutOfMemory> {
    let Some(head) = head_in(alloc, rack, second, 0)? else {
        return Ok(Some(0));
    };
    for (index, number) in head.blocks.items().iter().enumerate() {
        if *number == at {
            let found = block_in(alloc, rack, second, 0, index)?;
            return Ok(Some(found.map_or(0, |block| byte_of(&block))));
        }
    }
    Ok(None)
}

/// The byte of a block as a volume with a log of at most one record has it, by a member; 0 where it has none.
pub fn sees<R: Rack>(
    alloc: Global,
    rack: &mut R,
    second: bool,
    at: u64,
) -> Result<u8, OutOfMemory> {
    match gates(rack, second) {
        0 => at_home(alloc, rack, second, at),
        1 => match in_record(alloc, rack, second, at)? {
            Some(byte) => Ok(byte),
            None => at_home(alloc, rack, second, at),
        },
        _ => Ok(0),
    }
}
