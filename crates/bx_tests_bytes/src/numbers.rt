//! Fields, and the numbers of chunks and blocks.

use bx_base::{OutOfMemory, ReadError, push, push_u32, push_u64, put_u16, u16_at, u32_at, u64_at};
use bx_places::{ChunkHandle, file_handle, is_block, member_sectors, named_handle};
use bx_tests_lines::Line;
use std::alloc::Global;

/// Numbers of 16, 32 and 64 bits at the front, and the bytes behind them.
fn fields_of(bytes: &[u8]) -> Result<(u16, u32, u64, &[u8]), ReadError> {
    let (two, rest) = u16_at(bytes)?;
    let (four, rest) = u32_at(rest)?;
    let (eight, rest) = u64_at(rest)?;
    Ok((two, four, eight, rest))
}

/// Tells fields.
pub(crate) fn fields(alloc: Global, line: &mut Line, bytes: &[u8]) -> Result<(), OutOfMemory> {
    let Ok((two, four, eight, rest)) = fields_of(bytes) else {
        line.text("none");
        return Ok(());
    };
    line.numbers(&[u64::from(two), u64::from(four), eight]);
    line.bytes(rest);
    let mut front = [7; 2];
    let _end = put_u16(&mut front, 0, two);
    let mut written = Vec::new(alloc);
    push(&mut written, &front)?;
    push_u32(&mut written, four)?;
    push_u64(&mut written, eight)?;
    push(&mut written, rest)?;
    line.written(written.as_slice(), bytes);
    Ok(())
}

/// Tells the handle that a file handle of a volume names: its area, its slot and its generation, the block and the number of its file.
pub(crate) fn handle(line: &mut Line, bytes: &[u8]) {
    let Ok((volume, bytes)) = u64_at(bytes) else {
        return line.text("no volume");
    };
    let Some(number) = named_handle(volume, bytes) else {
        return line.text("none");
    };
    let handle = ChunkHandle::of(number);
    line.numbers(&[
        u64::from(handle.area),
        u64::from(handle.slot),
        u64::from(handle.generation),
        handle.block(),
        u64::from(handle.fileid()),
    ]);
    line.written(&file_handle(volume, handle.number()), bytes);
}

/// How many devices, how many areas, and the number of a block.
fn place_of(bytes: &[u8]) -> Result<(u32, u16, u64), ReadError> {
    let (devices, rest) = u32_at(bytes)?;
    let (areas, rest) = u16_at(rest)?;
    let (block, _rest) = u64_at(rest)?;
    Ok((devices, areas, block))
}

/// Tells the device and the sector of a block of a volume, and how many sectors a disk of a member has there.
pub(crate) fn place(line: &mut Line, bytes: &[u8]) {
    let Ok((devices, areas, block)) = place_of(bytes) else {
        return line.text("no place");
    };
    if !(1..=4).contains(&devices) || !(1..=64).contains(&areas) || !is_block(block, areas) {
        return line.text("none");
    }
    let (device, sector) = bx_places::place(block, devices, areas);
    line.numbers(&[u64::from(device), sector, member_sectors(devices, areas)]);
}
