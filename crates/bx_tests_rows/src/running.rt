//! What the command answers to a row.

use crate::racks::prepared;
use crate::row::Row;
use anyhow::{Error, anyhow};
use bx_base::OutOfMemory;
use bx_disk::Rack;
use bx_memory_rack::MemRack;
use bx_outside::{MemSink, MemSource};
use bx_top::boxwood;
use std::alloc::{AllocError, Global};

/// The status, and the lines of the output and of the errors, as a row spells them, with a line feed at the end.
pub(crate) fn answer(alloc: Global, row: &Row) -> Result<String, Error> {
    let mut bytes = Vec::new(alloc);
    let mut rack = prepared(alloc, row)?;
    if put_answer(alloc, row, &mut rack, &mut bytes).is_err() {
        return Err(anyhow!("out of memory"));
    }
    match String::from_utf8(bytes) {
        Ok(text) => Ok(text),
        Err(_) => Err(anyhow!("what was written is no text")),
    }
}

/// Runs the command, and spells what it answers.
fn put_answer<R: Rack>(
    alloc: Global,
    row: &Row,
    rack: &mut R,
    text: &mut Vec<u8>,
) -> Result<(), OutOfMemory> {
    let mut out = MemSink::new(alloc, row.writes.as_slice())?;
    let mut err = MemSink::new(alloc, row.tells.as_slice())?;
    let status = run(alloc, row, &mut out, &mut err, rack)?;
    text.push(b'0' + status % 10)?;
    text.push(b'\n')?;
    put_lines(text, b"> ", out.bytes())?;
    put_lines(text, b"! ", err.bytes())?;
    Ok(())
}

/// Runs the command over disks in memory.
pub(crate) fn run<R: Rack>(
    alloc: Global,
    row: &Row,
    out: &mut MemSink,
    err: &mut MemSink,
    rack: &mut R,
) -> Result<u8, OutOfMemory> {
    let mut input = MemSource::new(alloc, row.input.as_slice(), row.reads.as_slice())?;
    let mut bench = MemRack::new(alloc, &[], row.calls.as_slice())?;
    Ok(boxwood(
        alloc,
        row.words.as_slice(),
        &mut input,
        out,
        err,
        &mut bench,
        rack,
    ))
}

/// Spells lines, with a mark before each.
fn put_lines(text: &mut Vec<u8>, mark: &[u8], lines: &[u8]) -> Result<(), AllocError> {
    let mut begins = true;
    for byte in lines {
        if begins {
            text.extend_from_slice(mark)?;
        }
        text.push(*byte)?;
        begins = *byte == b'\n';
    }
    Ok(())
}
