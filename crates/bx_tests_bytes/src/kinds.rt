//! The kinds of bytes.

use crate::{layouts, lines, numbers, packets, pages, states, wire};
use anyhow::{Error, anyhow};
use bx_tests_lines::Line;
use std::alloc::Global;

/// Tells what bytes are as the kind that a word names:
/// - `datagram`: its call, and a sample of a reply
/// - `item`: opaque data of at most 8 bytes, and what is behind it
/// - `fields`: numbers of 16, 32 and 64 bits, and the bytes behind them
/// - `handle`: a volume, and a file handle
/// - `place`: how many devices and areas, and a block's number
/// - `label`, `gate`, `block`, `area`, `inode`, `head`, `page`: a disk's label, a gate, a block, an area's own block, an inode, the header of a
///   record, a page of a tree
/// - `state`: the state that the machines agree on
/// - `held`: how many devices, and what a cell holds
/// - `change`: a change of a state by its numbers, and the state
/// - `packet`: its kind, how many devices, and its body
/// - `schedule`, `trace`: a line of a schedule, the fields of a line of a trace
pub(crate) fn tell(alloc: Global, line: &mut Line, word: &str, bytes: &[u8]) -> Result<(), Error> {
    match word {
        "datagram" => wire::datagram(alloc, line, bytes)?,
        "item" => wire::item(alloc, line, bytes)?,
        "fields" => numbers::fields(alloc, line, bytes)?,
        "handle" => numbers::handle(line, bytes),
        "place" => numbers::place(line, bytes),
        "label" => layouts::label(line, bytes),
        "gate" => layouts::gate(line, bytes),
        "block" => layouts::block(alloc, line, bytes)?,
        "area" => layouts::area(alloc, line, bytes)?,
        "inode" => layouts::inode(alloc, line, bytes)?,
        "head" => layouts::head(alloc, line, bytes)?,
        "page" => pages::page(alloc, line, bytes)?,
        "state" => states::state(alloc, line, bytes)?,
        "held" => states::held(alloc, line, bytes)?,
        "change" => states::change(alloc, line, bytes)?,
        "packet" => packets::packet(alloc, line, bytes)?,
        "schedule" => lines::schedule(alloc, line, bytes)?,
        "trace" => lines::trace(alloc, line, bytes)?,
        _ => return Err(anyhow!("no kind")),
    }
    Ok(())
}
