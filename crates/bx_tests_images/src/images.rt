//! Images of disks.

use crate::setting::{Setting, number_of, numbers_of};
use anyhow::{Error, anyhow};
use bx_disk::{Rack, RackError};
use bx_memory_rack::MemRack;
use bx_tests_lines::bytes_of;
use std::alloc::Global;

/// The most disks of a setting.
const MOST_DISKS: usize = 16;

/// The disks of a setting, with what stands on them by the lines of a file, and then by those of a row.
pub(crate) fn rack_of(
    alloc: Global,
    setting: &Setting<'_>,
    shared: &str,
    lines: &str,
) -> Result<MemRack, Error> {
    let sizes = numbers_of(alloc, setting.disks)?;
    if sizes.len() > MOST_DISKS {
        return Err(anyhow!("too many disks"));
    }
    let mut rack = MemRack::new(alloc, sizes.as_slice(), &[])?;
    put_all(alloc, &mut rack, shared)?;
    put_all(alloc, &mut rack, lines)?;
    Ok(rack)
}

/// Puts what the lines say.
fn put_all(alloc: Global, rack: &mut MemRack, lines: &str) -> Result<(), Error> {
    for line in lines.split('\n') {
        if let Some(text) = line.strip_prefix("at ") {
            put(alloc, rack, text)?;
        }
    }
    Ok(())
}

/// Puts what a line says.
fn put(alloc: Global, rack: &mut MemRack, text: &str) -> Result<(), Error> {
    let Some((disks, rest)) = text.split_once(' ') else {
        return Err(anyhow!("no sector"));
    };
    let (sector, spelled) = rest.split_once(' ').unwrap_or((rest, ""));
    let sector = number_of(sector)?;
    let bytes = bytes_of(alloc, spelled)?;
    for disk in disks.split(',') {
        put_on(rack, number_of(disk)?, sector, bytes.as_slice())?;
    }
    Ok(())
}

/// Puts bytes into the sectors of a disk from one on, where the disk has them.
fn put_on(rack: &mut MemRack, disk: u64, first: u64, bytes: &[u8]) -> Result<(), RackError> {
    let disk = disk.min(4294967295) as u32;
    let mut at = first;
    for piece in bytes.chunks(512) {
        let mut sector = [0; 512];
        let count = piece.len().min(512);
        sector[..count].copy_from_slice(&piece[..count]);
        if disk < rack.disks() && at < rack.sectors(disk) {
            rack.write(disk, at, &sector)?;
        }
        at = at.saturating_add(1);
    }
    Ok(())
}
