//! The rack that a row gives the command. It has no disks at first, and then its lines are done, one after the other:
//!
//! - `format V D A`: the command of these words makes it a volume;
//! - `clear DISK SECTOR COUNT`: so many sectors from that one on are zeros;
//! - `keep COUNT`: the disks behind the first so many are taken out;
//! - `stop COUNT`: while the command runs, so many calls are done, and those behind them fail.

use crate::row::Row;
use crate::running::run;
use anyhow::{Error, anyhow};
use bx_disk::Rack;
use bx_memory_rack::MemRack;
use bx_outside::MemSink;
use bx_stop_rack::StopRack;
use std::alloc::Global;

/// The most disks that are kept: those of a volume of four devices.
const MOST_DISKS: usize = 11;

/// The rack of a row.
pub(crate) fn prepared(alloc: Global, row: &Row) -> Result<StopRack<MemRack>, Error> {
    let mut rack = MemRack::new(alloc, &[], &[])?;
    let mut calls = u64::MAX;
    for line in &row.rack {
        let (word, text) = line.as_str().split_once(' ').unwrap_or(("", ""));
        match word {
            "format" => rack = formatted(alloc, rack, text)?,
            "clear" => clear(&mut rack, text)?,
            "keep" => rack = fewer(alloc, &mut rack, number_of(text)?)?,
            "stop" => calls = number_of(text)?,
            _ => return Err(anyhow!("nothing that is done to a rack")),
        }
    }
    Ok(StopRack::new(rack, calls))
}

/// The rack, made a volume.
fn formatted(alloc: Global, rack: MemRack, numbers: &str) -> Result<MemRack, Error> {
    let mut row = Row::new(alloc);
    row.words.push(String::from_str(alloc, "format")?)?;
    for number in numbers.split(' ') {
        row.words.push(String::from_str(alloc, number)?)?;
    }
    let mut out = MemSink::new(alloc, &[])?;
    let mut err = MemSink::new(alloc, &[])?;
    let mut rack = StopRack::new(rack, u64::MAX);
    match run(alloc, &row, &mut out, &mut err, &mut rack)? {
        0 => Ok(rack.into_inner()),
        _ => Err(anyhow!("no volume was made")),
    }
}

/// Clears sectors.
fn clear(rack: &mut MemRack, text: &str) -> Result<(), Error> {
    let Some((disk, sectors)) = text.split_once(' ') else {
        return Err(anyhow!("no sectors"));
    };
    let Some((first, count)) = sectors.split_once(' ') else {
        return Err(anyhow!("no count"));
    };
    let disk = number_of(disk)?.min(u64::from(u32::MAX)) as u32;
    let first = number_of(first)?;
    for i in 0..number_of(count)? {
        put(rack, disk, first.saturating_add(i), &[0; 512])?;
    }
    Ok(())
}

/// A rack with the first so many of the disks.
fn fewer(alloc: Global, rack: &mut MemRack, count: u64) -> Result<MemRack, Error> {
    let mut sizes = Vec::new(alloc);
    for disk in 0..rack.disks() {
        if u64::from(disk) < count {
            sizes.push(rack.sectors(disk))?;
        }
    }
    if sizes.len() > MOST_DISKS {
        return Err(anyhow!("too many disks"));
    }
    let mut kept = MemRack::new(alloc, sizes.as_slice(), &[])?;
    for disk in 0..kept.disks() {
        for sector in 0..sizes[disk as usize] {
            copy(rack, &mut kept, disk, sector)?;
        }
    }
    Ok(kept)
}

/// Copies a sector.
fn copy(from: &mut MemRack, to: &mut MemRack, disk: u32, sector: u64) -> Result<(), Error> {
    let mut content = [0; 512];
    let is_read = disk < from.disks()
        && sector < from.sectors(disk)
        && from.read(disk, sector, &mut content).is_ok();
    if !is_read {
        return Err(anyhow!("a sector that can't be read"));
    }
    if content == [0; 512] {
        Ok(())
    } else {
        put(to, disk, sector, &content)
    }
}

/// Puts a sector's content on a disk.
fn put(rack: &mut MemRack, disk: u32, sector: u64, content: &[u8; 512]) -> Result<(), Error> {
    let is_put = disk < rack.disks()
        && sector < rack.sectors(disk)
        && rack.write(disk, sector, content.as_slice()).is_ok();
    if is_put {
        Ok(())
    } else {
        Err(anyhow!("a sector that can't be written"))
    }
}

/// The number that a text spells.
fn number_of(text: &str) -> Result<u64, Error> {
    match text.parse::<u64>() {
        Ok(number) => Ok(number),
        Err(_) => Err(anyhow!("no number")),
    }
}
