//! Volumes that are made.

use anyhow::Error;
use bx_disk::{Rack, RackError};
use bx_format::format;
use bx_memory_rack::MemRack;
use bx_stop_rack::StopRack;
use bx_tests_lines::Line;
use std::alloc::Global;

/// Tells whether a volume with these numbers, made on a rack that stops after so many calls, is this image, or where it differs first.
pub(crate) fn tell(
    alloc: Global,
    line: &mut Line,
    mut image: MemRack,
    numbers: &[u64],
    calls: u64,
) -> Result<(), Error> {
    let rack = MemRack::new(alloc, &[9, 9], &[])?;
    let mut made = StopRack::new(rack, calls);
    let [volume, devices, areas] = *numbers else {
        line.text("no volume is asked for");
        return Ok(());
    };
    match makes(alloc, &mut made, volume, devices, areas) {
        Ok(()) => tell_first(line, &mut image, &mut made.into_inner()),
        Err(RackError::Fault) => line.text("fault"),
        Err(RackError::OutOfMemory) => line.text("out of memory"),
    }
    Ok(())
}

/// Makes a volume, where there is one of so many devices and areas.
fn makes<R: Rack>(
    alloc: Global,
    rack: &mut R,
    volume: u64,
    devices: u64,
    areas: u64,
) -> Result<(), RackError> {
    if (1..=4).contains(&devices) && (1..=64).contains(&areas) {
        format(alloc, rack, volume, devices as u32, areas as u16)?;
    }
    Ok(())
}

/// Tells the first sector in which two racks differ, or that they are the same.
fn tell_first<R: Rack, S: Rack>(line: &mut Line, one: &mut R, other: &mut S) {
    if one.disks() != other.disks() {
        line.text("disks");
        return line.number(u64::from(other.disks()));
    }
    for disk in 0..one.disks() {
        if let Some(sector) = first_difference(one, other, disk) {
            line.text("differs");
            return line.numbers(&[u64::from(disk), sector]);
        }
    }
    line.text("same");
}

/// The first sector of a disk in which two racks differ.
fn first_difference<R: Rack, S: Rack>(one: &mut R, other: &mut S, disk: u32) -> Option<u64> {
    if disk >= one.disks() || disk >= other.disks() {
        return Some(0);
    }
    let sectors = one.sectors(disk);
    if sectors != other.sectors(disk) {
        return Some(sectors);
    }
    for sector in 0..sectors {
        if !is_same(one, other, disk, sector) {
            return Some(sector);
        }
    }
    None
}

/// Whether a sector is the same in two racks.
fn is_same<R: Rack, S: Rack>(one: &mut R, other: &mut S, disk: u32, sector: u64) -> bool {
    if disk >= one.disks() || disk >= other.disks() {
        return false;
    }
    if sector >= one.sectors(disk) || sector >= other.sectors(disk) {
        return false;
    }
    let (mut mine, mut its) = ([1; 512], [2; 512]);
    let are_read = one.read(disk, sector, &mut mine).is_ok()
        && other.read(disk, sector, &mut its).is_ok();
    are_read && mine == its
}
