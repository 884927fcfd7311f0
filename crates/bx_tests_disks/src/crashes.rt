//! A run that is stopped at each of its calls, and then crashes in each way, beside a plain reading of it.

use crate::steps::Step::{self, Fills, Syncs};
use crate::steps::{content, crashes, fills, syncs};
use bx_base::OutOfMemory;
use bx_disk::{Noise, Rack};
use bx_memory_rack::MemRack;
use bx_stop_rack::StopRack;
use std::alloc::Global;
use std::test::Fail;

/// The run, on two disks of four sectors.
const RUN: [Step; 10] = [
    Fills(0, 3, 1),
    Fills(1, 0, 2),
    Fills(0, 1, 3),
    Syncs(0),
    Fills(0, 3, 4),
    Fills(0, 0, 5),
    Fills(0, 3, 6),
    Syncs(1),
    Fills(1, 0, 7),
    Fills(0, 2, 8),
];

/// The noise of seed 7, by the first byte, the last and the sum of each sector.
const NOISE: [(u8, u8, u32); 4] = [
    (233, 145, 64530),
    (248, 169, 65823),
    (230, 238, 66053),
    (235, 40, 67371),
];

/// A sector after so many calls of the run, read plainly: the byte that fills it, the one that filled it at the last sync, and
/// whether it is unsure.
fn plain(disk: u32, sector: u64, stop: usize) -> (u8, u8, bool) {
    let (mut now, mut held, mut unsure) = (0, 0, false);
    for step in RUN.iter().take(stop) {
        (now, held, unsure) = match *step {
            Fills(on, at, byte) if on == disk && at == sector => (byte, held, true),
            Syncs(on) if on == disk => (now, now, false),
            _ => (now, held, unsure),
        };
    }
    (now, held, unsure)
}

/// What a crash leaves of it then, by the first byte, the last and the sum of all: noise goes on from one unsure sector to the next.
fn crashed(disk: u32, sector: u64, stop: usize, how: Noise) -> Option<(u8, u8, u32)> {
    let (now, held, unsure) = plain(disk, sector, stop);
    let before = (0..sector).filter(|other| plain(disk, *other, stop).2);
    let byte = match (unsure, how) {
        (true, Noise::Drop) => held,
        (true, Noise::Seed(_)) => return NOISE.get(before.count()).copied(),
        _ => now,
    };
    Some((byte, byte, u32::from(byte) * 512))
}

/// Makes the calls of the run on a rack that stops after so many. Says whether those and no others went well.
fn runs(rack: &mut StopRack<MemRack>, stop: usize) -> bool {
    let mut as_said = true;
    for (number, step) in RUN.iter().enumerate() {
        let done = match *step {
            Fills(disk, sector, byte) => fills(rack, disk, sector, byte),
            Syncs(disk) => syncs(rack, disk),
            _ => false,
        };
        as_said = as_said && done == (number < stop);
    }
    as_said
}

/// The first byte of a sector, its last, and the sum of all.
fn sums(rack: &mut MemRack, disk: u32, sector: u64) -> Option<(u8, u8, u32)> {
    let bytes = content(rack, disk, sector, 0)?;
    let sum = bytes
        .iter()
        .fold(0u32, |sum, byte| sum.wrapping_add(u32::from(*byte)));
    Some((bytes[0], bytes[511], sum))
}

/// Whether each sector of a disk is what the plain reading says of a crash.
fn is_crashed(rack: &mut MemRack, disk: u32, stop: usize, how: Noise) -> bool {
    let mut as_said = true;
    for sector in 0..4 {
        as_said = as_said && sums(rack, disk, sector) == crashed(disk, sector, stop, how);
    }
    as_said
}

/// Whether the run, stopped after so many calls, and then a crash leave what the plain reading says.
fn is_as_said(alloc: Global, how: Noise, stop: usize) -> Result<bool, OutOfMemory> {
    let mut stopping = StopRack::new(MemRack::new(alloc, &[4, 4], &[])?, stop as u64);
    let ran = runs(&mut stopping, stop);
    let mut rack = stopping.into_inner();
    let crashed = crashes(&mut rack, 0, how) && crashes(&mut rack, 1, how);
    let as_said = is_crashed(&mut rack, 0, stop, how) && is_crashed(&mut rack, 1, stop, how);
    Ok(ran && crashed && as_said)
}

#[test]
fn a_crash_leaves_what_a_plain_reading_says(rt: HostRuntime) -> Result<(), Fail> {
    for how in [Noise::Keep, Noise::Drop, Noise::Seed(7)] {
        for stop in 0..=RUN.len() {
            assert!(rt; is_as_said(rt.alloc(), how, stop)?, "after {stop} calls");
        }
    }
    Ok(())
}

/// The last bytes of the first sector of the noise of seed 7, and the first ones of the second.
const LAST: [u8; 12] = [238, 64, 150, 56, 229, 62, 104, 15, 19, 243, 180, 145];

const FIRST: [u8; 12] = [248, 47, 111, 175, 202, 143, 102, 45, 178, 50, 193, 177];

/// Whether the noise in the first of two unsure sectors ends so, and goes on so in the next one.
fn goes_on(rack: &mut MemRack) -> bool {
    rack.disks() == 1
        && rack.sectors(0) == 4
        && matches!(content(rack, 0, 1, 0), Some(bytes) if bytes.ends_with(&LAST))
        && matches!(content(rack, 0, 3, 0), Some(bytes) if bytes.starts_with(&FIRST))
}

#[test]
fn noise_goes_on_in_the_next_unsure_sector(rt: HostRuntime) -> Result<(), Fail> {
    let mut rack = MemRack::new(rt.alloc(), &[4], &[])?;
    assert!(rt; fills(&mut rack, 0, 3, 1) && fills(&mut rack, 0, 1, 1));
    assert!(rt; crashes(&mut rack, 0, Noise::Seed(7)) && goes_on(&mut rack));
    Ok(())
}
