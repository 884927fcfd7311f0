//! Two puts into a cell that are stopped at each call of the rack, and then the disk crashes in each way.

use crate::cells::{fill, formats, looks, puts_two};
use bx_base::OutOfMemory;
use bx_disk::{CrashRack, Noise, Rack};
use bx_memory_rack::MemRack;
use bx_stop_rack::StopRack;
use std::alloc::Global;
use std::test::Fail;

/// How many calls an opening and two puts make: two, then six, where the other half is closed, then eight.
const CALLS: u64 = 16;

/// How many puts went well where the rack stopped after so many calls.
fn said_done(stop: u64) -> u32 {
    match stop {
        0..=7 => 0,
        8..=15 => 1,
        _ => 2,
    }
}

/// Whether the value that was found, by its number, its length and its first byte, is the old or the new one of the put
/// that was under way, where so many went well.
fn may_be(done: u32, found: Option<(u64, usize, u8)>) -> bool {
    match found {
        Some((1, 5, 3)) => done == 0,
        Some((2, 513, 3)) => done <= 1,
        Some((3, 4096, 3)) => done >= 1,
        _ => false,
    }
}

/// Whether a crash after so many calls leaves one of them.
fn leaves_one(alloc: Global, how: Noise, stop: u64) -> Result<bool, OutOfMemory> {
    let mut first = [0; 5];
    let mut second = [0; 513];
    let mut third = [0; 4096];
    fill(&mut first);
    fill(&mut second);
    fill(&mut third);
    let mut rack = MemRack::new(alloc, &[21], &[])?;
    let formatted = formats(&mut rack, 1, &first);
    let mut stopping = StopRack::new(rack, stop);
    let done = puts_two(alloc, &mut stopping, 1, &second, &third)?;
    let mut rack = stopping.into_inner();
    if rack.disks() != 1 || rack.crash(0, how).is_err() {
        return Ok(false);
    }
    let found = looks(alloc, &mut rack, 1)?;
    Ok(formatted && done == said_done(stop) && may_be(done, found))
}

#[test]
fn a_crash_leaves_the_old_or_the_new_value(rt: HostRuntime) -> Result<(), Fail> {
    for how in [Noise::Keep, Noise::Drop, Noise::Seed(7), Noise::Seed(8)] {
        for stop in 0..=CALLS {
            assert!(rt; leaves_one(rt.alloc(), how, stop)?, "after {stop} calls");
        }
    }
    Ok(())
}
