//! A rack in memory and one that stops: what no clause says, and each function once.

use crate::steps::Step::{Blanks, Crashes, FailsToFill, FailsToSync, Fills, Holds, Syncs};
use crate::steps::{Step, fills, goes, has, syncs, wrong};
use bx_disk::{Noise, Rack};
use bx_memory_rack::MemRack;
use bx_stop_rack::StopRack;
use std::test::Fail;

/// On two disks of nine sectors, of which the second call fails: a sector reads as it was written.
const READ: [Step; 5] = [
    Fills(1, 8, 7),
    FailsToSync(1),
    Syncs(1),
    Holds(1, &[(8, 7), (7, 0)]),
    Holds(0, &[(8, 0)]),
];

/// On a disk of nine sectors, of which the fourth call fails: a write on a sector that a write left unsure, which a
/// crash then takes back.
const TAKEN_BACK: [Step; 9] = [
    Fills(0, 3, 1),
    Syncs(0),
    Fills(0, 3, 2),
    FailsToFill(0, 3, 3),
    Holds(0, &[(3, 2)]),
    Crashes(0, Noise::Drop),
    Holds(0, &[(3, 1)]),
    Crashes(0, Noise::Seed(7)),
    Holds(0, &[(3, 1)]),
];

/// On two disks of nine sectors: a blank disk has zeros that a crash leaves.
const BLANKED: [Step; 8] = [
    Fills(0, 3, 7),
    Fills(1, 4, 8),
    Syncs(0),
    Fills(0, 4, 7),
    Blanks(0),
    Crashes(0, Noise::Seed(7)),
    Holds(0, &[(3, 0), (4, 0)]),
    Holds(1, &[(3, 0), (4, 8), (5, 0)]),
];

/// Racks by their disks, the calls that fail, and the steps on them.
const RUNS: [(&[u64], &[u64], &[Step]); 3] = [
    (&[9, 9], &[2], &READ),
    (&[9], &[4], &TAKEN_BACK),
    (&[9, 9], &[], &BLANKED),
];

#[test]
fn each_step_goes_so(rt: HostRuntime) -> Result<(), Fail> {
    for (sizes, faults, steps) in RUNS {
        let mut rack = MemRack::new(rt.alloc(), sizes, faults)?;
        for (number, step) in steps.iter().enumerate() {
            assert!(rt; goes(&mut rack, *step), "step {number}");
        }
    }
    Ok(())
}

#[test]
fn a_rack_stops(rt: HostRuntime) -> Result<(), Fail> {
    let mut rack = StopRack::new(MemRack::new(rt.alloc(), &[9], &[])?, 1);
    assert!(rt; syncs(&mut rack, 0) && !syncs(&mut rack, 0) && !fills(&mut rack, 0, 0, 7));
    let mut inner = rack.into_inner();
    assert!(rt; inner.disks() == 1 && has(&mut inner, 0, 0, 0));
    Ok(())
}

#[test]
fn disks_are_made_anew(rt: HostRuntime) -> Result<(), Fail> {
    let mut rack = MemRack::new(rt.alloc(), &[9], &[])?;
    let is_made = fills(&mut rack, 0, 3, 7) && rack.shape(&[75_000_000, 4]).is_ok();
    let are_blank = wrong(&mut rack, 0, &[(74_999_999, 0), (3, 0)]).is_none();
    assert!(rt; is_made && are_blank && rack.disks() == 2);
    assert!(rt; has(&mut rack, 1, 3, 0) && !has(&mut rack, 1, 4, 0));
    Ok(())
}
