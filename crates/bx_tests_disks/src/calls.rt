//! The calls of a rack over a rack in memory, also where it stops and where its writes are torn.

ghost use Rattle.std.specs.Prelude.{◌≡◌, IsTrue, length, slice_index};

use crate::chains::{eight_calls, put_beside, two_disks, two_parts};
use crate::steps::{crashes, fills, has, syncs, wrong};
use crate::torn_rack::TornRack;
use bx_base::OutOfMemory;
use bx_calls::{read_sectors, sync_disk, write_some, write_through, zero_sectors};
use bx_disk::{Noise, Rack};
use bx_memory_rack::MemRack;
use bx_stop_rack::StopRack;
use std::alloc::Global;
use std::test::Fail;

/// Whether a rack has one disk, with so many sectors.
fn has_one<R: Rack>(rack: &R, sectors: u64) -> bool
    ensures one { IsTrue result → length (R.state rack.now).sizes ≡ 1 }
    ensures long { IsTrue result → slice_index (R.state rack.now).sizes 0 ≡ sectors }
{
    rack.disks() == 1 && rack.sectors(0) == sectors
}

/// Makes each call, and then the chains of them, on a rack of two disks, of nine and three sectors.
fn makes_each_call(rack: &mut MemRack) -> bool {
    let mut into = [1; 512];
    rack.disks() == 2
        && rack.sectors(0) == 9
        && rack.sectors(1) == 3
        && write_some(rack, 0, 8, &[7; 512]).is_ok()
        && sync_disk(rack, 0).is_ok()
        && write_through(rack, 1, 2, &[9; 512]).is_ok()
        && read_sectors(rack, 1, 2, &mut into).is_ok()
        && into == [9; 512]
        && two_parts(rack, 0, 0, &[1; 512], &[2; 1024]).is_ok()
        && two_disks(rack, 1, 0, &[3; 512]).is_ok()
        && put_beside(rack, 1, &[4; 512]).is_ok()
}

/// What the sectors of each disk hold then: the byte that fills one.
const HELD: [(u32, &[(u64, u8)]); 2] = [
    (0, &[(0, 1), (1, 2), (2, 2), (3, 0), (7, 0), (8, 7)]),
    (1, &[(0, 3), (1, 4), (2, 9)]),
];

#[test]
fn each_call_does_its_work(rt: HostRuntime) -> Result<(), Fail> {
    let mut rack = MemRack::new(rt.alloc(), &[9, 3], &[])?;
    assert!(rt; makes_each_call(&mut rack));
    for (disk, held) in HELD {
        assert_eq!(rt; wrong(&mut rack, disk, held), None);
    }
    Ok(())
}

/// A rack of one disk, whose sectors are filled with 5.
fn make_filled(alloc: Global, sectors: u64) -> Result<MemRack, OutOfMemory> {
    let mut rack = MemRack::new(alloc, &[sectors], &[])?;
    for sector in 0..sectors {
        fills(&mut rack, 0, sector, 5);
    }
    syncs(&mut rack, 0);
    Ok(rack)
}

#[test]
fn a_region_of_three_pieces_is_zeroed(rt: HostRuntime) -> Result<(), Fail> {
    let mut rack = make_filled(rt.alloc(), 140)?;
    let held = [(3, 5), (4, 0), (67, 0), (68, 0), (133, 0), (134, 5)];
    assert!(rt; has_one(&rack, 140) && zero_sectors(&mut rack, 0, 4, 130).is_ok());
    assert_eq!(rt; wrong(&mut rack, 0, &held), None);
    Ok(())
}

/// A disk of so many sectors, over which so many writes go well and the others are torn; how it crashes then; and which of its
/// sectors are filled with which bytes.
type Torn = (u64, u64, Noise, &'static [(u64, u8)]);

/// Of 140 sectors 130 are zeroed by three writes, of which the second is torn.
const ZEROED: [(u64, u8); 6] = [(3, 5), (4, 0), (67, 0), (99, 0), (100, 5), (134, 5)];

/// Of nine sectors the second half of two isn't written, and the first is unsure.
const TORN: [Torn; 4] = [
    (140, 1, Noise::Keep, &ZEROED),
    (9, 0, Noise::Keep, &[(2, 5), (3, 8), (4, 5), (5, 5)]),
    (9, 0, Noise::Drop, &[(2, 5), (3, 5), (4, 5), (5, 5)]),
    (9, 0, Noise::Seed(7), &[(2, 5), (4, 5), (5, 5)]),
];

/// Whether the call on the disk tells its fault.
fn fails(rack: &mut TornRack<MemRack>, sectors: u64) -> bool {
    match sectors {
        9 => has_one(rack, 9) && write_through(rack, 0, 3, &[8; 1024]).is_err(),
        _ => has_one(rack, 140) && zero_sectors(rack, 0, 4, 130).is_err(),
    }
}

/// Whether the fault is told, and a crash leaves what is said, and noise, which is no byte, in sector 3 where it makes noise.
fn tears(alloc: Global, (sectors, writes, how, held): Torn) -> Result<bool, OutOfMemory> {
    let mut rack = TornRack::new(make_filled(alloc, sectors)?, writes);
    let failed = fails(&mut rack, sectors);
    let mut inner = rack.inner;
    let crashed = crashes(&mut inner, 0, how) && wrong(&mut inner, 0, held).is_none();
    let is_noise = !has(&mut inner, 0, 3, 5) && !has(&mut inner, 0, 3, 8);
    Ok(failed && crashed && is_noise == (how == Noise::Seed(7)))
}

#[test]
fn a_torn_write_leaves_its_sectors_unsure_or_as_they_were(rt: HostRuntime) -> Result<(), Fail> {
    for (number, torn) in TORN.into_iter().enumerate() {
        assert!(rt; tears(rt.alloc(), torn)?, "case {number}");
    }
    Ok(())
}

/// Makes eight calls on sectors 1 to 6 of nine, over a rack that stops after so many, and says whether they fail before
/// the tenth and the sectors beside them are as they were.
fn stops_apart(alloc: Global, calls: u64) -> Result<bool, OutOfMemory> {
    let mut rack = StopRack::new(make_filled(alloc, 9)?, calls);
    let ended = has_one(&rack, 9) && eight_calls(&mut rack, 0, 1, &[8; 512]).is_ok();
    let mut inner = rack.into_inner();
    let crashed = crashes(&mut inner, 0, Noise::Seed(7));
    let is_same = wrong(&mut inner, 0, &[(0, 5), (7, 5)]).is_none();
    Ok(crashed && is_same && ended == (calls >= 10))
}

#[test]
fn what_was_sure_outside_stays_wherever_it_stops(rt: HostRuntime) -> Result<(), Fail> {
    for calls in 0..12 {
        assert!(rt; stops_apart(rt.alloc(), calls)?, "after {calls} calls");
    }
    Ok(())
}
