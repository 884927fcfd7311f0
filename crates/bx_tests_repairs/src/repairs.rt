//! One record's life that is stopped at each call of the rack, then the members crash in each way, and a recovery is stopped and crashes too, before one goes
//! to its end.

ghost use Rattle.std.specs.Prelude.{IsTrue};
ghost use Rattle.bx_plain_repair.specs.Bench.{AreLong};

use bx_base::{CallNo, OutOfMemory};
use bx_disk::{Noise, Rack, RackError};
use bx_memory_rack::MemRack;
use bx_plain_repair::{Recovery, recover};
use bx_records::DraftError;
use bx_redo::Log;
use bx_stop_rack::StopRack;
use bx_tests_bench::{Bytes, Reached, Ways, crash, formatted, gates, lives, sees};
use std::alloc::Global;
use std::test::Fail;

/// The kind of the packets that carry an opened gate.
const GATE: u8 = 15;

/// The number of the call whose record it is.
const CALL: CallNo = 5;

/// What the record puts into two blocks, which are filled with 10 and 17 before.
const BLOCKS: [Bytes; 2] = [(0, 21), (7, 27)];

/// How many calls of the rack the life makes.
const CALLS: u64 = 140;

/// How many calls a recovery makes until it finds a record, and until it has closed the log.
const FINDING_CALLS: u64 = 40;

const CLOSING_CALLS: u64 = 120;

const WAYS: [Ways; 4] = [
    (Noise::Keep, Noise::Keep),
    (Noise::Keep, Noise::Drop),
    (Noise::Drop, Noise::Keep),
    (Noise::Seed(7), Noise::Seed(8)),
];

/// Whether a rack has the disks of the volume.
fn is_long<R: Rack>(rack: &R) -> bool
    ensures { IsTrue result → AreLong (R.state rack.now).sizes }
{
    rack.disks() == 5
        && rack.sectors(0) >= 21
        && rack.sectors(1) >= 21
        && rack.sectors(2) >= 21
        && rack.sectors(3) >= 17994
        && rack.sectors(4) >= 17994
}

/// What a recovery answers: the number of the call that it found, or 0 where it closed the log; nothing where the rack stopped.
fn repairs<R: Rack>(
    alloc: Global,
    rack: &mut R,
    floor: CallNo,
) -> Result<Option<CallNo>, OutOfMemory> {
    if !is_long(rack) {
        return Ok(None);
    }
    match recover(alloc, rack, floor) {
        Ok(Recovery::Found(point)) => Ok(Some(point.call)),
        Ok(Recovery::Closed) => Ok(Some(0)),
        Err(RackError::Fault) => Ok(None),
        Err(RackError::OutOfMemory) => Err(OutOfMemory),
    }
}

/// What the two blocks are, by a member whose log is closed; nothing where it isn't.
fn rests<R: Rack>(alloc: Global, rack: &mut R, second: bool) -> Result<(u8, u8), OutOfMemory> {
    if gates(rack, second) != 0 {
        return Ok((0, 0));
    }
    let first = sees(alloc, rack, second, 0)?;
    let other = sees(alloc, rack, second, 7)?;
    Ok((first, other))
}

/// The rack of a life that was stopped after so many calls, and then crashed; and how far it came.
fn left(alloc: Global, stop: u64, ways: Ways) -> Result<(MemRack, Reached), DraftError> {
    let (rack, _) = formatted(alloc)?;
    let mut stopping = StopRack::new(rack, stop);
    let mut log = Log::new(alloc, 0, 0);
    let mut reached = Reached::START;
    lives(alloc, &mut log, &mut stopping, &BLOCKS, &mut reached)?;
    let mut rack = stopping.into_inner();
    crash(&mut rack, ways);
    Ok((rack, reached))
}

/// Whether a recovery may find this call, or none, of a record that came so far; and the blocks are those that it says.
fn may_find(reached: Reached, found: Option<CallNo>, blocks: (u8, u8)) -> bool {
    let acted = found == Some(CALL);
    let closed = found == Some(0);
    let may = closed || acted && (reached.records == 1 || reached.asked == GATE);
    let expected = if acted || reached.records == 1 {
        (21, 27)
    } else {
        (10, 17)
    };
    may && blocks == expected
}

/// The rack after a recovery that is stopped after so many calls, and a crash; and what the recovery said.
fn stopped(
    alloc: Global,
    rack: MemRack,
    ways: Ways,
    floor: CallNo,
    calls: u64,
) -> Result<(MemRack, Option<CallNo>), OutOfMemory> {
    let mut stopping = StopRack::new(rack, calls);
    let said = repairs(alloc, &mut stopping, floor)?;
    let mut rack = stopping.into_inner();
    crash(&mut rack, ways);
    Ok((rack, said))
}

/// Whether both members come to rest with what a recovery found, once the call is told.
fn come_to_rest<R: Rack>(
    alloc: Global,
    rack: &mut R,
    reached: Reached,
    found: Option<CallNo>,
) -> Result<bool, OutOfMemory> {
    let closed = repairs(alloc, rack, CALL)?;
    let first = rests(alloc, rack, false)?;
    let other = rests(alloc, rack, true)?;
    Ok(closed == Some(0) && first == other && may_find(reached, found, first))
}

/// Whether a recovery that is stopped after so many calls, and a crash, change nothing of what the next one finds, if it told it; and both members are at rest
/// with it, once the call is told.
fn agrees(
    alloc: Global,
    stop: u64,
    ways: Ways,
    floor: CallNo,
    calls: u64,
) -> Result<bool, DraftError> {
    let (rack, reached) = left(alloc, stop, ways)?;
    let (mut rack, said) = stopped(alloc, rack, ways, floor, calls)?;
    let found = repairs(alloc, &mut rack, CALL - 1)?;
    let same = said.is_none() || said == found;
    Ok(same && come_to_rest(alloc, &mut rack, reached, found)?)
}

/// Whether a recovery comes to its end within so many calls, where a life was stopped after so many.
fn ends(alloc: Global, stop: u64, floor: CallNo, calls: u64) -> Result<bool, DraftError> {
    let (rack, _) = left(alloc, stop, WAYS[0])?;
    let mut stopping = StopRack::new(rack, calls);
    Ok(repairs(alloc, &mut stopping, floor)?.is_some())
}

#[test]
fn a_recovery_makes_so_many_calls(rt: HostRuntime) -> Result<(), Fail> {
    assert!(rt; ends(rt.alloc(), 81, CALL - 1, FINDING_CALLS)?);
    assert!(rt; !ends(rt.alloc(), 81, CALL, FINDING_CALLS)?);
    assert!(rt; ends(rt.alloc(), 84, CALL, CLOSING_CALLS)?);
    Ok(())
}

#[test]
fn a_recovery_finds_what_a_life_left(rt: HostRuntime) -> Result<(), Fail> {
    for ways in WAYS {
        for stop in 0..=CALLS {
            assert!(rt;
                agrees(rt.alloc(), stop, ways, CALL - 1, 0)?,
                "after {stop} calls"
            );
        }
    }
    Ok(())
}

#[test]
fn a_finding_may_be_tried_again(rt: HostRuntime) -> Result<(), Fail> {
    for ways in [WAYS[1], WAYS[3]] {
        for stop in [79u64, 81, 83] {
            for calls in 0..=FINDING_CALLS {
                assert!(rt;
                    agrees(rt.alloc(), stop, ways, CALL - 1, calls)?,
                    "after {stop} and {calls} calls"
                );
            }
        }
    }
    Ok(())
}

#[test]
fn homes_and_a_closing_may_be_tried_again(rt: HostRuntime) -> Result<(), Fail> {
    for stop in [84u64, 130] {
        for calls in 0..=CLOSING_CALLS {
            assert!(rt;
                agrees(rt.alloc(), stop, WAYS[3], CALL, calls)?,
                "after {stop} and {calls} calls"
            );
        }
    }
    Ok(())
}
