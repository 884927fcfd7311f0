//! Logs that are found with any of their gates open, differing on the two members.

use bx_base::{OutOfMemory, Raw};
use bx_calls::write_some;
use bx_disk::Rack;
use bx_memory_rack::MemRack;
use bx_records::{DraftError, Run, Runs};
use bx_redo::{Log, Move};
use bx_tests_bench::{
    Bytes, Reached, acknowledges, draft_of, formatted, gates, point_of, reads, recovers, sees,
    stores,
};
use std::alloc::Global;
use std::test::Fail;

/// What the eight records put into block 0, and each into one other block.
const RECORDS: [[Bytes; 2]; 8] = [
    [(0, 50), (1, 60)],
    [(0, 51), (2, 61)],
    [(0, 52), (3, 62)],
    [(0, 53), (4, 63)],
    [(0, 54), (5, 64)],
    [(0, 55), (6, 65)],
    [(0, 56), (8, 66)],
    [(0, 57), (9, 67)],
];

/// Which gates are open on the first member, which on the second, and how many records the log has by the first.
type Case = ([u8; 8], [u8; 8], u32);

const CASES: [Case; 10] = [
    ([0, 0, 0, 0, 0, 0, 0, 0], [0, 0, 0, 0, 0, 0, 0, 0], 0),
    ([1, 0, 0, 0, 0, 0, 0, 0], [0, 0, 0, 0, 0, 0, 0, 0], 1),
    ([0, 0, 0, 0, 0, 0, 0, 0], [1, 0, 0, 0, 0, 0, 0, 0], 0),
    ([1, 1, 0, 1, 0, 0, 0, 0], [1, 1, 0, 1, 0, 0, 0, 0], 2),
    ([0, 1, 1, 1, 1, 1, 1, 1], [0, 1, 1, 1, 1, 1, 1, 1], 0),
    ([2, 1, 0, 0, 0, 0, 0, 2], [0, 1, 0, 0, 0, 0, 0, 0], 0),
    ([1, 1, 1, 0, 0, 0, 0, 0], [1, 1, 1, 1, 0, 0, 0, 0], 3),
    ([1, 1, 1, 1, 1, 1, 1, 0], [1, 1, 1, 1, 1, 1, 1, 2], 7),
    ([1, 1, 1, 1, 1, 1, 1, 1], [1, 1, 1, 1, 1, 1, 1, 1], 8),
    ([1, 1, 1, 1, 1, 1, 1, 1], [1, 1, 1, 1, 1, 1, 1, 0], 8),
];

/// The blocks that the records put, beside block 0.
const OTHERS: [u64; 8] = [1, 2, 3, 4, 5, 6, 8, 9];

/// The bytes of a record, as a log writes them.
fn record_of(alloc: Global, blocks: &[Bytes]) -> Result<Raw, DraftError> {
    let draft = draft_of(alloc, blocks)?;
    let mut log = Log::new(alloc, 0, 0);
    log.append(point_of(9), &draft)?;
    let Move::Write(runs) = log.next(None, false)? else {
        return Ok(Raw::of(alloc, &[])?);
    };
    let bytes = runs.get(0).map_or(&[][..], |run| run.bytes.bytes());
    Ok(Raw::of(alloc, bytes)?)
}

/// Writes all records into their bodies, and says whether that went well.
fn writes_records(alloc: Global, rack: &mut MemRack) -> Result<bool, DraftError> {
    let mut runs = Runs::new(alloc, 14);
    for body in 0..8usize {
        runs.push(Run {
            device: 0,
            place: 9 + 145 * body as u64,
            bytes: record_of(alloc, &RECORDS[body])?,
        })?;
    }
    Ok(stores(rack, &runs))
}

/// A gate: closed with zeros, open, or closed with other bytes than zeros.
fn gate_of(kind: u8) -> [u8; 512] {
    let mut sector = [0; 512];
    match kind {
        0 => {}
        1 => sector[..8].copy_from_slice(b"BXGATE01"),
        _ => sector[..9].copy_from_slice(b"BXGATE11x"),
    }
    sector
}

/// Writes the gates of a member, and says whether that went well.
fn writes_gates(rack: &mut MemRack, disk: u32, kinds: &[u8; 8]) -> bool {
    for gate in 0..8usize {
        let sector = gate_of(kinds[gate]);
        if disk >= rack.disks()
            || rack.sectors(disk) < 10
            || write_some(rack, disk, 1 + gate as u64, &sector).is_err()
        {
            return false;
        }
    }
    true
}

/// Whether the gates of a member are closed, and those behind the first are zeros.
fn are_shut<R: Rack>(rack: &mut R, second: bool) -> bool {
    let mut behind = [1; 3584];
    gates(rack, second) == 0
        && reads(rack, second, 2, &mut behind)
        && behind.iter().all(|byte| *byte == 0)
}

/// Whether a member has the blocks that so many records leave.
fn has_records<R: Rack>(
    alloc: Global,
    rack: &mut R,
    second: bool,
    count: u32,
) -> Result<bool, OutOfMemory> {
    let count = count.min(8);
    let newest = if count == 0 { 10 } else { 49 + count };
    let mut has = u32::from(sees(alloc, rack, second, 0)?) == newest;
    for (index, at) in OTHERS.iter().enumerate() {
        let wanted = if (index as u32) < count {
            60 + index as u32
        } else {
            0
        };
        has = u32::from(sees(alloc, rack, second, *at)?) == wanted && has;
    }
    Ok(has)
}

/// Whether a new record of block 0 is taken then.
fn takes_another(alloc: Global, rack: &mut MemRack) -> Result<bool, DraftError> {
    let draft = draft_of(alloc, &[(0, 99)])?;
    let mut log = Log::new(alloc, 0, 0);
    let mut reached = Reached::START;
    Ok(acknowledges(&mut log, rack, &draft, &mut reached)? && reached.records == 1)
}

/// Whether a new record can be written then, and both members have it.
fn goes_on(alloc: Global, rack: &mut MemRack) -> Result<bool, DraftError> {
    let taken = takes_another(alloc, rack)?;
    let first = sees(alloc, rack, false, 0)?;
    let other = sees(alloc, rack, true, 0)?;
    Ok(taken && first == 99 && other == 99)
}

/// A rack with all records in their bodies and the gates of a case, and whether that went well.
fn rack_of(alloc: Global, case: &Case) -> Result<(MemRack, bool), DraftError> {
    let (mut rack, formatted) = formatted(alloc)?;
    let written = writes_records(alloc, &mut rack)?;
    let gated = writes_gates(&mut rack, 3, &case.0) && writes_gates(&mut rack, 4, &case.1);
    Ok((rack, formatted && written && gated))
}

/// Whether a recovery finds so many records, closes all gates, and leaves what the records put, on both members.
fn recovers_all<R: Rack>(alloc: Global, rack: &mut R, count: u32) -> Result<bool, OutOfMemory> {
    let found = recovers(alloc, rack)?;
    let shut = are_shut(rack, false) && are_shut(rack, true);
    let first = has_records(alloc, rack, false, count)?;
    let other = has_records(alloc, rack, true, count)?;
    Ok(found == Some(count) && shut && first && other)
}

/// Whether a log is found as in a case.
fn is_found(alloc: Global, case: &Case) -> Result<bool, DraftError> {
    let (mut rack, written) = rack_of(alloc, case)?;
    let recovered = recovers_all(alloc, &mut rack, case.2)?;
    Ok(written && recovered && goes_on(alloc, &mut rack)?)
}

#[test]
fn a_log_is_found_by_its_run_of_open_gates(rt: HostRuntime) -> Result<(), Fail> {
    for (number, case) in CASES.iter().enumerate() {
        assert!(rt; is_found(rt.alloc(), case)?, "case {number}");
    }
    Ok(())
}
