//! The state that the machines agree on, its changes, and what a cell holds.

use bx_base::{OutOfMemory, u32_at, u64_at};
use bx_global::{Ballot, Change, DeviceRow, GlobalState, Held, SessionRow};
use bx_tests_lines::Line;
use std::alloc::Global;

/// Tells the fields of a state in their order, each row behind a mark.
pub(crate) fn tell_state(line: &mut Line, state: &GlobalState) {
    line.numbers(&[
        state.index,
        u64::from(state.master),
        state.master_boot,
        state.term,
        state.term_end,
        state.next_session,
    ]);
    for row in state.sessions.items() {
        tell_session(line, row);
    }
    for row in state.devices.items() {
        tell_device(line, row);
    }
}

fn tell_session(line: &mut Line, row: &SessionRow) {
    line.text(" session");
    line.numbers(&[
        row.number,
        u64::from(row.node),
        row.boot,
        u64::from(row.slot),
    ]);
    line.numbers(&[row.until, u64::from(row.dead), row.by]);
}

fn tell_device(line: &mut Line, row: &DeviceRow) {
    line.text(" device");
    line.numbers(&[u64::from(row.mode), row.epoch, row.boot_a, row.boot_b]);
}

/// Tells a ballot: its round, its actor and its boot.
pub(crate) fn tell_ballot(line: &mut Line, ballot: &Ballot) {
    line.text(" ballot");
    line.numbers(&[ballot.round, u64::from(ballot.actor), ballot.boot]);
}

/// Tells a state.
pub(crate) fn state(alloc: Global, line: &mut Line, bytes: &[u8]) -> Result<(), OutOfMemory> {
    let Some(state) = GlobalState::read(alloc, bytes)? else {
        line.text("none");
        return Ok(());
    };
    tell_state(line, &state);
    let written = state.write(alloc)?;
    line.written(written.bytes(), bytes);
    Ok(())
}

/// Tells what the cell of a replica holds, in a cluster of as many devices as the first four bytes say.
pub(crate) fn held(alloc: Global, line: &mut Line, bytes: &[u8]) -> Result<(), OutOfMemory> {
    let Ok((devices, bytes)) = u32_at(bytes) else {
        line.text("no devices");
        return Ok(());
    };
    let Some(held) = Held::read(alloc, bytes, devices)? else {
        line.text("none");
        return Ok(());
    };
    tell_held(line, &held);
    let written = held.write(alloc)?;
    line.written(written.bytes(), bytes);
    Ok(())
}

/// Tells the fields of what a cell holds in their order.
fn tell_held(line: &mut Line, held: &Held) {
    line.number(held.index);
    tell_ballot(line, &held.promise);
    tell_ballot(line, &held.ballot);
    line.number(u64::from(held.flag));
    tell_state(line, &held.accepted);
    tell_state(line, &held.decided);
}

/// Reads numbers at the front, and says what is behind them.
fn read_numbers<'a>(numbers: &mut [u64], bytes: &'a [u8]) -> Option<&'a [u8]> {
    let mut rest = bytes;
    for place in numbers.iter_mut() {
        let Ok((number, after)) = u64_at(rest) else {
            return None;
        };
        *place = number;
        rest = after;
    }
    Some(rest)
}

/// The low 32 bits of a number.
fn low(number: u64) -> u32 {
    (number % (1 << 32)) as u32
}

/// The change with a number, in the order of its kinds, and with these numbers in the order of its fields.
fn change_of(kind: u8, numbers: [u64; 5]) -> Change {
    let [first, second, third, fourth, fifth] = numbers;
    match kind {
        0 => Change::Renew {
            by: low(first),
            boot: second,
            reading: third,
        },
        1 => Change::Take {
            by: low(first),
            boot: second,
            reading: third,
        },
        2 => Change::Open {
            node: low(first),
            boot: second,
            reading: third,
        },
        3 => Change::Expire {
            session: first,
            term: second,
            reading: third,
        },
        4 => Change::Claim {
            dead: first,
            by: second,
        },
        5 => Change::Close {
            dead: first,
            by: second,
        },
        _ => Change::Shift {
            device: low(first),
            epoch: second,
            mode: low(third),
            second: fourth > 0,
            boot: fifth,
        },
    }
}

/// Tells the state that a change makes of another one: the kind of the change, a byte, its numbers, and the state's bytes.
pub(crate) fn change(alloc: Global, line: &mut Line, bytes: &[u8]) -> Result<(), OutOfMemory> {
    let Some((kind, rest)) = bytes.split_first() else {
        line.text("no change");
        return Ok(());
    };
    let mut numbers = [0; 5];
    let Some(rest) = read_numbers(&mut numbers, rest) else {
        line.text("no change");
        return Ok(());
    };
    changed(alloc, line, &change_of(*kind, numbers), rest)
}

/// Tells the state that a change makes of that of these bytes.
fn changed(
    alloc: Global,
    line: &mut Line,
    change: &Change,
    bytes: &[u8],
) -> Result<(), OutOfMemory> {
    let Some(state) = GlobalState::read(alloc, bytes)? else {
        line.text("no state");
        return Ok(());
    };
    match state.changed(alloc, change)? {
        Some(new) => tell_state(line, &new),
        None => line.text("none"),
    }
    Ok(())
}
