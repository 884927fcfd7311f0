//! The changes, one function each.

ghost use Rattle.std.specs.Prelude.{◌≡◌, ◌+◌, ◌-◌, ◌^◌, ◌<◌, ◌≤◌, ◌↔◌, IfOk, IsTrue, min};
ghost use Rattle.bx_global.specs.Table.{IsAnswer};
ghost use Rattle.bx_global.specs.declared.change.Change.TheVariants.{Renew, Take, Open, Expire, Claim, Close, Shift};

use crate::state::GlobalState;
use bx_rows::base::{List, OutOfMemory};
use bx_rows::{
    NODES, SLOTS, SessionRow, can_follow, claimed_sessions, dead_sessions, expired_sessions,
    find_live, find_row, free_slot, is_live, opened_sessions, other_sessions, shifted_row,
};
use std::alloc::Global;

/// How long a session lasts from the reading that opened it, in milliseconds.
const LEASE: u64 = 4_000;

/// How long a term lasts from the reading that began or prolonged it, in milliseconds.
const TERM: u64 = 8_000;

/// By how much clocks may differ, in milliseconds.
const SKEW: u64 = 500;

/// How many lock servers there are.
const SERVERS: u32 = 2;

/// The master prolongs its term.
pub(crate) fn renew(
    alloc: Global,
    state: &GlobalState,
    by: u32,
    boot: u64,
    reading: u64,
) -> Result<Option<GlobalState>, OutOfMemory>
    ensures { IfOk result (IsAnswer state.now (Renew by boot reading)) }
{
    if by != state.master || boot != state.master_boot || reading > state.term_end {
        return Ok(None);
    }
    if state.index == u64::MAX || reading > u64::MAX - TERM {
        return Ok(None);
    }
    let mut new = next(alloc, state)?;
    new.term_end = state.term_end.max(reading + TERM);
    Ok(Some(new))
}

/// A lock server becomes master.
pub(crate) fn take(
    alloc: Global,
    state: &GlobalState,
    by: u32,
    boot: u64,
    reading: u64,
) -> Result<Option<GlobalState>, OutOfMemory>
    ensures { IfOk result (IsAnswer state.now (Take by boot reading)) }
{
    if by >= SERVERS || !is_past(reading, state.term_end) {
        return Ok(None);
    }
    if state.index == u64::MAX || state.term == u64::MAX || reading > u64::MAX - TERM {
        return Ok(None);
    }
    let sessions = dead_sessions(alloc, state.sessions.items())?;
    let mut new = with_sessions(alloc, state, sessions)?;
    new.master = by;
    new.master_boot = boot;
    new.term = state.term + 1;
    new.term_end = reading + TERM;
    Ok(Some(new))
}

/// A node opens a session.
pub(crate) fn open(
    alloc: Global,
    state: &GlobalState,
    node: u32,
    boot: u64,
    reading: u64,
) -> Result<Option<GlobalState>, OutOfMemory>
    ensures { IfOk result (IsAnswer state.now (Open node boot reading)) }
{
    let live = find_live(state.sessions.items(), node, boot);
    let slot = free_slot(state.sessions.items());
    if node >= NODES || reading > state.term_end || live.is_some() || slot >= SLOTS {
        return Ok(None);
    }
    if state.index == u64::MAX || state.next_session == u64::MAX {
        return Ok(None);
    }
    let row = SessionRow {
        number: state.next_session,
        node,
        boot,
        slot,
        until: lease_end(reading, state.term_end),
        dead: 0,
        by: 0,
    };
    let sessions = opened_sessions(alloc, state.sessions.items(), row)?;
    let mut new = with_sessions(alloc, state, sessions)?;
    new.next_session = state.next_session + 1;
    Ok(Some(new))
}

/// A session dies.
pub(crate) fn expire(
    alloc: Global,
    state: &GlobalState,
    session: u64,
    term: u64,
    reading: u64,
) -> Result<Option<GlobalState>, OutOfMemory>
    ensures { IfOk result (IsAnswer state.now (Expire session term reading)) }
{
    let Some(row) = find_row(state.sessions.items(), session) else {
        return Ok(None);
    };
    if term != state.term
        || row.dead != 0
        || !is_past(reading, row.until)
        || state.index == u64::MAX
    {
        return Ok(None);
    }
    let sessions = expired_sessions(alloc, state.sessions.items(), session)?;
    Ok(Some(with_sessions(alloc, state, sessions)?))
}

/// A live session takes on the recovery of a dead one.
pub(crate) fn claim(
    alloc: Global,
    state: &GlobalState,
    dead: u64,
    by: u64,
) -> Result<Option<GlobalState>, OutOfMemory>
    ensures { IfOk result (IsAnswer state.now (Claim dead by)) }
{
    let Some(row) = find_row(state.sessions.items(), dead) else {
        return Ok(None);
    };
    let claimed = is_live(state.sessions.items(), row.by);
    let lives = is_live(state.sessions.items(), by);
    if row.dead != 1 || claimed || !lives || state.index == u64::MAX {
        return Ok(None);
    }
    let sessions = claimed_sessions(alloc, state.sessions.items(), dead, by)?;
    Ok(Some(with_sessions(alloc, state, sessions)?))
}

/// A dead session goes.
pub(crate) fn close(
    alloc: Global,
    state: &GlobalState,
    dead: u64,
    by: u64,
) -> Result<Option<GlobalState>, OutOfMemory>
    ensures { IfOk result (IsAnswer state.now (Close dead by)) }
{
    let Some(row) = find_row(state.sessions.items(), dead) else {
        return Ok(None);
    };
    let lives = is_live(state.sessions.items(), by);
    if row.dead != 1 || row.by != by || !lives || state.index == u64::MAX {
        return Ok(None);
    }
    let sessions = other_sessions(alloc, state.sessions.items(), dead)?;
    Ok(Some(with_sessions(alloc, state, sessions)?))
}

/// A device gets another mode.
pub(crate) fn shift(
    alloc: Global,
    state: &GlobalState,
    device: u32,
    epoch: u64,
    mode: u32,
    second: bool,
    boot: u64,
) -> Result<Option<GlobalState>, OutOfMemory>
    ensures { IfOk result (IsAnswer state.now (Shift device epoch mode second boot)) }
{
    let Some(row) = state.devices.get(device as usize) else {
        return Ok(None);
    };
    let row = *row;
    let reachable = can_follow(row.mode, mode);
    if epoch != row.epoch || !reachable || row.epoch == u64::MAX || state.index == u64::MAX {
        return Ok(None);
    }
    let new_row = shifted_row(&row, mode, second, boot);
    let mut new = next(alloc, state)?;
    new.devices.set(device as usize, new_row);
    Ok(Some(new))
}

/// Whether a clock's reading is past a moment for every clock.
fn is_past(reading: u64, moment: u64) -> bool
    ensures { IsTrue result ↔ (moment + 500 < reading) }
{
    reading > moment && reading - moment > SKEW
}

/// When a session ends that is opened at a reading.
fn lease_end(reading: u64, term_end: u64) -> u64
    requires { reading ≤ term_end }
    ensures { result ≡ min (reading + 4000) term_end }
{
    if term_end - reading < LEASE {
        term_end
    } else {
        reading + LEASE
    }
}

/// The state with an index greater by one.
fn next(alloc: Global, state: &GlobalState) -> Result<GlobalState, OutOfMemory>
    requires { state.now.index < 2 ^ 64 - 1 }
    ensures { IfOk result (λ new. new ≡ record state.now { index = state.now.index + 1 }) }
{
    let mut new = state.copy(alloc)?;
    new.index = state.index + 1;
    Ok(new)
}

/// The state with an index greater by one and these sessions.
fn with_sessions(
    alloc: Global,
    state: &GlobalState,
    sessions: List<SessionRow>,
) -> Result<GlobalState, OutOfMemory>
    requires { state.now.index < 2 ^ 64 - 1 }
    ensures { IfOk result (λ new. new ≡ record state.now { index = state.now.index + 1; sessions = sessions }) }
{
    Ok(GlobalState {
        index: state.index + 1,
        master: state.master,
        master_boot: state.master_boot,
        term: state.term,
        term_end: state.term_end,
        next_session: state.next_session,
        sessions,
        devices: List::of(alloc, state.devices.items())?,
    })
}
