//! Lists of rows.

ghost use Rattle.std.specs.Prelude.{◌≡◌, ◌++◌, ◌∷◌, [], ◌↔◌, IfOk, IsTrue, map};
ghost use Rattle.bx_rows.specs.Rows.{claimed, dead, expired, without};
ghost use Rattle.bx_rows.specs.Words.{IsLive, is_taken, least_free, live_in, row_in};

use crate::session::{SessionRow, claimed_row, dead_row, expired_row, is_live_of};
use bx_base::{List, OutOfMemory};
use std::alloc::Global;

/// How many nodes there may be.
pub const NODES: u32 = 4;

/// How many slots there are.
pub const SLOTS: u32 = 8;

/// The row of a session; `None` exactly where it has none.
pub fn find_row(rows: &[SessionRow], session: u64) -> Option<SessionRow>
    ensures { result ≡ row_in rows.now session }
{
    for row in rows {
        if row.number == session {
            return Some(*row);
        }
    }
    None
}

/// The live row of a node and boot; `None` exactly where there is none.
pub fn find_live(rows: &[SessionRow], node: u32, boot: u64) -> Option<SessionRow>
    ensures { result ≡ live_in rows.now node boot }
{
    for row in rows {
        if is_live_of(row, node, boot) {
            return Some(*row);
        }
    }
    None
}

/// Whether a slot has a row.
fn has_slot(rows: &[SessionRow], slot: u32) -> bool
    ensures { result ≡ is_taken rows.now slot }
{
    rows.iter().any(|row| row.slot == slot)
}

/// The least slot without a row; 8 where each has one.
pub fn free_slot(rows: &[SessionRow]) -> u32
    ensures { result ≡ least_free rows.now }
{
    for slot in 0..SLOTS {
        if !has_slot(rows, slot) {
            return slot;
        }
    }
    SLOTS
}

/// Whether a session has a row that isn't dead.
pub fn is_live(rows: &[SessionRow], session: u64) -> bool
    ensures { IsTrue result ↔ IsLive rows.now session }
{
    match find_row(rows, session) {
        Some(row) => row.dead == 0,
        None => false,
    }
}

/// The sessions and one behind them.
pub fn opened_sessions(
    alloc: Global,
    rows: &[SessionRow],
    row: SessionRow,
) -> Result<List<SessionRow>, OutOfMemory>
    ensures { IfOk result (λ new. new ≡ rows.now ++ row ∷ []) }
{
    let mut new = List::of(alloc, rows)?;
    new.push(row)?;
    Ok(new)
}

/// The sessions, all of them dead.
pub fn dead_sessions(alloc: Global, rows: &[SessionRow]) -> Result<List<SessionRow>, OutOfMemory>
    ensures { IfOk result (λ new. new ≡ map dead rows.now) }
{
    let mut new = List::new(alloc);
    for row in rows {
        new.push(dead_row(row))?;
    }
    Ok(new)
}

/// The sessions, of which one is dead.
pub fn expired_sessions(
    alloc: Global,
    rows: &[SessionRow],
    session: u64,
) -> Result<List<SessionRow>, OutOfMemory>
    ensures { IfOk result (λ new. new ≡ map (expired session) rows.now) }
{
    let mut new = List::new(alloc);
    for row in rows {
        new.push(expired_row(row, session))?;
    }
    Ok(new)
}

/// The sessions, of which one is claimed by another.
pub fn claimed_sessions(
    alloc: Global,
    rows: &[SessionRow],
    session: u64,
    by: u64,
) -> Result<List<SessionRow>, OutOfMemory>
    ensures { IfOk result (λ new. new ≡ map (claimed session by) rows.now) }
{
    let mut new = List::new(alloc);
    for row in rows {
        new.push(claimed_row(row, session, by))?;
    }
    Ok(new)
}

/// The sessions but one.
pub fn other_sessions(
    alloc: Global,
    rows: &[SessionRow],
    session: u64,
) -> Result<List<SessionRow>, OutOfMemory>
    ensures { IfOk result (λ new. new ≡ without session rows.now) }
{
    let mut new = List::new(alloc);
    for row in rows {
        if row.number != session {
            new.push(*row)?;
        }
    }
    Ok(new)
}
