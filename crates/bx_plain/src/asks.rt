//! What a node is asked to give back.

ghost use Rattle.std.specs.Prelude.{◌≡◌};
ghost use Rattle.bx_facts.specs.Holds.{first_of};
ghost use Rattle.bx_plain.specs.Asks.{asked_by, asked_of, asks_from, conflicts, is_asked};
ghost use Rattle.bx_plain.specs.Rows.{hold_in, rows_at};

use crate::rows::Row;
use crate::table::{Table, hold_at};
use bx_base::Mode;

/// The first block that another session asks of one, by the order of sessions, and that session.
pub(crate) fn first_asked(rows: &Table, session: u64, nodes: u32) -> Option<(u64, u64)>
    ensures { result ≡ first_of (asks_from (hold_in rows.now session) session rows.now 1 nodes) }
{
    for node in 0..nodes {
        let asked = first_of_other(rows, session, u64::from(node) + 1);
        if asked.is_some() {
            return asked;
        }
    }
    None
}

/// The first block that a session asks of another one.
fn first_of_other(rows: &Table, session: u64, by: u64) -> Option<(u64, u64)>
    ensures { result ≡ first_of (asked_of (hold_in rows.now session) session by rows.now) }
{
    if by == session {
        return None;
    }
    first_by(rows, session, by)
}

/// The first block that a session asks of one.
fn first_by(rows: &Table, session: u64, by: u64) -> Option<(u64, u64)>
    ensures { result ≡ first_of (asked_by (hold_in rows.now session) by rows.now) }
{
    for block in rows.waiting() {
        let asked = first_at(rows, session, by, *block);
        if asked.is_some() {
            return asked;
        }
    }
    None
}

/// The same among the rows of a block.
fn first_at(rows: &Table, session: u64, by: u64, block: u64) -> Option<(u64, u64)>
    ensures { result ≡ first_of (asked_by (hold_in rows.now session) by (rows_at block rows.now)) }
{
    for row in rows.at(block) {
        if asks(rows, session, by, row) {
            return Some((row.block, by));
        }
    }
    None
}

/// Whether a session asks another one for the block of a row.
fn asks(rows: &Table, session: u64, by: u64, row: &Row) -> bool
    ensures { result ≡ is_asked (hold_in rows.now session) by row.now }
{
    row.session == by && row.is_wanted && stands_against(rows, session, row)
}

/// Whether what a session holds stands against what a row wants.
fn stands_against(rows: &Table, session: u64, row: &Row) -> bool
    ensures { result ≡ conflicts (hold_in rows.now session row.now.block) row.now.mode }
{
    match hold_at(rows, session, row.block) {
        None => false,
        Some((Mode::Exclusive, _)) => true,
        Some((Mode::Shared, _)) => match row.mode {
            Mode::Exclusive => true,
            Mode::Shared => false,
        },
    }
}
