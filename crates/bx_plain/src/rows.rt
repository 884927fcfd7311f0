//! Who holds what of a block.

ghost use Rattle.std.specs.Prelude.{◌≡◌, ◌≤◌, OnErr, OnOk};
ghost use Rattle.std.specs.List.{list_any};
ghost use Rattle.bx_base.specs.declared.names.Mode.TheVariants.{Shared, Exclusive};
ghost use Rattle.bx_plain.specs.Rows.{place_in, with_row};
ghost use Rattle.bx_plain.specs.Tables.{AreOf};

use bx_base::{Mode, OutOfMemory};

/// A hold or a want of a session, or what stays behind of one.
#[derive(Clone, Copy)]
pub struct Row {
    /// The session.
    pub session: u64,
    /// The block.
    pub block: u64,
    /// How it is held, or wanted.
    pub mode: Mode,
    /// The index that the hold carries.
    pub index: u64,
    /// Whether it is held.
    pub is_held: bool,
    /// Whether it is wanted.
    pub is_wanted: bool,
    /// The greatest index with which the session gave the block up, from an exclusive hold.
    pub given: u64,
}

/// The place of a session's row of a block.
fn place_of(rows: &[Row], session: u64, block: u64) -> Option<usize>
    ensures { result ≡ place_in rows.now session block }
{
    for place in 0..rows.len() {
        if rows[place].session == session && rows[place].block == block {
            return Some(place);
        }
    }
    None
}

/// Whether something is wanted by one of these rows.
pub(crate) fn any_wanted(rows: &[Row]) -> bool
    ensures { result ≡ list_any (λ row. row.is_wanted) rows.now }
{
    rows.iter().any(|row| row.is_wanted)
}

/// The index with which a row's block was given up, once it is given up with this one.
pub(crate) fn given_after(row: &Row, index: u64) -> u64
    ensures more { row.now.given ≤ result }
    ensures shared { row.now.mode ≡ Shared → result ≡ row.now.given }
    ensures exclusive { row.now.mode ≡ Exclusive → index ≤ result }
{
    match row.mode {
        Mode::Shared => return row.given,
        Mode::Exclusive => return if row.given < index { index } else { row.given },
    }
}

/// Puts a row among those of its block, in the place of that of its session, or at the end.
pub(crate) fn put_among(rows: &mut Vec<Row>, row: Row) -> Result<(), OutOfMemory>
    requires { AreOf row.block rows.old.items }
    ensures ok { OnOk result (rows.new.items ≡ with_row rows.old.items row) }
    ensures err { OnErr result (rows.new.items ≡ rows.old.items) }
{
    match place_of(rows, row.session, row.block) {
        Some(place) => {
            rows[place] = row;
            return Ok(());
        }
        None => {
            rows.push(row)?;
            return Ok(());
        }
    }
}
