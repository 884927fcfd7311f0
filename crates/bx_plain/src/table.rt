//! The rows of all blocks.

ghost use Rattle.std.specs.Prelude.{◌≡◌, ◌≢◌, ◌↔◌, ℕ, [], false, true, IsSome, IsTrue, OnErr, OnOk};
ghost use Rattle.std.specs.BTreeMap.{IsOrdered};
ghost use Rattle.std.specs.BTreeSet.{IsOrdered as AreOrdered, contains};
ghost use Rattle.std.specs.List.{list_any};
ghost use Rattle.std.specs.Ordering.{nat_cmp};
ghost use Rattle.bx_plain.specs.Rows.{AllLet, floor_in, hold_in, is_before, place_in, lock_row, rows_at, sessions_at, want_in, with_row};
ghost use Rattle.bx_plain.specs.Tables.{AreOf, AreTheirs, Waits, flat, gather, kept_at, wanted};

use crate::rows::{Row, any_wanted, put_among};
use bx_base::{Mode, OutOfMemory};
use std::alloc::Global;
use std::collections::{BTreeMap, BTreeSet};
use std::marker::Model;

/// The rows of each block.
type Blocks = BTreeMap<u64, Vec<Row>>;

/// The rows of all blocks. Contracts see them as one list, in the order of the blocks. No call goes over the rows of other blocks than it names.
#[derive(Drop)]
pub struct Table {
    alloc: Global,
    blocks: Blocks,
    /// The blocks of which something is wanted, and maybe some of which nothing is.
    waiting: BTreeSet<u64>,
}

impl Model for Table {
    ghost use Rattle.std.specs.Prelude.{List};
    ghost use Rattle.bx_plain.specs.declared.rows.Row.{Row};
    ghost use Rattle.bx_plain.specs.Tables.{IsTable, flat};

    ghost Value = { List Row };

    ghost view = { λ table. flat table.blocks.entries };

    ghost invariant = { λ table. IsTable table.blocks table.waiting };
}

impl Table {
    /// No rows. It takes no memory.
    pub(crate) fn new(alloc: Global) -> Table
        ensures { result ≡ [] }
    {
        Table {
            alloc,
            blocks: BTreeMap::new(alloc),
            waiting: BTreeSet::new(alloc),
        }
    }

    /// The rows of a block.
    pub(crate) fn at(&self, block: u64) -> &[Row]
        ensures rows { result.now ≡ rows_at block self.now }
        ensures own { AreOf block result.now }
    {
        rows_of(&self.blocks, block)
    }

    /// Blocks, in their order: all of which something is wanted are among them.
    pub(crate) fn waiting(&self) -> &BTreeSet<u64>
        ensures { wanted (gather result.now.keys self.now) ≡ wanted self.now }
    {
        &self.waiting
    }

    /// Puts a row in the place of that of its session and block, or behind those of its block.
    pub(crate) fn put(&mut self, row: Row) -> Result<(), OutOfMemory>
        ensures put { OnOk result (self.new ≡ with_row self.old row) }
        ensures sessions { IsSome (place_in self.old row.session row.block) → OnOk result (sessions_at row.block self.new ≡ sessions_at row.block self.old) }
    {
        note(&mut self.waiting, &row)?;
        put_row(self.alloc, &mut self.blocks, row)?;
        settle(
            &mut self.waiting,
            rows_of(&self.blocks, row.block),
            row.block,
        );
        Ok(())
    }
}

/// The rows that are kept of a block.
fn rows_of(blocks: &Blocks, block: u64) -> &[Row]
    ensures { result.now ≡ kept_at blocks.now block }
{
    match blocks.get(&block) {
        None => &[],
        Some(rows) => rows,
    }
}

/// Notes the block of which a row wants something.
fn note(waiting: &mut BTreeSet<u64>, row: &Row) -> Result<(), OutOfMemory>
    ensures more { (block : ℕ) → contains nat_cmp waiting.old block ≡ true → contains nat_cmp waiting.new block ≡ true }
    ensures row { OnOk result (Waits waiting.new row.now) }
    ensures ordered { AreOrdered nat_cmp waiting.old → AreOrdered nat_cmp waiting.new }
{
    if row.is_wanted {
        waiting.insert(row.block)?;
    }
    Ok(())
}

/// Puts a row among those of its block.
fn put_row(alloc: Global, blocks: &mut Blocks, row: Row) -> Result<(), OutOfMemory>
    requires ordered { IsOrdered nat_cmp blocks.old }
    requires theirs { AreTheirs blocks.old.entries }
    ensures put { OnOk result (flat blocks.new.entries ≡ with_row (flat blocks.old.entries) row) }
    ensures err { OnErr result (flat blocks.new.entries ≡ flat blocks.old.entries) }
    ensures ordered { IsOrdered nat_cmp blocks.new }
    ensures theirs { AreTheirs blocks.new.entries }
{
    if let Some(rows) = blocks.get_mut(&row.block) {
        put_among(rows, row)?;
        return Ok(());
    }
    let rows = vec![in alloc; row]?;
    blocks.insert(row.block, rows)?;
    Ok(())
}

/// Lets a block wait no more of which nothing is wanted.
fn settle(waiting: &mut BTreeSet<u64>, rows: &[Row], block: u64)
    ensures stays { list_any (λ row. row.is_wanted) rows.now ≡ true → waiting.new ≡ waiting.old }
    ensures gone { list_any (λ row. row.is_wanted) rows.now ≡ false → contains nat_cmp waiting.new block ≡ false }
    ensures others { (other : ℕ) → other ≢ block → contains nat_cmp waiting.new other ≡ contains nat_cmp waiting.old other }
    ensures ordered { AreOrdered nat_cmp waiting.old → AreOrdered nat_cmp waiting.new }
{
    if any_wanted(rows) {
        return;
    }
    waiting.remove(&block);
}

/// Whether a session may hold a block in this mode: what others hold of it doesn't stand against that, nor what lower sessions wait for, which are asked for first.
pub(crate) fn is_free(rows: &Table, session: u64, block: u64, mode: Mode) -> bool
    ensures { IsTrue result ↔ AllLet session block mode rows.now }
{
    for row in rows.at(block) {
        if is_before(row, session) && row.session != session {
            if row.mode != Mode::Shared || mode != Mode::Shared {
                return false;
            }
        }
    }
    true
}

/// Whether a row stands in a session's way: its block is held, or a lower session waits for it.
fn is_before(row: &Row, session: u64) -> bool
    ensures { result ≡ is_before session row.now }
{
    row.is_held || (row.is_wanted && row.session < session)
}

/// The greatest index with which the block was given up.
pub(crate) fn floor_of(rows: &Table, block: u64) -> u64
    ensures { result ≡ floor_in rows.now block }
{
    let mut floor = 0;
    for row in rows.at(block) {
        if floor < row.given {
            floor = row.given;
        }
    }
    floor
}

/// The row of a session and a block.
pub(crate) fn row_of(rows: &Table, session: u64, block: u64) -> Row
    ensures { result ≡ lock_row rows.now session block }
{
    for row in rows.at(block) {
        if row.session == session {
            return *row;
        }
    }
    Row {
        session,
        block,
        mode: Mode::Shared,
        index: 0,
        is_held: false,
        is_wanted: false,
        given: 0,
    }
}

/// How a session holds a block.
pub(crate) fn hold_at(rows: &Table, session: u64, block: u64) -> Option<(Mode, u64)>
    ensures { result ≡ hold_in rows.now session block }
{
    let row = row_of(rows, session, block);
    if row.is_held {
        return Some((row.mode, row.index));
    }
    None
}

/// How a session wants a block.
pub(crate) fn want_at(rows: &Table, session: u64, block: u64) -> Option<Mode>
    ensures { result ≡ want_in rows.now session block }
{
    let row = row_of(rows, session, block);
    if row.is_wanted {
        return Some(row.mode);
    }
    None
}
