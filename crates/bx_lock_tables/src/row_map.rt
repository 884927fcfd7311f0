//! What a session was granted, by block.

ghost use Rattle.std.specs.Prelude.{◌≡◌, [], nat_eq, OnErr, OnOk};
ghost use Rattle.indexmap.specs.IndexMap.{insert_entry};
ghost use Rattle.bx_lock_tables.specs.Accounts.{block_row};

use crate::rows::Row;
use bx_base::OutOfMemory;
use indexmap::IndexMap;
use std::alloc::Global;
use std::marker::Model;

/// Rows by block. Contracts see it as the list of its entries, in the order in which the blocks came.
#[derive(Drop)]
pub struct RowMap {
    rows: IndexMap<u64, Row>,
}

impl Model for RowMap {
    ghost use Rattle.std.specs.Prelude.{ℕ, List};
    ghost use Rattle.bx_lock_tables.specs.declared.rows.Row.{Row};

    ghost Value = { List (ℕ × Row) };

    ghost view = { λ map. map.rows.entries };
}

impl RowMap {
    /// No rows yet. It takes no memory.
    pub fn new(alloc: Global) -> RowMap
        ensures { result ≡ [] }
    {
        RowMap {
            rows: IndexMap::new(alloc),
        }
    }

    /// The row of a block; `None` exactly where there is none.
    pub fn get(&self, block: u64) -> Option<Row>
        ensures { result ≡ block_row self.now block }
    {
        self.rows.get(&block).copied()
    }

    /// Puts a row in the place of that of its block, or at the end. Where memory runs out, nothing changes.
    pub fn put(&mut self, block: u64, row: Row) -> Result<(), OutOfMemory>
        ensures ok { OnOk result (self.new ≡ insert_entry nat_eq self.old block row) }
        ensures err { OnErr result (self.new ≡ self.old) }
    {
        self.rows.insert(block, row)?;
        Ok(())
    }
}
