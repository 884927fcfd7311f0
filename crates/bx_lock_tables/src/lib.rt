//! What a lock server keeps of blocks, sessions and wants, and what becomes of a want.
#![tactic(auto)]

mod accounts;
mod queue;
mod revokes;
mod row_map;
mod rows;
mod turns;
mod verdict;

pub use accounts::{
    Account, forget, is_expiring, list_row, mark_expiring, note_end, noted_end, row_for, rows_at,
};
pub use queue::Queue;
pub use revokes::push_revokes;
pub use row_map::RowMap;
pub use rows::Row;
pub use verdict::{Verdict, is_live, judge};
