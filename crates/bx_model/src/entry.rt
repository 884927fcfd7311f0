//! Histories.

use crate::call::Call;
use crate::reply::Reply;
use bx_tree_files::base::CallNo;

/// A step of a history: a call, and what came of it.
#[derive(Drop)]
pub struct Entry {
    /// The call's number.
    pub call: CallNo,
    /// The call.
    pub what: Call,
    /// When it acted, in milliseconds.
    pub moment: u64,
    /// How many blocks were free, or 8 where that doesn't matter.
    pub spare: u64,
    /// The handle of the file that it made, or 0.
    pub made: u64,
    /// What was answered.
    pub reply: Reply,
}
