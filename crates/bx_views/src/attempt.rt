//! What an attempt answers.

use bx_records::base::Raw;
use bx_records::{Draft, Wants};

/// A call that acted.
#[derive(Drop)]
pub struct Done {
    /// The reply's bytes.
    pub reply: Raw,
    /// How many blocks were free, or 8 where the reply doesn't tell it.
    pub spare: u64,
    /// The handle of the file that it made, or 0.
    pub made: u64,
}

/// What an attempt answers.
#[derive(Drop)]
pub enum Attempt {
    /// It wants these blocks, at least one.
    Need(Wants),
    /// It acted, and changes blocks.
    Change(Draft, Done),
    /// It leaves the tree as it is, and changes blocks. The call is to be attempted again.
    Inner(Draft),
    /// It acted, and changes no block.
    Answer(Done),
}
