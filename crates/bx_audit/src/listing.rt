//! What an audit answers.

use bx_base::{Points, Raw};

/// The listing of the file tree that disks hold.
#[derive(Drop)]
pub struct Listing {
    /// Its text: a line for each file, in the order of their handles, and behind it the lines of what the file contains.
    pub text: Raw,
    /// The points of the records that were found open, log slot by log slot, the oldest first in each.
    pub doubt: Points,
}
