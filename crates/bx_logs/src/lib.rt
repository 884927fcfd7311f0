//! The logs of a volume, read off any rack: their records, and the newest block of each number. Each function answers what the
//! definitions of a volume say, both ways.
#![tactic(auto)]

mod log;
mod logs;
mod members;
mod newest;
mod record;

pub use logs::{points_of, push_points, read_logs};
pub use members::Members;
pub use newest::{Newest, clash_in, copy_of, newest_of, newest_of_all};
pub use record::{Record, are_numbers};

/// What the crates above use of `bx_homes`.
pub mod homes {
    pub use bx_homes::{Blocks, first_absent, first_label, first_unlabelled, read_home};
}
