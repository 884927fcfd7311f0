//! What a member of a mirrored device does with its disk: runs that are put, sectors that are read, and its label.
#![tactic(auto)]

mod labels;
mod puts;
mod reads;

pub use labels::label_own;
pub use puts::put_runs;
pub use reads::read_raw;
