//! The state that the cluster decides on, its legal changes and its bytes.
#![tactic(auto)]

mod change;
mod changes;
mod held;
mod reading;
mod reading_off;
mod state;
mod writing;

pub use bx_rows::{Ballot, DeviceRow, SessionRow, ballots_are_in_order};
pub use change::Change;
pub use held::Held;
pub use state::GlobalState;
