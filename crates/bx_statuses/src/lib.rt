//! Exit statuses, the lines that tell them, and the commands on a rack by their statuses.
#![tactic(auto)]

mod checks;
mod formats;
mod telling;

pub use checks::check_rack;
pub use formats::format_rack;
pub use telling::{refuse, report, usage};
