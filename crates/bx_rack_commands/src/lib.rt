//! The commands on a rack: a volume that is made, and one that is checked.
#![tactic(auto)]

mod checks;
mod failure;
mod volumes;

pub use checks::check;
pub use failure::{Failure, Refusal};
pub use volumes::format;
