//! The states to begin with, and laws: of the changes of a state, and of the bytes of states and cells.
#![tactic(auto)]

mod begin;
mod byte_laws;
mod laws;

pub use begin::{formatted, opening, sessions_until};
pub use byte_laws::{most_bytes, one_reading, written_reads};
pub use laws::{
    begins_allowed, modes_follow, numbers_rise, others_stay, sessions_end, stays_allowed,
};
