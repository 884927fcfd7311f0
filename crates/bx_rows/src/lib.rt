//! The rows of the state that the cluster decides on, sessions and devices, and ballots: what is read off them, what
//! changes them, and their bytes.
#![tactic(auto)]

mod ballot;
mod checks;
mod device;
mod modes;
mod reading;
mod rows;
mod session;
mod writing;

pub use ballot::{Ballot, ballots_are_in_order};
pub use checks::{are_placed, are_rising, have_modes, have_own_slots};
pub use device::{DeviceRow, shifted_row};
pub use modes::can_follow;
pub use reading::{ballot_of, devices_of, pair_of, sessions_of};
pub use rows::{
    NODES, SLOTS, claimed_sessions, dead_sessions, expired_sessions, find_live, find_row,
    free_slot, is_live, opened_sessions, other_sessions,
};
pub use session::SessionRow;
pub use writing::{push_ballot, push_devices, push_pair, push_sessions};

/// What the crates above use of `bx_base`.
pub mod base {
    pub use bx_base::{List, OutOfMemory, Raw, ReadError, push_u32, push_u64, u32_at, u64_at};
}
