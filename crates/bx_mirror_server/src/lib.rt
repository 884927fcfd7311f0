//! A member of a mirrored device on its own machine: it takes writes, answers reads, copies itself onto its partner, and says which mode its device
//! is to have.
#![tactic(auto)]

mod copying;
mod laws;
mod messages;
mod reading;
mod server;
mod writing;

pub use laws::{a_piece_is_taken, a_proposal_is_a_step, a_row_is_learned, a_write_is_taken};
pub use server::MirrorServer;
