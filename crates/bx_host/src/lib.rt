//! What serves a cluster's files over a link, turn by turn.
#![tactic(auto)]

mod answers;
mod error;
mod events;
mod hearing;
mod host;
mod lost;
mod runs;
mod server;
mod ticks;
mod turns;

pub use error::HostError;
pub use server::serve;
