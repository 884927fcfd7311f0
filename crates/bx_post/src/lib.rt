//! Packets: what one event makes of them, and the list of all that were sent.
#![tactic(auto)]

mod lanes;
mod packets;
mod passes;
mod post;
mod search;

pub use packets::{Letter, Outbox, Packet};
pub use passes::Passes;
pub use post::Post;
