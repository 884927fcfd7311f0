//! What a node writes to mirrored devices and reads from them: the write and the read that it has out, whom it tells, and what it takes as an answer.
#![tactic(auto)]

mod asking;
mod client;
mod done;
mod hearing;
mod laws;
mod learning;
mod letters;
mod runs;
mod sending;

pub use asking::Asking;
pub use client::MirrorClient;
pub use laws::{a_write_ends_done, an_event_leaves, done_is, letters_are};
pub use sending::{Ack, Sending};
