//! The packets of the register as values: what is asked, told, promised, accepted and refused, and the bytes of each.
#![tactic(auto)]

mod laws;
mod message;
mod parts;
mod reading;
mod sending;
mod writing;

pub use laws::{one_message, written_reads};
pub use message::{Message, Promise};
pub use sending::send;
