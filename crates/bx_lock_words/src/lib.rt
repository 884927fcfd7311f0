//! What lock servers and nodes say to one another, as values, and the bytes of each.
#![tactic(auto)]

mod laws;
mod parts;
mod reading;
mod sending;
mod words;
mod writing;

pub use laws::{one_word, written_reads};
pub use sending::send;
pub use words::{Grant, Release, Revoke, Want, Word};
