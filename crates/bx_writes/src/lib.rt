//! WRITE, over views.
#![tactic(auto)]

mod errors;
mod grown;
mod laying;
mod payloads;
mod preparing;
mod putting;
mod writing;

pub use writing::write;
