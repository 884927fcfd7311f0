//! The lock server: it grants blocks to sessions, and says how long these last.
#![tactic(auto)]

mod hearing;
mod learning;
mod letters;
mod master;
mod serving;
mod ticking;

pub use master::Master;
