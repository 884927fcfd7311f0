//! A rack that passes so many calls to another, and then fails every one.
#![tactic(auto)]

mod stop_rack;

pub use stop_rack::StopRack;
