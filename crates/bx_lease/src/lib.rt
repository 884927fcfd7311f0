//! Readings of clocks: how far they may go back, and how long a machine may be silent.
#![tactic(auto)]

mod clock_rule;
mod detector;

pub use clock_rule::{BackBy, ClockRule};
pub use detector::Detector;
