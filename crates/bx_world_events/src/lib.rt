//! The events of a cluster, and why one is refused.
#![tactic(auto)]

mod causes;
mod event;
mod laws;
mod refusals;
mod shows;

pub use bx_lease::ClockRule;
pub use causes::{REPLICAS, SERVERS, is_there};
pub use event::{Event, EventError};
pub use laws::first_cause_is_told;
pub use refusals::refusal;
pub use shows::Shows;
