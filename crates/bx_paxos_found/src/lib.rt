//! What the disks of three replicas tell of the cluster's state: which cells count, which state they are read as, and the greatest boot.
#![tactic(auto)]

mod boots;
mod choosing;
mod finding;
mod labels;
mod laws;
mod looking;
mod making;
mod origins;
mod reading;

pub use finding::find;
pub use laws::one_state_is_read;
pub use looking::Seen;
pub use making::FoundState;
pub use origins::Origins;
pub use reading::read_state;
