//! How clusters begin: the contract under a replay and under a server.
#![tactic(auto)]

mod opens;

pub use bx_cluster::{Cluster, Event, EventError, Outcome, ReplyOut, Shows};
pub use opens::{Opens, Shape};

/// What the crates above use of the audit of a rack.
pub mod rack_audit {
    pub use bx_audit::Listing;
    pub use bx_rack_audit::audit;
}
