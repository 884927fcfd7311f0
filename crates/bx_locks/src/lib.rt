//! The lock service with all its machines: two lock servers, and a clerk for each node.
#![tactic(auto)]

mod calls;
mod events;
mod laws;
mod locks;
mod owners;

pub use laws::made_for;
pub use locks::Locks;
