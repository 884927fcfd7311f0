//! Mirrored devices with all their machines: two members for each device, and a stream for each node.
#![tactic(auto)]

mod calls;
mod devices;
mod events;
mod laws;
mod store;

pub use devices::Devices;
pub use laws::made_for;
