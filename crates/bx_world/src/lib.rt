//! A cluster, one event at a time: all of its machines, the packets between them, and the calls that its clients made.
#![tactic(auto)]

mod begins;
mod calls;
mod cluster;
mod events;
mod packets;
mod shows;
mod starts;
mod steps;
mod stops;
mod tells;
mod world;

pub use bx_world_machines::Machines;
pub use world::World;

/// What the crates above use of `bx_nodes`.
pub mod all_nodes {
    pub use bx_world_machines::all_nodes::{Nodes, first_machines, what_nodes_begin_with};
}
