//! The register of three replicas, with all machines of a cluster.
#![tactic(auto)]

mod disks;
mod paxos;
mod register;

pub use disks::has_disks;
pub use paxos::Paxos;
