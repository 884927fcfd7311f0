//! The register, the owners and the store of a cluster as it begins on the disks of a new volume: three replicas, lock servers and clerks, mirrored devices.
#![tactic(auto)]

mod parts;

pub use parts::ClusterParts;
