//! The register, the owners and the store of a cluster that is on one machine, as it begins on the disks of a volume.
#![tactic(auto)]

mod parts;

pub use parts::{PlainParts, Shape};
