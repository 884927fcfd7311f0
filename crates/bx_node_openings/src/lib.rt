//! How the nodes of a cluster stand to begin with, on disks at rest: of a new volume, and of one that is found; nothing here runs.
#![tactic(auto)]

mod laws;

pub use laws::what_nodes_begin_with;
