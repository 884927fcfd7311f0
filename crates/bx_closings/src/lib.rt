//! What the disks of a cluster show behind its run, once what was unsure on them was lost; nothing here runs.
#![tactic(auto)]

mod laws;

pub use laws::what_disks_show;

/// What the crates above use of `bx_devices`.
pub mod devices {
    pub use bx_devices::Devices;
}

/// What the crates above use of `bx_engine`.
pub mod engine {
    pub use bx_engine::BoxFs;
}

/// What the crates above use of `bx_locks`.
pub mod locks {
    pub use bx_locks::Locks;
}

/// What the crates above use of `bx_opens`.
pub mod opens {
    pub use bx_opens::{Opens, Shape};
}

/// What the crates above use of `bx_paxos_cluster`.
pub mod paxos_cluster {
    pub use bx_paxos_cluster::Paxos;
}

/// What the crates above use of `bx_world`.
pub mod world {
    pub use bx_world::{Machines, World, all_nodes};
}
