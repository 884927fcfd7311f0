//! The machines of a register of three replicas: each alone, how one is found in a list, how they are made and begin, and what a register keeps of
//! all of them.
#![tactic(auto)]

mod finding;
mod laws;
mod machine;
mod making;

pub use finding::place_of;
pub use laws::{other_disks_and_letters, what_a_register_tells};
pub use machine::Machine;
pub use making::{begin_anew, make_all};

/// What the crates above use of `bx_paxos_found`.
pub mod paxos_found {
    pub use bx_paxos_found::{Origins, find};
}
