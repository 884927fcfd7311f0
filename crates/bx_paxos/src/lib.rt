//! The register of three replicas: what holds of all its machines and disks, and of the past that led to them; a law for each event; and the
//! machine of a replica.
#![tactic(auto)]

mod laws;
mod replica;

pub use laws::{
    a_change_is_proposed, a_found_volume_fits, a_machine_is_told, a_machine_starts,
    a_machine_stops, a_past_tells, a_proposer_takes, a_replica_answers, a_replica_is_stopped,
    disks_and_letters_may_change, the_beginning_fits,
};
pub use replica::Replica;
