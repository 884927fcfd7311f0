//! What holds of votes on states: what three replicas decide is one chain. Definitions over plain data, and their laws; nothing here
//! runs.
#![tactic(auto)]

mod laws;

pub use laws::{
    a_change_is_handed_in, a_choice_is_known, a_proposer_prepares, a_proposer_sends,
    a_proposer_starts_again, a_replica_answers, a_replica_is_put, a_state_is_learned,
    cells_are_read_as_the_next_state, cells_begin, found_cells_are_read, one_of_each,
};
