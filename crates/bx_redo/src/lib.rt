//! The log of a session, as a machine over data: it asks for the writes of a record and of a closing, and is told when they
//! are acknowledged. What the disks then hold is a relation between the log and them, with a law for each event.
#![tactic(auto)]

mod home;
mod laws;
mod log;
mod recovery;
mod runs;
mod stores;
mod text;
mod work;

pub use home::home_of;
pub use laws::{
    a_body_is_acknowledged, a_closing_is_begun, a_gate_is_acknowledged, a_log_is_closed,
    a_record_is_begun, a_record_lives, gate_0_is_closed, homes_are_written, what_images_have,
    what_is_asked_for_is_written, what_is_out_moves_nothing,
};
pub use log::Log;
pub use recovery::{
    a_found_log_is_closing, a_log_begins, a_resting_log_is_found, gates_are_read,
    gates_are_settled, homes_of_a_found_log_are_written, what_keeps_sure_sectors_moves_nothing,
};
pub use stores::{
    a_store_writes_gates_back, a_store_writes_homes, a_store_writes_it,
    what_images_have_at_any_moment,
};
pub use work::{Move, Work};
