//! How members and streams of mirrored devices fit what was done with them, and the laws of a store from that; nothing here runs.
#![tactic(auto)]

mod disks;
mod laws;
mod members;
mod nodes;
mod others;

pub use disks::{a_disk_changes, a_member_stops, disks_are_surer};
pub use laws::{
    a_node_starts, a_node_stops, a_read_has_what_stands, a_read_is_sent, a_write_has_no_number,
    a_write_is_sent, an_image_has_what_is_settled, begins, grows, letters_are_lost,
    members_are_labelled, nothing_is_out, what_came_is_noted, what_is_done_stands,
    what_is_out_is_its_own, what_is_settled_stands, what_stands_is_settled,
};
pub use members::{a_disk_fails_a_member, a_member_starts, a_member_takes, an_event_is_cut};
pub use nodes::{
    a_reading_rises, a_state_is_learned, a_write_ends, a_write_that_ends_stands, an_event_is_taken,
    members_are_told_again,
};
pub use others::others_do_not_matter;
