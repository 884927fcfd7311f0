//! Which file tree the disks of a volume stand for: definitions and their laws. Nothing runs here.
#![tactic(auto)]

mod crashes;
mod images;
mod logs;
mod truths;

pub use crashes::{a_gate_is_out, a_record_in_doubt, what_matters};
pub use images::{
    a_formatted_rack, a_rack_at_rest, one_first_label, one_state, one_tree_is_shown,
    one_tree_stands,
};
pub use logs::{
    a_gate_adds_its_record, behind_the_run_nothing_matters, closing_leaves_the_truth,
    logged_homes_do_not_matter, several_logged_homes_do_not_matter,
};
pub use truths::{closed_logs_leave_the_homes, one_truth};
