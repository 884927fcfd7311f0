//! Laws of the file tree: what holds of every tree, and of what calls answer.
#![tactic(auto)]

mod answers;
mod kept;
mod trees;

pub use answers::{attributes_are_as_told, what_was_written_is_read};
pub use kept::{every_step_keeps_a_file_tree, the_opening_tree_is_one};
pub use trees::{
    a_directory_has_one_name, entries_are_numbered, entries_name_files, handles_have_64_bits,
    handles_tell_files_apart, links_are_counted, no_directory_is_below_itself,
    no_handle_comes_back, the_root_stays,
};
