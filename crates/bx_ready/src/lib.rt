//! What is to be written before entries are put into page trees: separators that are missing are posted, and leaves with little room are split. And
//! the laws of files whose page trees grow so.
#![tactic(auto)]

mod descents;
mod file_laws;
mod readying;
mod rooms;
mod separators;
mod target;

pub use file_laws::{a_grown_tree_is_the_same, splits_and_posts_keep_files};
pub use readying::ready;
pub use rooms::split_for;
pub use separators::post_for;
pub use target::Target;
