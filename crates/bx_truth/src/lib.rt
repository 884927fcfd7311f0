//! Which file tree the blocks of a volume stand for: definitions and their laws. Nothing runs here.
#![tactic(auto)]

mod chunks;
mod dead_files;
mod directories;
mod files;
mod page_trees;
mod sample;
mod truths;

pub use chunks::{
    a_draft_in_place, a_slot_is_freed, a_slot_is_taken, a_taken_handle_is_new, slots_are_kept,
    words_are_the_area,
};
pub use dead_files::{
    a_dead_file_is_gone, a_dead_file_is_put, a_dead_piece_is_cut, a_slot_is_marked,
};
pub use directories::{
    a_directory_is_anew, a_name_is_found, an_entry_has_two_keys, an_entry_is_put,
};
pub use files::{
    a_file_dies, a_file_is_made, a_file_is_put, a_link_is_made, a_piece_is_cut, a_piece_is_put,
    a_piece_is_rewritten, an_inode_is_anew, an_inode_is_rewritten,
};
pub use page_trees::{a_tree_is_split, one_page_tree};
pub use sample::a_volume_with_files;
pub use truths::{
    a_new_volume, one_list_of_names, one_tree, other_blocks_do_not_matter, other_files_stay,
    what_is_in_use_has_a_name,
};

/// What the crates above use of `bx_layout`.
pub mod layout {
    pub use bx_views::layout::Block;
}

/// What the crates above use of `bx_model`.
pub mod model {
    pub use bx_model::STALE;
}

/// What the crates above use of `bx_records`.
pub mod records {
    pub use bx_views::records::{Draft, DraftError};
}

/// What the crates above use of `bx_tree_files`.
pub mod tree_files {
    pub use bx_model::{Body, File};
}

/// What the crates above use of `bx_views`.
pub mod views {
    pub use bx_views::View;
}
