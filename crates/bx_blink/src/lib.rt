//! B-link trees over views: the maps from keys to values that page trees are.
#![tactic(auto)]

mod along;
mod error;
mod laws;
mod look;
mod runs;
mod searches;
mod steps;
mod walks;

pub use along::{leaf_at, leaf_from};
pub use error::BlinkError;
pub use laws::{a_search_has_one_end, no_hints_agree_with_a_leaf};
pub use look::{block_at, page_in, page_of, seen};
pub use searches::{find, next};
pub use steps::{End, child_of, handle_in, passes};
pub use walks::walk;

/// What the crates above use of `bx_model`.
pub mod model {
    pub use bx_truth::model::STALE;
}

/// What the crates above use of `bx_page_bytes`.
pub mod page_bytes {
    pub use bx_page_bytes::PageBytes;
}

/// What the crates above use of `bx_records`.
pub mod records {
    pub use bx_truth::records::Draft;
}

/// What the crates above use of `bx_tree_files`.
pub mod tree_files {
    pub use bx_truth::tree_files::{Body, File};
}

/// What the crates above use of `bx_views`.
pub mod views {
    pub use bx_truth::views::View;
}
