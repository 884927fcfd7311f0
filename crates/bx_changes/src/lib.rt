//! The procedures that change a file tree, over views.
#![tactic(auto)]

mod attributes;
mod error;
mod given;
mod rewriting;

pub use attributes::set_attributes;
pub use error::ChangeError;
pub use given::{is_forbidden, sets_field, with_given};

/// What the crates above use of `bx_files`.
pub mod files {
    pub use bx_reads::{PIECE, content_key, needed, value_at};
}

/// What the crates above use of `bx_reads`.
pub mod reads {
    pub use bx_reads::attributes_by;
}
