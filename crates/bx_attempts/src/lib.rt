//! Attempts of the calls that change a file tree, and what any attempt answers.
#![tactic(auto)]

mod calls;
mod replies;
mod tidying;
mod times;

pub use calls::{change, is_change};
pub use replies::{answered, answered_with, replied, stopped};
pub use tidying::tidy;

/// What the crates above use of `bx_directory_reads`.
pub mod directory_reads {
    pub use bx_creating::directory_reads::{lookup, readdir};
}
