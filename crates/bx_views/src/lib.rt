//! Views of blocks, what an attempt of a call over a view answers, and engines, which attempt calls.
#![tactic(auto)]

mod attempt;
mod engine;
mod view;

pub use attempt::{Attempt, Done};
pub use engine::Engine;
pub use view::View;

/// What the crates above use of `bx_layout`.
pub mod layout {
    pub use bx_records::Block;
}

/// What the crates above use of `bx_records`.
pub mod records {
    pub use bx_records::{Draft, DraftError};
}
