//! The parts of a file tree that know nothing of a file: contents, times that a client sets, and what finds entries by
//! their names, files by their numbers, and the handles that were given out.
#![tactic(auto)]

mod content;
mod fileids;
mod handles;
mod name_index;
mod pieces;
mod times;

pub use content::Content;
pub use fileids::Fileids;
pub use handles::Handles;
pub use name_index::NameIndex;
pub use times::{given_or, is_given, stored, time_or};

/// What the crates above use of `bx_base`.
pub mod base {
    pub use bx_base::{CallNo, List, OutOfMemory, Raw, Words};
}
