//! The files of a tree: what they contain, how they are kept, and how a procedure edits one.
#![tactic(auto)]

mod edits;
mod file;
mod files;
mod metadata;
mod names;
mod sattr;

pub use bx_tree_parts::{Content, Handles, given_or, is_given, stored, time_or};
pub use edits::{Edit, MODES};
pub use file::{Body, DIRECTORY, File, LINK, Name, REGULAR};
pub use files::Files;
pub use metadata::{
    BLOCK_LEN, attribute_words, attributes, fileid, mode_word, put_words, size_of, words_of,
};
pub use names::{NameList, is_bad};
pub use sattr::Sattr;

/// What the crates above use of `bx_base`.
pub mod base {
    pub use bx_tree_parts::base::{CallNo, List, OutOfMemory, Raw, Words};
}
