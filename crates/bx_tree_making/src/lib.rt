//! The procedures that make files in a file tree, with the entries that name them: CREATE, SYMLINK and MKDIR.
#![tactic(auto)]

mod creating;
mod making;

pub use creating::{Ask, create, mkdir, symlink};
