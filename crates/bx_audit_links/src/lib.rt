//! Whether files are a file tree: their links, their parents, and that the root leads to each directory.
#![tactic(auto)]

mod children;
mod counts;
mod entries;
mod file_trees;
mod reached;
mod right;

pub use file_trees::wrong_file;
