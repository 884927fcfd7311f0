//! The file tree that the blocks of a volume stand for, read off them.
#![tactic(auto)]

mod children;
mod chunks;
mod error;
mod leaves;
mod levels;
mod pages;
mod trees;

pub use chunks::chunk_at;
pub use error::AuditError;
pub use levels::level_from;
pub use pages::{TreePage, page_at, torn_at};
pub use trees::{Level, ReadTree, tree_under};
