//! The blocks that a node holds: how, and which of them aren't home yet; and hints of others.
#![tactic(auto)]

mod cache;

pub use cache::{Cache, Kept};
