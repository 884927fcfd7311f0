//! The clerk of a node: what the node's session holds, what it asked for, and what is asked back of it.
#![tactic(auto)]

mod asks;
mod clerk;
mod hearing;
mod learning;
mod letters;
mod places;
mod requests;
mod ticking;

pub use clerk::Clerk;
pub use requests::Asking;
