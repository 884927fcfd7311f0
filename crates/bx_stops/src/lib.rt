//! Why a replay stops short, and what an error of a reader of lines, of a rack and of an audit is to it.
#![tactic(auto)]

mod stop;

pub use stop::{Reason, Stop};
