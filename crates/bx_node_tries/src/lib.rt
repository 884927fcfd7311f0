//! The calls that wait at a node are attempted, over what it holds.
#![tactic(auto)]

mod message;
mod round;
mod tries;

pub use message::Message;
pub use round::{Begun, Round, Said, Waiting};
pub use tries::attempt_all;
