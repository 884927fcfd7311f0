//! Replies that were sent, kept so that a call that comes again gets the same reply.
#![tactic(auto)]

mod call;
mod replies;

pub use replies::Replies;
