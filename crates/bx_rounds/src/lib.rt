//! The rounds of a machine that proposes: what it knows and has out after each message, and what it sends then.
#![tactic(auto)]

mod course;
mod hearing;
mod laws;
mod rounds;
mod votes;

pub use course::{Course, Move, Proposal, Vouched};
pub use hearing::{learn, step};
pub use laws::{
    a_change_is_proposed, a_message_is_heard, a_proposer_starts_again, steps_lead_on,
    what_is_sent_may_pass,
};
pub use rounds::propose;
