//! A member of a mirrored device, its disk apart: in which epochs it acts, which messages it takes and what it owes for them, how far a copy has
//! come, and whether its partner is silent.
#![tactic(auto)]

mod answering;
mod copies;
mod judging;
mod member;
mod proposing;

pub use copies::{Piece, Progress};
pub use judging::Judgement;
pub use member::Member;
