//! What a file tree answers a call, of every procedure.
#![tactic(auto)]

mod procedures;

pub use procedures::act;
