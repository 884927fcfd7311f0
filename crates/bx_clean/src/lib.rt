//! Dead files are freed, a step at a time; and how many steps free a slot.
#![tactic(auto)]

mod files;
mod held;
mod pages;
mod puts;
mod step_laws;
mod tidying;
mod trees;

pub use step_laws::frees_come_to_an_end;
pub use tidying::{Tidied, tidy};
