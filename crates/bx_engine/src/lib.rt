//! The engine of a volume: calls as bytes, attempted over views of its blocks.
#![tactic(auto)]

mod calls;
mod engine;
mod laws;
mod mounting;
mod plain;
mod procedures;

pub use engine::BoxFs;
pub use laws::steps_are_of_histories;
