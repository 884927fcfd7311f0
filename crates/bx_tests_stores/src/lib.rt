//! Tests of the store on one machine, and a toy over a register, owners and a store at once.
#![tactic(auto)]

#[cfg(test)]
mod begins;
#[cfg(test)]
mod bench;
#[cfg(test)]
mod blocks;
#[cfg(test)]
mod cases;
#[cfg(test)]
mod letters;
#[cfg(test)]
mod orders;
mod toy;

pub use toy::hear;
