//! A rack in memory, of which given calls fail, and which keeps a record of all that was done to it.
#![tactic(auto)]

mod cell;
mod cells;
mod mem_disk;
mod mem_rack;
mod sector;
mod steps;

pub use mem_rack::MemRack;
