//! A replay: a schedule from its first byte to its last, done on a cluster over a bench of disks, with its trace.
#![tactic(auto)]

mod begins;
mod bench;
mod ends;
mod lines;
mod run;
mod steps;
mod stops;

pub use run::replay;
