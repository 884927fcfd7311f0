//! The command lines that there are, and how the words of the command are read.
#![tactic(auto)]

mod command_line;
mod numbers;

pub use command_line::CommandLine;
