//! Tests of logs that are found: with any of their gates open, and after a life that was stopped, by a recovery that may be stopped too.
#![tactic(auto)]

#[cfg(test)]
mod found;
#[cfg(test)]
mod repairs;
