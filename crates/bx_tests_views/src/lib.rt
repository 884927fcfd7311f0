//! Tests of chunks and of B-link trees over views of blocks.
#![tactic(auto)]

#[cfg(test)]
mod chunks;
#[cfg(test)]
mod desk;
#[cfg(test)]
mod trees;
