//! Tests of the lock service in stated orders of letters: a lock server and the clerks of two nodes that want one block.
#![tactic(auto)]

#[cfg(test)]
mod locks;
#[cfg(test)]
mod orders;
