//! Tests of the register of a cluster: what one replica answers, which changes are refused, and two machines that propose changes of which only
//! one can be made.
#![tactic(auto)]

#[cfg(test)]
mod answers;
#[cfg(test)]
mod cluster;
#[cfg(test)]
mod events;
#[cfg(test)]
mod orders;
#[cfg(test)]
mod refusals;
#[cfg(test)]
mod replicas;
#[cfg(test)]
mod states;
