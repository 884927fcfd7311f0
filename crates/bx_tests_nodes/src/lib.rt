//! Tests of nodes over the one-machine forms of their parts: a change that crashes in each of its rounds, and two nodes that leave each other alone.
#![tactic(auto)]

#[cfg(test)]
mod apart;
#[cfg(test)]
mod calls;
#[cfg(test)]
mod crashes;
#[cfg(test)]
mod desk;
#[cfg(test)]
mod recovered;
