//! A cluster that is served.

use bx_base::{Actor, List};
use bx_cluster::Outcome;

/// A cluster that is served, and what its turn has come to so far.
#[derive(Drop)]
pub struct Host<C> {
    /// The cluster.
    pub cluster: C,
    /// The term to begin with.
    pub first: u64,
    /// The turn's reading of the clock: the greatest one so far, in milliseconds.
    pub reading: u64,
    /// How many events the turn may still do.
    pub left: u32,
    /// What the turn's events came to that answers something, in their order.
    pub answers: List<Outcome>,
    /// The machines that faults stopped, in that order.
    pub stopped: List<Actor>,
    /// Whether the session was live once.
    pub ready: bool,
    /// How many replies were sent.
    pub sent: u64,
}
