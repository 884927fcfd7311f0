//! What a machine that proposes knows, and has out.

use bx_global::{Ballot, GlobalState};
use bx_packets::Promise;

/// A promise, and the replica that sent it.
#[derive(Drop)]
pub struct Vouched {
    /// The replica, below 3.
    pub replica: u32,
    /// What it promises.
    pub promise: Promise,
}

/// A change that a machine tries to have decided.
#[derive(Drop)]
pub struct Proposal {
    /// The state that the change makes of what the machine knows.
    pub own: GlobalState,
    /// The reading when it was handed in, in milliseconds.
    pub since: u64,
    /// How often refusals have had it prepared anew since the last tick.
    pub tries: u32,
    /// The ballot in which it is prepared; `None` where no round was left.
    pub ballot: Option<Ballot>,
    /// The first promise that came in this ballot.
    pub promise: Option<Vouched>,
    /// The state that the replicas are to accept in this ballot.
    pub sent: Option<GlobalState>,
    /// The first replica that accepted it.
    pub accepted: Option<u32>,
}

/// What a machine that proposes knows, and has out.
#[derive(Drop)]
pub struct Course {
    /// Its boot.
    pub boot: u64,
    /// The greatest round that it has seen since it started.
    pub seen: u64,
    /// The last reading of its clock, in milliseconds.
    pub reading: u64,
    /// The last state of which it knows that it was decided.
    pub known: GlobalState,
    /// The proposal that is out.
    pub out: Option<Proposal>,
}

/// What a machine sends after a step.
#[derive(Clone, Copy, PartialEq, Eq)]
pub enum Move {
    /// Nothing.
    Nothing,
    /// Its ballot and what it knows, to the replicas.
    Prepare,
    /// The state that they are to accept, to the replicas.
    Accept,
    /// What it knows, to every other machine.
    Decided,
}
