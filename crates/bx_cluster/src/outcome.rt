//! What an event comes to.

use bx_base::{Actor, CallNo, List, Points, Raw};

/// A reply that is sent.
#[derive(Drop)]
pub struct ReplyOut {
    /// The call's number; 0 where a kept answer is sent again.
    pub call: CallNo,
    /// The node that sends it.
    pub node: u32,
    /// The client that it goes to.
    pub client: u32,
    /// Its bytes.
    pub bytes: Raw,
}

/// What an event comes to, beside what the cluster shows then.
#[derive(Drop)]
pub struct Outcome {
    /// The number of the call that was taken.
    pub took: Option<CallNo>,
    /// The points of calls that acted, or turned out to have acted, in their order.
    pub points: Points,
    /// The replies to calls, in their order.
    pub replies: List<ReplyOut>,
    /// The kept answer that was sent again.
    pub again: Option<ReplyOut>,
    /// The machine that a disk fault stopped.
    pub stopped: Option<Actor>,
}
