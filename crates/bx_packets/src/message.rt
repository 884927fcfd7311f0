//! What a packet of the register says.

ghost use Rattle.std.specs.Prelude.{◌≡◌};

use bx_global::{Ballot, GlobalState};

/// A replica's promise, and what it had accepted then.
#[derive(Drop)]
pub struct Promise {
    /// The ballot that it promised.
    pub ballot: Ballot,
    /// The index of the state that is voted on.
    pub index: u64,
    /// 1 where it has accepted a state of this index, else 0.
    pub flag: u32,
    /// The ballot in which it accepted.
    pub accepted: Ballot,
    /// The state that it accepted.
    pub state: GlobalState,
}

/// What a packet of the register says.
#[derive(Drop)]
pub enum Message {
    /// The receiver is to tell the state that it knows.
    Ask,
    /// This state was decided.
    Decided(GlobalState),
    /// A replica is to promise this ballot. The state is one that was decided.
    Prepare(Ballot, GlobalState),
    /// A replica promises.
    Promise(Promise),
    /// A replica is to accept this state in this ballot.
    Accept(Ballot, GlobalState),
    /// A replica has accepted, in this ballot, the state of this index.
    Accepted(Ballot, u64),
    /// A replica that votes on the state of this index refuses, since it has promised this ballot.
    Refused(u64, Ballot),
}

impl Message {
    ghost use Rattle.bx_packets.specs.Messages.{kind_of};

    /// The kind number, 1 to 7.
    pub fn kind(&self) -> u8
        ensures { result ≡ kind_of self.now }
    {
        match self {
            Message::Ask => 1,
            Message::Decided(_) => 2,
            Message::Prepare(_, _) => 3,
            Message::Promise(_) => 4,
            Message::Accept(_, _) => 5,
            Message::Accepted(_, _) => 6,
            Message::Refused(_, _) => 7,
        }
    }
}
