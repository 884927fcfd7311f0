//! Reading what a packet says.

ghost use Rattle.std.specs.Prelude.{◌≡◌, IfOk, IfSome, IfNone, MatchResult};
ghost use Rattle.bx_packets.specs.Messages.{Spells};
ghost use Rattle.bx_packets.specs.Reading.{NoneSpells};
ghost use Rattle.bx_packets.specs.declared.message.Message.{Message};

use crate::message::Message;
use crate::parts::{promise_in, proposal_in, refusal_in, state_in, vote_in};
use bx_base::{OutOfMemory, ReadError};
use std::alloc::Global;

impl Message {
    /// What a packet of this kind and body says, in a cluster of so many devices. `None` exactly where that is no message:
    /// the kind is none of the register's, or the body isn't the bytes of one, or a state in it has another number of
    /// devices.
    pub fn read(
        alloc: Global,
        kind: u8,
        body: &[u8],
        devices: u32,
    ) -> Result<Option<Message>, OutOfMemory>
        ensures some { IfOk result (λ found. IfSome found (λ message. Spells devices message kind body.now)) }
        ensures none { IfOk result (λ found. IfNone found ((message : Message) → Spells devices message kind body.now → ⊥)) }
    {
        match message_of(alloc, kind, body, devices) {
            Ok(message) => Ok(Some(message)),
            Err(ReadError::Malformed) => Ok(None),
            Err(ReadError::OutOfMemory) => Err(OutOfMemory),
        }
    }
}

/// What a packet says; `Malformed` exactly where that is no message.
fn message_of(alloc: Global, kind: u8, body: &[u8], devices: u32) -> Result<Message, ReadError>
    ensures { MatchResult result (λ message. Spells devices message kind body.now) (λ e. NoneSpells e devices kind body.now) }
{
    match kind {
        1 if body.is_empty() => Ok(Message::Ask),
        2 => Ok(Message::Decided(state_in(alloc, body, devices)?)),
        3 => {
            let (ballot, state) = proposal_in(alloc, body, devices)?;
            Ok(Message::Prepare(ballot, state))
        }
        4 => Ok(Message::Promise(promise_in(alloc, body, devices)?)),
        5 => {
            let (ballot, state) = proposal_in(alloc, body, devices)?;
            Ok(Message::Accept(ballot, state))
        }
        6 => {
            let (ballot, index) = vote_in(body)?;
            Ok(Message::Accepted(ballot, index))
        }
        7 => {
            let (index, ballot) = refusal_in(body)?;
            Ok(Message::Refused(index, ballot))
        }
        _ => Err(ReadError::Malformed),
    }
}
