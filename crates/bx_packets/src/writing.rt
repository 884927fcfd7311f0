//! Writing what a packet says.

ghost use Rattle.std.specs.Prelude.{◌≡◌, ◌++◌, IfOk, OnOk};
ghost use Rattle.bx_global.specs.Bytes.{HasCounts, state_text};
ghost use Rattle.bx_rows.specs.Spelling.{ballot_text};
ghost use Rattle.bx_packets.specs.Messages.{HasCountsIn, body_text, marks_text, promise_text, refusal_text, vote_text};

use crate::message::{Message, Promise};
use bx_base::{OutOfMemory, Raw, push, push_u32, push_u64};
use bx_global::{Ballot, GlobalState};
use bx_rows::push_ballot;
use std::alloc::Global;

impl Message {
    /// The body.
    pub fn write(&self, alloc: Global) -> Result<Raw, OutOfMemory>
        requires { HasCountsIn self.now }
        ensures { IfOk result (λ raw. raw ≡ body_text self.now) }
    {
        match self {
            Message::Ask => Ok(Raw::from(Vec::new(alloc))),
            Message::Decided(state) => state.write(alloc),
            Message::Prepare(ballot, state) => write_proposal(alloc, ballot, state),
            Message::Promise(promise) => write_promise(alloc, promise),
            Message::Accept(ballot, state) => write_proposal(alloc, ballot, state),
            Message::Accepted(ballot, index) => write_vote(alloc, ballot, *index),
            Message::Refused(index, ballot) => write_refusal(alloc, *index, ballot),
        }
    }
}

/// The bytes of a ballot and a state.
fn write_proposal(alloc: Global, ballot: &Ballot, state: &GlobalState) -> Result<Raw, OutOfMemory>
    requires { HasCounts state.now }
    ensures { IfOk result (λ raw. raw ≡ ballot_text ballot.now ++ state_text state.now) }
{
    let text = state.write(alloc)?;
    let mut out = Vec::new(alloc);
    push_ballot(&mut out, ballot)?;
    push(&mut out, text.bytes())?;
    Ok(Raw::from(out))
}

/// The bytes of a promise.
fn write_promise(alloc: Global, promise: &Promise) -> Result<Raw, OutOfMemory>
    requires { HasCounts promise.now.state }
    ensures { IfOk result (λ raw. raw ≡ promise_text promise.now) }
{
    let text = promise.state.write(alloc)?;
    let mut out = Vec::new(alloc);
    push_marks(&mut out, promise)?;
    push(&mut out, text.bytes())?;
    Ok(Raw::from(out))
}

/// Puts what stands before the state in a promise at the end.
fn push_marks(out: &mut Vec<u8>, promise: &Promise) -> Result<(), OutOfMemory>
    ensures { OnOk result (out.new.items ≡ out.old.items ++ marks_text promise.now) }
{
    push_ballot(out, &promise.ballot)?;
    push_u64(out, promise.index)?;
    push_u32(out, promise.flag)?;
    push_ballot(out, &promise.accepted)
}

/// The bytes of a ballot and an index.
fn write_vote(alloc: Global, ballot: &Ballot, index: u64) -> Result<Raw, OutOfMemory>
    ensures { IfOk result (λ raw. raw ≡ vote_text ballot.now index) }
{
    let mut out = Vec::new(alloc);
    push_ballot(&mut out, ballot)?;
    push_u64(&mut out, index)?;
    Ok(Raw::from(out))
}

/// The bytes of an index and a ballot.
fn write_refusal(alloc: Global, index: u64, ballot: &Ballot) -> Result<Raw, OutOfMemory>
    ensures { IfOk result (λ raw. raw ≡ refusal_text index ballot.now) }
{
    let mut out = Vec::new(alloc);
    push_u64(&mut out, index)?;
    push_ballot(&mut out, ballot)?;
    Ok(Raw::from(out))
}
