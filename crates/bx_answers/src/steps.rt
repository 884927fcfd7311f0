//! What an acceptor holds to begin with, and what it decides on a message: what it holds then, and what it answers.

ghost use Rattle.std.specs.Prelude.{◌≡◌, ℕ, ◌+◌, ◌^◌, ◌<◌, false, true, IfOk, OnOk, OnErr};
ghost use Rattle.bx_global.specs.Bytes.{IsHeld};
ghost use Rattle.bx_packets.specs.Messages.{IsMessage, IsStateOf};
ghost use Rattle.bx_rows.specs.Ballots.{ComesBefore};
ghost use Rattle.bx_rows.specs.Conditions.{IsBallot};
ghost use Rattle.bx_answers.specs.Handling.{Changes, Handles, HasRoomAbove, IsAcceptable, IsNews, IsNewsOrAbove, Learns, Prepares, Promises, Votes, caught_up, first_held};
ghost use Rattle.bx_answers.specs.Replies.{answer_of};

use crate::replies::Reply;
use bx_base::OutOfMemory;
use bx_global::{Ballot, GlobalState, Held};
use bx_packets::Message;
use std::alloc::Global;

/// No ballot.
const NO_BALLOT: Ballot = Ballot {
    round: 0,
    actor: 0,
    boot: 0,
};

/// What is answered, and whether what is held has changed.
#[derive(Clone, Copy)]
pub struct Step {
    /// What is answered.
    pub reply: Reply,
    /// Whether what is held has changed.
    pub changed: bool,
}

/// What an acceptor holds that begins with a state.
pub fn first_held(alloc: Global, state: &GlobalState) -> Result<Held, OutOfMemory>
    requires { state.now.index + 1 < 2 ^ 64 }
    ensures { IfOk result (λ held. held ≡ first_held state.now) }
{
    Ok(Held {
        index: state.index + 1,
        promise: NO_BALLOT,
        ballot: NO_BALLOT,
        flag: 0,
        accepted: state.copy(alloc)?,
        decided: state.copy(alloc)?,
    })
}

/// A step that changes nothing.
fn unchanged(reply: Reply) -> Step
    ensures { result ≡ record { reply = reply; changed = false } }
{
    Step {
        reply,
        changed: false,
    }
}

/// A step that changes what is held.
fn changed(reply: Reply) -> Step
    ensures { result ≡ record { reply = reply; changed = true } }
{
    Step {
        reply,
        changed: true,
    }
}

/// Takes a message. Where memory runs out, nothing changes.
pub fn handle(alloc: Global, held: &mut Held, message: Message) -> Result<Step, OutOfMemory>
    requires { HasRoomAbove message }
    ensures handles { IfOk result (λ step. Handles held.old message held.new (answer_of held.new step.reply)) }
    ensures same { IfOk result (λ step. step.changed ≡ false → held.new ≡ held.old) }
    ensures spare { IfOk result (λ step. step.changed ≡ true → Changes held.old message) }
    ensures kept { (devices : ℕ) → IsHeld devices held.old → IsMessage devices message → IsHeld devices held.new }
    ensures err { OnErr result (held.new ≡ held.old) }
{
    match message {
        Message::Ask => Ok(unchanged(Reply::Decided)),
        Message::Decided(state) => learn(alloc, held, state),
        Message::Prepare(ballot, state) => prepare(alloc, held, ballot, state),
        Message::Accept(ballot, state) => Ok(accept(held, ballot, state)),
        Message::Promise(_) | Message::Accepted(_, _) | Message::Refused(_, _) => {
            Ok(unchanged(Reply::Nothing))
        }
    }
}

/// Takes a decided state, where it is newer than the last one.
fn learn(alloc: Global, held: &mut Held, state: GlobalState) -> Result<Step, OutOfMemory>
    requires { state.index + 1 < 2 ^ 64 }
    ensures learns { OnOk result (Learns held.old state held.new) }
    ensures silent { IfOk result (λ step. step.reply ≡ Reply.Nothing) }
    ensures spare { IfOk result (λ step. step.changed ≡ true → IsNews held.old state) }
    ensures same { IfOk result (λ step. step.changed ≡ false → held.new ≡ held.old) }
    ensures kept { (devices : ℕ) → IsHeld devices held.old → IsStateOf devices state → IsHeld devices held.new }
    ensures err { OnErr result (held.new ≡ held.old) }
{
    if state.index <= held.decided.index {
        return Ok(unchanged(Reply::Nothing));
    }
    catch_up(alloc, held, state)?;
    Ok(changed(Reply::Nothing))
}

/// Takes a prepare, which brings a decided state.
fn prepare(
    alloc: Global,
    held: &mut Held,
    ballot: Ballot,
    state: GlobalState,
) -> Result<Step, OutOfMemory>
    requires { state.index + 1 < 2 ^ 64 }
    ensures prepares { IfOk result (λ step. Prepares held.old ballot state held.new (answer_of held.new step.reply)) }
    ensures spare { IfOk result (λ step. step.changed ≡ true → IsNewsOrAbove held.old ballot state) }
    ensures same { IfOk result (λ step. step.changed ≡ false → held.new ≡ held.old) }
    ensures kept { (devices : ℕ) → IsHeld devices held.old → IsBallot ballot → IsStateOf devices state → IsHeld devices held.new }
    ensures err { OnErr result (held.new ≡ held.old) }
{
    if state.index < held.decided.index {
        return Ok(unchanged(Reply::Decided));
    }
    if state.index == held.decided.index {
        return Ok(promise(held, ballot));
    }
    catch_up(alloc, held, state)?;
    let step = promise(held, ballot);
    Ok(changed(step.reply))
}

/// Promises a ballot that is above the promise.
fn promise(held: &mut Held, ballot: Ballot) -> Step
    ensures promises { Promises held.old ballot held.new (answer_of held.new result.reply) }
    ensures spare { result.changed ≡ true → ComesBefore held.old.promise ballot }
    ensures same { result.changed ≡ false → held.new ≡ held.old }
    ensures kept { (devices : ℕ) → IsHeld devices held.old → IsBallot ballot → IsHeld devices held.new }
{
    if !held.promise.comes_before(&ballot) {
        return unchanged(Reply::Refused);
    }
    held.promise = ballot;
    changed(Reply::Promise)
}

/// Takes a decided state that is newer. Where memory runs out, nothing changes.
pub fn catch_up(alloc: Global, held: &mut Held, state: GlobalState) -> Result<(), OutOfMemory>
    requires { state.index + 1 < 2 ^ 64 }
    ensures caught_up { OnOk result (held.new ≡ caught_up state held.old) }
    ensures kept { (devices : ℕ) → IsHeld devices held.old → IsStateOf devices state → IsHeld devices held.new }
    ensures err { OnErr result (held.new ≡ held.old) }
{
    held.accepted = state.copy(alloc)?;
    held.index = state.index + 1;
    held.ballot = NO_BALLOT;
    held.flag = 0;
    held.decided = state;
    Ok(())
}

/// Takes an accept.
fn accept(held: &mut Held, ballot: Ballot, state: GlobalState) -> Step
    ensures votes { Votes held.old ballot state held.new (answer_of held.new result.reply) }
    ensures spare { result.changed ≡ true → IsAcceptable held.old ballot state }
    ensures same { result.changed ≡ false → held.new ≡ held.old }
    ensures kept { (devices : ℕ) → IsHeld devices held.old → IsBallot ballot → IsStateOf devices state → IsHeld devices held.new }
{
    if held.index < state.index {
        return unchanged(Reply::Nothing);
    }
    if state.index < held.index {
        return unchanged(Reply::Decided);
    }
    if ballot.comes_before(&held.promise) {
        return unchanged(Reply::Refused);
    }
    held.promise = ballot;
    held.ballot = ballot;
    held.flag = 1;
    held.accepted = state;
    changed(Reply::Accepted)
}
