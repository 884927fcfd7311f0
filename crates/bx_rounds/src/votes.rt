//! Promises and acceptances, which are counted by replica.

ghost use Rattle.std.specs.Prelude.{◌≡◌, ℕ, None, IsSome, IsSomeAnd, IfOk, OnErr};
ghost use Rattle.bx_agreement.specs.Passing.{promised_by};
ghost use Rattle.bx_agreement.specs.Sound.{Picks};
ghost use Rattle.bx_rounds.specs.Courses.{GivesUp};
ghost use Rattle.bx_rounds.specs.Steps.{Gathers, HearsPromise, HearsVote, SendsPicked, learned};
ghost use Rattle.bx_rounds.specs.declared.course.Move.TheVariants.{Accept as Accepts, Decided as Decides};
ghost use Rattle.bx_rounds.specs.Turns.{PromiseTurn, VoteTurn};

use crate::course::{Course, Move, Proposal, Vouched};
use bx_base::OutOfMemory;
use bx_global::{Ballot, GlobalState};
use bx_packets::Promise;
use std::alloc::Global;

/// What a promise or an acceptance is for a proposal.
#[derive(Clone, Copy)]
pub(crate) enum Turn {
    /// It counts for nothing, or its replica was counted before.
    Passed,
    /// It is the first.
    First,
    /// It is the second, of another replica.
    Second,
}

/// Takes a promise of a replica.
pub(crate) fn hear_promise(
    alloc: Global,
    course: &mut Course,
    replica: u32,
    promise: Promise,
) -> Result<Move, OutOfMemory>
    ensures hears { IfOk result (λ move. HearsPromise course.old replica promise course.new move) }
    ensures err { OnErr result (GivesUp course.old course.new) }
{
    course.seen = course.seen.max(promise.ballot.round);
    course.seen = course.seen.max(promise.accepted.round);
    let Some(mut proposal) = course.out.take() else {
        return Ok(Move::Nothing);
    };
    let gathered = gather(alloc, &mut proposal, replica, promise)?;
    course.out = Some(proposal);
    Ok(gathered)
}

/// Counts a promise for a proposal. With the second one it has a state sent.
fn gather(
    alloc: Global,
    proposal: &mut Proposal,
    replica: u32,
    promise: Promise,
) -> Result<Move, OutOfMemory>
    ensures { IfOk result (λ move. Gathers proposal.old replica promise proposal.new move) }
{
    match promise_turn(proposal, replica, &promise) {
        Turn::Passed => Ok(Move::Nothing),
        Turn::First => {
            proposal.promise = Some(Vouched { replica, promise });
            Ok(Move::Nothing)
        }
        Turn::Second => send(alloc, proposal, &promise),
    }
}

/// Has the state sent that the first promise and this one allow.
fn send(alloc: Global, proposal: &mut Proposal, promise: &Promise) -> Result<Move, OutOfMemory>
    requires { IsSome proposal.old.promise }
    ensures { IfOk result (λ move. (n : ℕ) → SendsPicked proposal.old n promise.now proposal.new × (move ≡ Accepts)) }
{
    let Some(first) = &proposal.promise else {
        return Ok(Move::Nothing);
    };
    let state = pick(alloc, &proposal.own, &first.promise, promise)?;
    proposal.sent = Some(state);
    Ok(Move::Accept)
}

/// What a promise is for a proposal.
fn promise_turn(proposal: &Proposal, replica: u32, promise: &Promise) -> Turn
    ensures { PromiseTurn proposal.now replica promise.now result }
{
    if proposal.ballot != Some(promise.ballot)
        || proposal.own.index != promise.index
        || proposal.sent.is_some()
    {
        return Turn::Passed;
    }
    if promise.flag == 1 && promise.state.index != promise.index {
        return Turn::Passed;
    }
    match &proposal.promise {
        None => Turn::First,
        Some(first) if first.replica == replica => Turn::Passed,
        Some(_) => Turn::Second,
    }
}

/// The state that two promises allow: the one that was accepted in the higher ballot, or the proposal's own.
fn pick(
    alloc: Global,
    own: &GlobalState,
    first: &Promise,
    second: &Promise,
) -> Result<GlobalState, OutOfMemory>
    ensures { (n m : ℕ) → IfOk result (Picks (promised_by n first.now) (promised_by m second.now) own.now) }
{
    let (one, other) = (first.flag == 1, second.flag == 1);
    if one && !(other && first.accepted.comes_before(&second.accepted)) {
        return first.state.copy(alloc);
    }
    if other {
        return second.state.copy(alloc);
    }
    own.copy(alloc)
}

/// Takes an acceptance of a replica.
pub(crate) fn hear_vote(course: &mut Course, replica: u32, ballot: &Ballot, index: u64) -> Move
    ensures { HearsVote course.old replica ballot.now index course.new result }
{
    course.seen = course.seen.max(ballot.round);
    let Some(mut proposal) = course.out.take() else {
        return Move::Nothing;
    };
    match vote_turn(&proposal, replica, ballot, index) {
        Turn::Passed => {}
        Turn::First => proposal.accepted = Some(replica),
        Turn::Second => return decide(course, proposal),
    }
    course.out = Some(proposal);
    Move::Nothing
}

/// What an acceptance is for a proposal.
fn vote_turn(proposal: &Proposal, replica: u32, ballot: &Ballot, index: u64) -> Turn
    ensures { VoteTurn proposal.now replica ballot.now index result }
{
    if proposal.ballot != Some(*ballot) || proposal.own.index != index || proposal.sent.is_none() {
        return Turn::Passed;
    }
    match proposal.accepted {
        None => Turn::First,
        Some(first) if first == replica => Turn::Passed,
        Some(_) => Turn::Second,
    }
}

/// The state that was sent is known, and nothing is out.
fn decide(course: &mut Course, proposal: Proposal) -> Move
    requires sent { IsSome proposal.sent }
    requires out { course.old.out ≡ None }
    ensures known { IsSomeAnd proposal.sent (λ s. course.new ≡ learned s course.old) }
    ensures decided { result ≡ Decides }
{
    let Proposal { sent, .. } = proposal;
    if let Some(state) = sent {
        course.known = state;
    }
    Move::Decided
}
