//! Rounds that begin: a change that is proposed, a refusal, a tick.

ghost use Rattle.std.specs.Prelude.{◌≡◌, ◌+◌, ◌^◌, ◌<◌, ◌↔◌, None, IsSome, IfOk, IsErrOf, OnErr, IsTrue};
ghost use Rattle.bx_facts.specs.declared.input.ProposeError.TheVariants.{NotLegal, Busy};
ghost use Rattle.bx_global.specs.Allowed.{IsChange};
ghost use Rattle.bx_global.specs.Table.{IsLegal};
ghost use Rattle.bx_rounds.specs.Steps.{HasRound, HearsRefusal, IsLate, IsOvertaken, Proposes, Ticks, fresh, preparing};

use crate::course::{Course, Move, Proposal};
use bx_facts::ProposeError;
use bx_global::{Ballot, Change, GlobalState};
use std::alloc::Global;

/// How often refusals have a proposal prepared anew between two ticks.
const TRIES: u32 = 8;

/// How long a proposal is out before a tick has it prepared anew, in milliseconds.
const PATIENCE: u64 = 1_000;

/// Proposes a change. `NotLegal` exactly where it isn't legal on what the machine knows; else `Busy` exactly where a proposal is out.
pub fn propose(
    alloc: Global,
    me: u32,
    course: &mut Course,
    change: &Change,
) -> Result<Move, ProposeError>
    ensures ok { IfOk result (λ move. IsLegal course.old.known change.now × (course.old.out ≡ None) × Proposes me course.old change.now course.new move) }
    ensures numbers { IsChange change.now }
    ensures not_legal { IsErrOf result NotLegal → IsLegal course.old.known change.now → ⊥ }
    ensures busy { IsErrOf result Busy → IsLegal course.old.known change.now × IsSome course.old.out }
    ensures err { OnErr result (course.new ≡ course.old) }
{
    let Some(own) = course.known.changed(alloc, change)? else {
        return Err(ProposeError::NotLegal);
    };
    if course.out.is_some() {
        return Err(ProposeError::Busy);
    }
    let proposal = fresh(own, course.reading);
    if course.seen == u64::MAX {
        course.out = Some(proposal);
        return Ok(Move::Nothing);
    }
    prepare(me, course, proposal);
    Ok(Move::Prepare)
}

/// A proposal that nothing was done for yet.
fn fresh(own: GlobalState, reading: u64) -> Proposal
    ensures { result ≡ fresh own reading }
{
    Proposal {
        own,
        since: reading,
        tries: 0,
        ballot: None,
        promise: None,
        sent: None,
        accepted: None,
    }
}

/// Takes a refusal of this index, for a ballot.
pub(crate) fn hear_refusal(me: u32, course: &mut Course, index: u64, ballot: &Ballot) -> Move
    ensures { HearsRefusal me course.old index ballot.now course.new result }
{
    course.seen = course.seen.max(ballot.round);
    let Some(mut proposal) = course.out.take() else {
        return Move::Nothing;
    };
    if is_overtaken(course, &proposal, index, ballot) {
        proposal.tries += 1;
        prepare(me, course, proposal);
        return Move::Prepare;
    }
    course.out = Some(proposal);
    Move::Nothing
}

/// Whether a refusal has a proposal prepared anew.
fn is_overtaken(course: &Course, proposal: &Proposal, index: u64, ballot: &Ballot) -> bool
    ensures { IsTrue result ↔ IsOvertaken proposal.now course.now index ballot.now }
{
    let Some(mine) = proposal.ballot else {
        return false;
    };
    proposal.own.index == index
        && mine.comes_before(ballot)
        && proposal.tries < TRIES
        && course.seen < u64::MAX
}

/// Takes a tick.
pub(crate) fn tick(me: u32, course: &mut Course) -> Move
    ensures { Ticks me course.old course.new result }
{
    let Some(mut proposal) = course.out.take() else {
        return Move::Nothing;
    };
    proposal.tries = 0;
    if is_late(course, &proposal) {
        prepare(me, course, proposal);
        return Move::Prepare;
    }
    course.out = Some(proposal);
    Move::Nothing
}

/// Whether a proposal is out for too long, and a round is left.
fn is_late(course: &Course, proposal: &Proposal) -> bool
    ensures { IsTrue result ↔ IsLate proposal.now course.now }
{
    course.reading > proposal.since
        && course.reading - proposal.since > PATIENCE
        && course.seen < u64::MAX
}

/// Begins a round for a proposal: its number is one above the greatest that was seen.
fn prepare(me: u32, course: &mut Course, proposal: Proposal)
    requires { HasRound course.old }
    ensures { course.new ≡ preparing me proposal course.old }
{
    course.seen += 1;
    let Proposal {
        own,
        since,
        tries,
        ..
    } = proposal;
    course.out = Some(Proposal {
        own,
        since,
        tries,
        ballot: Some(Ballot {
            round: course.seen,
            actor: me,
            boot: course.boot,
        }),
        promise: None,
        sent: None,
        accepted: None,
    });
}
