//! Parts of bodies, read from bytes.

ghost use Rattle.std.specs.Prelude.{◌≡◌, MatchResult};
ghost use Rattle.bx_base.specs.Reading.{Gives};
ghost use Rattle.bx_packets.specs.Reading.{NoPromise, NoProposal, NoRefusal, NoState, NoVote, SpellsPromise, SpellsProposal, SpellsRefusal, SpellsState, SpellsVote, marks_at, refusal_at, vote_at};

use crate::message::Promise;
use bx_base::{ReadError, all_of, u32_at, u64_at};
use bx_global::{Ballot, GlobalState};
use bx_rows::ballot_of;
use std::alloc::Global;

/// What stands before the state in a promise.
#[derive(Clone, Copy)]
pub(crate) struct Marks {
    pub(crate) ballot: Ballot,
    pub(crate) index: u64,
    pub(crate) flag: u32,
    pub(crate) accepted: Ballot,
}

/// The state that the bytes are, of so many devices.
pub(crate) fn state_in(alloc: Global, bytes: &[u8], devices: u32) -> Result<GlobalState, ReadError>
    ensures { MatchResult result (λ state. SpellsState devices state bytes.now) (λ e. NoState e devices bytes.now) }
{
    let Some(state) = GlobalState::read(alloc, bytes)? else {
        return Err(ReadError::Malformed);
    };
    if state.devices.len() != devices as usize {
        return Err(ReadError::Malformed);
    }
    Ok(state)
}

/// The ballot and the state that the bytes are.
pub(crate) fn proposal_in(
    alloc: Global,
    bytes: &[u8],
    devices: u32,
) -> Result<(Ballot, GlobalState), ReadError>
    ensures { MatchResult result (λ x. SpellsProposal devices x.0 x.1 bytes.now) (λ e. NoProposal e devices bytes.now) }
{
    let (ballot, rest) = ballot_of(bytes)?;
    let state = state_in(alloc, rest, devices)?;
    Ok((ballot, state))
}

/// The promise that the bytes are.
pub(crate) fn promise_in(alloc: Global, bytes: &[u8], devices: u32) -> Result<Promise, ReadError>
    ensures { MatchResult result (λ promise. SpellsPromise devices promise bytes.now) (λ e. NoPromise e devices bytes.now) }
{
    let (marks, rest) = marks_of(bytes)?;
    let state = state_in(alloc, rest, devices)?;
    Ok(Promise {
        ballot: marks.ballot,
        index: marks.index,
        flag: marks.flag,
        accepted: marks.accepted,
        state,
    })
}

/// What stands before the state in a promise, and the bytes behind it.
#[tactic(auto, unfolding(crate::specs::Reading::marks_at))]
fn marks_of(bytes: &[u8]) -> Result<(Marks, &[u8]), ReadError>
    ensures { Gives (λ x. (x.0, x.1.now)) result (marks_at bytes.now) }
{
    let (ballot, rest) = ballot_of(bytes)?;
    let (index, rest) = u64_at(rest)?;
    let (flag, rest) = u32_at(rest)?;
    let (accepted, rest) = ballot_of(rest)?;
    if flag >= 2 {
        return Err(ReadError::Malformed);
    }
    let marks = Marks {
        ballot,
        index,
        flag,
        accepted,
    };
    Ok((marks, rest))
}

/// The ballot and the index that the bytes are.
pub(crate) fn vote_in(bytes: &[u8]) -> Result<(Ballot, u64), ReadError>
    ensures { MatchResult result (λ x. SpellsVote x.0 x.1 bytes.now) (λ e. NoVote e bytes.now) }
{
    all_of(vote_of(bytes)?)
}

/// A ballot and an index at the front, and the bytes behind them.
#[tactic(auto, unfolding(crate::specs::Reading::vote_at))]
fn vote_of(bytes: &[u8]) -> Result<((Ballot, u64), &[u8]), ReadError>
    ensures { Gives (λ x. (x.0, x.1.now)) result (vote_at bytes.now) }
{
    let (ballot, rest) = ballot_of(bytes)?;
    let (index, rest) = u64_at(rest)?;
    Ok(((ballot, index), rest))
}

/// The index and the ballot that the bytes are.
pub(crate) fn refusal_in(bytes: &[u8]) -> Result<(u64, Ballot), ReadError>
    ensures { MatchResult result (λ x. SpellsRefusal x.0 x.1 bytes.now) (λ e. NoRefusal e bytes.now) }
{
    all_of(refusal_of(bytes)?)
}

/// An index and a ballot at the front, and the bytes behind them.
#[tactic(auto, unfolding(crate::specs::Reading::refusal_at))]
fn refusal_of(bytes: &[u8]) -> Result<((u64, Ballot), &[u8]), ReadError>
    ensures { Gives (λ x. (x.0, x.1.now)) result (refusal_at bytes.now) }
{
    let (index, rest) = u64_at(bytes)?;
    let (ballot, rest) = ballot_of(rest)?;
    Ok(((index, ballot), rest))
}
