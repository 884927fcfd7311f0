//! What an acceptor's cell holds, and its bytes.

ghost use Rattle.std.specs.Prelude.{◌≡◌, ◌++◌, ◌↔◌, IfOk, IfSome, IfNone, IsTrue, MatchResult, OnOk, length};
ghost use Rattle.bx_rows.specs.bx_base.specs.Reading.{Gives};
ghost use Rattle.bx_global.specs.Bytes.{HasCounts, SpellsHeld, held_text, marks_text};
ghost use Rattle.bx_global.specs.Reading.{NotHeld, marks_at};
ghost use Rattle.bx_global.specs.declared.held.Held.{Held};

use crate::reading::state_of;
use crate::state::GlobalState;
use crate::writing::push_state;
use bx_rows::base::{OutOfMemory, Raw, ReadError, push_u32, push_u64, u32_at, u64_at};
use bx_rows::{Ballot, ballot_of, push_ballot};
use std::alloc::Global;

/// What an acceptor's cell holds.
#[derive(Drop)]
pub struct Held {
    /// The index of the state that is voted on.
    pub index: u64,
    /// The ballot below which it takes part in nothing.
    pub promise: Ballot,
    /// The ballot in which it accepted a state.
    pub ballot: Ballot,
    /// 1 where it accepted a state of this index, else 0.
    pub flag: u32,
    /// The state that it accepted.
    pub accepted: GlobalState,
    /// The last state of which it knows that it was decided.
    pub decided: GlobalState,
}

/// What stands before the states.
#[derive(Clone, Copy)]
pub(crate) struct Marks {
    pub(crate) index: u64,
    pub(crate) promise: Ballot,
    pub(crate) ballot: Ballot,
    pub(crate) flag: u32,
}

impl Held {
    /// What these bytes are, on a volume of so many devices. `None` exactly where they aren't what a cell holds there.
    pub fn read(alloc: Global, bytes: &[u8], devices: u32) -> Result<Option<Held>, OutOfMemory>
        ensures some { IfOk result (λ found. IfSome found (λ held. SpellsHeld held bytes.now devices)) }
        ensures none { IfOk result (λ found. IfNone found ((held : Held) → SpellsHeld held bytes.now devices → ⊥)) }
    {
        match held_of(alloc, bytes, devices) {
            Ok(held) => Ok(Some(held)),
            Err(ReadError::Malformed) => Ok(None),
            Err(ReadError::OutOfMemory) => Err(OutOfMemory),
        }
    }

    /// The bytes.
    pub fn write(&self, alloc: Global) -> Result<Raw, OutOfMemory>
        requires accepted { HasCounts self.now.accepted }
        requires decided { HasCounts self.now.decided }
        ensures { IfOk result (λ raw. raw ≡ held_text self.now) }
    {
        let mut out = Vec::new(alloc);
        push_marks(&mut out, self)?;
        push_state(&mut out, &self.accepted)?;
        push_state(&mut out, &self.decided)?;
        Ok(Raw::from(out))
    }
}

/// Puts what stands before the states at the end.
fn push_marks(out: &mut Vec<u8>, held: &Held) -> Result<(), OutOfMemory>
    ensures { OnOk result (out.new.items ≡ out.old.items ++ marks_text held.now) }
{
    push_u64(out, held.index)?;
    push_ballot(out, &held.promise)?;
    push_ballot(out, &held.ballot)?;
    push_u32(out, held.flag)
}

/// What the bytes are; `Malformed` exactly where they aren't what a cell holds on a volume of so many devices.
fn held_of(alloc: Global, bytes: &[u8], devices: u32) -> Result<Held, ReadError>
    ensures { MatchResult result (λ held. SpellsHeld held bytes.now devices) (λ e. NotHeld e bytes.now devices) }
{
    let (marks, rest) = marks_of(bytes)?;
    let (accepted, rest) = state_of(alloc, rest)?;
    let (decided, rest) = state_of(alloc, rest)?;
    if !rest.is_empty() || !has_devices(&accepted, devices) || !has_devices(&decided, devices) {
        return Err(ReadError::Malformed);
    }
    Ok(Held {
        index: marks.index,
        promise: marks.promise,
        ballot: marks.ballot,
        flag: marks.flag,
        accepted,
        decided,
    })
}

/// What stands before the states, and the bytes behind it.
#[tactic(auto, unfolding(crate::specs::Reading::marks_at))]
fn marks_of(bytes: &[u8]) -> Result<(Marks, &[u8]), ReadError>
    ensures { Gives (λ x. (x.0, x.1.now)) result (marks_at bytes.now) }
{
    let (index, rest) = u64_at(bytes)?;
    let (promise, rest) = ballot_of(rest)?;
    let (ballot, rest) = ballot_of(rest)?;
    let (flag, rest) = u32_at(rest)?;
    if flag >= 2 {
        return Err(ReadError::Malformed);
    }
    let marks = Marks {
        index,
        promise,
        ballot,
        flag,
    };
    Ok((marks, rest))
}

/// Whether a state has so many devices.
fn has_devices(state: &GlobalState, devices: u32) -> bool
    ensures { IsTrue result ↔ (length state.now.devices ≡ devices) }
{
    state.devices.len() == devices as usize
}
