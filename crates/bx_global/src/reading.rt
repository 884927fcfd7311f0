//! Reading a state from bytes.

ghost use Rattle.std.specs.Prelude.{◌≡◌, ◌↔◌, IfOk, IfSome, IfNone, IsTrue, MatchResult};
ghost use Rattle.bx_rows.specs.bx_base.specs.Reading.{Gives};
ghost use Rattle.bx_global.specs.Bytes.{Spells};
ghost use Rattle.bx_global.specs.Reading.{Begins, IsSound, NoneBegins, heads_at, parts_at};
ghost use Rattle.bx_global.specs.declared.state.GlobalState.{GlobalState};

use crate::state::GlobalState;
use bx_rows::base::{OutOfMemory, ReadError, u64_at};
use bx_rows::{
    are_placed, are_rising, devices_of, have_modes, have_own_slots, pair_of, sessions_of,
};
use std::alloc::Global;

/// The six numbers of a state.
#[derive(Clone, Copy)]
pub(crate) struct Heads {
    pub(crate) index: u64,
    pub(crate) master: u32,
    pub(crate) master_boot: u64,
    pub(crate) term: u64,
    pub(crate) term_end: u64,
    pub(crate) next_session: u64,
}

impl GlobalState {
    /// The state that these bytes are. `None` exactly where they are no state.
    pub fn read(alloc: Global, bytes: &[u8]) -> Result<Option<GlobalState>, OutOfMemory>
        ensures some { IfOk result (λ found. IfSome found (λ state. Spells state bytes.now)) }
        ensures none { IfOk result (λ found. IfNone found ((state : GlobalState) → Spells state bytes.now → ⊥)) }
    {
        let (state, rest) = match state_of(alloc, bytes) {
            Ok(found) => found,
            Err(ReadError::Malformed) => return Ok(None),
            Err(ReadError::OutOfMemory) => return Err(OutOfMemory),
        };
        if !rest.is_empty() {
            return Ok(None);
        }
        Ok(Some(state))
    }
}

/// The state at the front, and the bytes behind it; `Malformed` exactly where no state stands there.
pub(crate) fn state_of(alloc: Global, bytes: &[u8]) -> Result<(GlobalState, &[u8]), ReadError>
    ensures { MatchResult result (λ x. Begins x.0 bytes.now x.1.now) (λ e. NoneBegins e bytes.now) }
{
    let (state, rest) = parts_of(alloc, bytes)?;
    if !is_sound(&state) {
        return Err(ReadError::Malformed);
    }
    Ok((state, rest))
}

/// Whether the numbers of a state that was read, which fit their fields, are such as a state has.
fn is_sound(state: &GlobalState) -> bool
    ensures { IsTrue result ↔ IsSound state.now }
{
    let sessions = state.sessions.items();
    state.master < 2
        && are_placed(sessions, state.term_end)
        && are_rising(sessions, state.next_session)
        && have_own_slots(sessions)
        && have_modes(state.devices.items())
}

/// The fields of a state at the front, and the bytes behind them.
#[tactic(auto, unfolding(crate::specs::Reading::parts_at))]
fn parts_of(alloc: Global, bytes: &[u8]) -> Result<(GlobalState, &[u8]), ReadError>
    ensures { Gives (λ x. (x.0, x.1.now)) result (parts_at bytes.now) }
{
    let (heads, rest) = heads_of(bytes)?;
    let (sessions, rest) = sessions_of(alloc, rest)?;
    let (devices, rest) = devices_of(alloc, rest)?;
    let state = GlobalState {
        index: heads.index,
        master: heads.master,
        master_boot: heads.master_boot,
        term: heads.term,
        term_end: heads.term_end,
        next_session: heads.next_session,
        sessions,
        devices,
    };
    Ok((state, rest))
}

/// The six numbers of a state at the front, and the bytes behind them.
#[tactic(auto, unfolding(crate::specs::Reading::heads_at))]
fn heads_of(bytes: &[u8]) -> Result<(Heads, &[u8]), ReadError>
    ensures { Gives (λ x. (x.0, x.1.now)) result (heads_at bytes.now) }
{
    let (index, rest) = u64_at(bytes)?;
    let ((master, master_boot), rest) = pair_of(rest)?;
    let (term, rest) = u64_at(rest)?;
    let (term_end, rest) = u64_at(rest)?;
    let (next_session, rest) = u64_at(rest)?;
    let heads = Heads {
        index,
        master,
        master_boot,
        term,
        term_end,
        next_session,
    };
    Ok((heads, rest))
}
