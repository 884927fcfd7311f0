//! The first state.

ghost use Rattle.std.specs.Prelude.{◌+◌, ◌^◌, ◌<◌, IfSome};
ghost use Rattle.bx_global.specs.Allowed.{IsAllowed};

use bx_global::GlobalState;
use std::alloc::Global;

/// A state with a device and no session, as another model writes it. Its index stands in front.
pub(crate) const STATE: [u8; 80] = [
    0, 0, 0, 0, 0, 0, 0, 1, 0, 0, 0, 0, 0, 0, 0, 0, 0, 0, 0, 0, 0, 0, 0, 0, 0, 0, 0, 1, 0, 0, 0, 0,
    0, 0, 0, 0, 0, 0, 0, 0, 0, 0, 0, 1, 0, 0, 0, 0, 0, 0, 0, 1, 0, 0, 0, 0, 0, 0, 0, 0, 0, 0, 0, 1,
    0, 0, 0, 0, 0, 0, 0, 0, 0, 0, 0, 0, 0, 0, 0, 0,
];

/// That state, if memory doesn't run out.
pub(crate) fn first_state(alloc: Global) -> Option<GlobalState>
    ensures state { IfSome result IsAllowed }
    ensures index { IfSome result (λ state. state.index + 1 < 2 ^ 64) }
{
    let state = match GlobalState::read(alloc, &STATE) {
        Ok(found) => found?,
        Err(_) => return None,
    };
    if state.index == u64::MAX {
        return None;
    }
    Some(state)
}
