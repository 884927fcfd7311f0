//! Writing a state as bytes.

ghost use Rattle.std.specs.Prelude.{◌≡◌, ◌++◌, IfOk, OnOk};
ghost use Rattle.bx_global.specs.Bytes.{HasCounts, heads_text, state_text};

use crate::state::GlobalState;
use bx_rows::base::{OutOfMemory, Raw, push_u64};
use bx_rows::{push_devices, push_pair, push_sessions};
use std::alloc::Global;

impl GlobalState {
    /// The bytes.
    pub fn write(&self, alloc: Global) -> Result<Raw, OutOfMemory>
        requires { HasCounts self.now }
        ensures { IfOk result (λ raw. raw ≡ state_text self.now) }
    {
        let mut out = Vec::new(alloc);
        push_state(&mut out, self)?;
        Ok(Raw::from(out))
    }
}

/// Puts a state at the end.
pub(crate) fn push_state(out: &mut Vec<u8>, state: &GlobalState) -> Result<(), OutOfMemory>
    requires { HasCounts state.now }
    ensures { OnOk result (out.new.items ≡ out.old.items ++ state_text state.now) }
{
    push_heads(out, state)?;
    push_sessions(out, state.sessions.items())?;
    push_devices(out, state.devices.items())
}

/// Puts the six numbers of a state at the end.
fn push_heads(out: &mut Vec<u8>, state: &GlobalState) -> Result<(), OutOfMemory>
    ensures { OnOk result (out.new.items ≡ out.old.items ++ heads_text state.now) }
{
    push_u64(out, state.index)?;
    push_pair(out, state.master, state.master_boot)?;
    push_u64(out, state.term)?;
    push_u64(out, state.term_end)?;
    push_u64(out, state.next_session)
}
