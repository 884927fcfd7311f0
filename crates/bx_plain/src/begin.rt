//! The state that the one-machine forms are made with.

ghost use Rattle.std.specs.Prelude.{◌≡◌, ◌≤◌, IfOk};
ghost use Rattle.bx_global.specs.Allowed.{IsAllowed};
ghost use Rattle.bx_facts.specs.Chains.{IsAboveBoots};
ghost use Rattle.bx_plain.specs.Begin.{plain_state};
ghost use Rattle.bx_plain.specs.Fits.{IsPlainState};

use bx_base::OutOfMemory;
use bx_global::GlobalState;
use bx_global_laws::{opening, sessions_until};
use std::alloc::Global;

/// When sessions and the term end, in milliseconds.
const NEVER: u64 = 4_294_967_295_999;

/// The opening state of this many nodes, at most 4, and devices, 1 to 4, but for its sessions and its term, which don't end.
pub fn endless(alloc: Global, nodes: u32, devices: u32) -> Result<GlobalState, OutOfMemory>
    requires few { nodes ≤ 4 }
    requires least { 1 ≤ devices }
    requires most { devices ≤ 4 }
    ensures state { IfOk result (λ state. state ≡ plain_state nodes devices) }
    ensures allowed { IfOk result IsAllowed }
    ensures plain { IfOk result (IsPlainState nodes) }
    ensures boots { IfOk result (λ state. IsAboveBoots state 1) }
{
    let first = opening(alloc, nodes, devices)?;
    Ok(GlobalState {
        term_end: NEVER,
        sessions: sessions_until(alloc, nodes, NEVER)?,
        ..first
    })
}
