//! The calls that wait at a node.

ghost use Rattle.std.specs.Prelude.{◌≡◌, option_map, true, false};
ghost use Rattle.bx_node_steps.specs.Calls.{CallOf, WaitsAt, call_written};
ghost use Rattle.bx_node_steps.specs.Tidying.{has_work};

use crate::machine::{Machine, Pending, Stage};
use bx_base::CallNo;

impl Machine {
    /// Whether a call waits.
    pub fn has_calls(&self) -> bool
        ensures some { result ≡ true → (call : CallOf) × WaitsAt self.now call }
        ensures none { result ≡ false → (call : CallOf) → WaitsAt self.now call → ⊥ }
    {
        !self.calls.is_empty() || self.written().is_some()
    }

    /// Whether something is left to do: a call is to be attempted, the log doesn't rest, or a tidy is under way.
    pub fn has_work(&self) -> bool
        ensures { result ≡ has_work self.now }
    {
        !self.calls.is_empty() || !matches!(self.stage, Stage::Idle) || self.is_tidying()
    }

    /// The number of the call whose record is written.
    pub fn written(&self) -> Option<CallNo>
        ensures { result ≡ option_map (λ call. call.number) (call_written self.now.stage) }
    {
        match &self.stage {
            Stage::Records(
                Pending {
                    call: Some((call, _)),
                    ..
                },
            ) => Some(call.number),
            _ => None,
        }
    }
}
