//! What a refusal says.

ghost use Rattle.std.specs.Prelude.{◌≡◌, None, Some, IfSome, MatchOption};
ghost use Rattle.bx_world_events.specs.Causes.{IsCause, IsFirst};
ghost use Rattle.bx_world_events.specs.Refusals.{Seen, refusal};
ghost use Rattle.bx_world_events.specs.declared.event.Event.{Event};
ghost use Rattle.bx_world_events.specs.declared.event.EventError.{EventError};

/// An event is refused exactly where a cause for it stands, and of all that stand the first is told.
pub fn first_cause_is_told()
    ensures told { (seen : Seen) (event : Event) (error : EventError) → refusal seen event ≡ Some error → IsFirst seen event error }
    ensures none { (seen : Seen) (event : Event) (error : EventError) → refusal seen event ≡ None → IsCause seen event error → ⊥ }
{}
