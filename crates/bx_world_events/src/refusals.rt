//! Whether an event is refused.

ghost use Rattle.std.specs.Prelude.{◌≡◌};
ghost use Rattle.bx_world_events.specs.Refusals.{refusal};

use crate::causes::{
    clock_back, is_down, is_up, no_machine, no_packet, nothing_to_sync, still_needed,
};
use crate::event::{Event, EventError};
use crate::shows::Shows;

/// Why an event is refused: the first cause in the order of the errors. `None` exactly where it isn't refused. It takes no memory.
pub fn refusal<S: Shows>(cluster: &S, event: &Event) -> Option<EventError>
    ensures { result ≡ refusal (S.seen cluster.now) event.now }
{
    no_machine(cluster, event)
        .or(clock_back(cluster, event))
        .or(no_packet(cluster, event))
        .or(is_up(cluster, event))
        .or(is_down(cluster, event))
        .or(nothing_to_sync(cluster, event))
        .or(still_needed(cluster, event))
}
