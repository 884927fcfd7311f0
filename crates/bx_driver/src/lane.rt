//! Lanes: what a line of a schedule holds, frees or drops.

ghost use Rattle.std.specs.Prelude.{◌≡◌, IfSome};
ghost use Rattle.bx_world_events.specs.declared.event.EventError.TheVariants.{NoSuchMachine};
ghost use Rattle.bx_driver.specs.Lanes.{HasMachines};

use bx_base::Actor;
use bx_world_events::{EventError, Shows, is_there};

/// The way of packets of one kind from one machine to another.
#[derive(Clone, Copy, PartialEq, Eq, PartialOrd, Ord)]
pub struct Lane {
    /// The sender.
    pub from: Actor,
    /// The receiver.
    pub to: Actor,
    /// The kind number.
    pub kind: u8,
}

/// Why a line that names a lane is refused: one of its machines isn't there. `None` exactly where both are. It takes no memory.
pub fn lane_refusal<C: Shows>(cluster: &C, lane: &Lane) -> Option<EventError>
    ensures refused { IfSome result (λ error. (error ≡ NoSuchMachine) × (HasMachines (C.seen cluster.now) lane.now → ⊥)) }
    ensures done { result ≡ None → HasMachines (C.seen cluster.now) lane.now }
{
    let there = is_there(cluster, lane.from) && is_there(cluster, lane.to);
    (!there).then_some(EventError::NoSuchMachine)
}
