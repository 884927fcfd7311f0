//! What a cluster shows of itself.

ghost use Rattle.std.specs.Prelude.{◌≡◌};
ghost use Rattle.std.specs.Option.{option_copied};
ghost use Rattle.bx_post.specs.Posts.{packet_from};
ghost use Rattle.bx_world_events.specs.Refusals.{Seen};

use bx_base::Actor;
use bx_global::GlobalState;
use bx_lease::ClockRule;
use bx_post::Packet;

/// What shows it all that an event is judged by. None of its calls takes memory.
pub trait Shows {
    /// All that it shows.
    ghost seen: { Self → Seen };

    /// How many nodes there are.
    fn nodes(&self) -> u32
        ensures { result ≡ (seen self.now).nodes };

    /// How many mirrored devices there are.
    fn devices(&self) -> u32
        ensures { result ≡ (seen self.now).devices };

    /// The rule for clocks, with the greatest reading so far.
    fn clock(&self) -> ClockRule
        ensures { result ≡ (seen self.now).greatest };

    /// The packet with a number; `None` exactly where no packet has it.
    fn packet(&self, number: u64) -> Option<&Packet>
        ensures { option_copied result ≡ packet_from 1 number (seen self.now).post };

    /// Whether a machine is down. One that isn't there is to be shown as down, so that no packet arrives at it.
    fn is_down(&self, who: Actor) -> bool
        ensures { result ≡ (seen self.now).down who };

    /// Whether a machine's disk has a write that waits for a sync.
    fn waiting(&self, who: Actor) -> bool
        ensures { result ≡ (seen self.now).waits who };

    /// The greatest state that any machine has known.
    fn state(&self) -> &GlobalState
        ensures { result.now ≡ (seen self.now).most };
}
