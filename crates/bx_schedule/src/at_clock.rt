//! What a cluster shows, where the greatest reading is that of the lines so far.

use bx_base::Actor;
use bx_global::GlobalState;
use bx_post::Packet;
use bx_world_events::{ClockRule, Shows};

/// A cluster, and the greatest reading of all lines so far.
#[derive(Drop)]
pub(crate) struct AtClock<'a, C> {
    /// The cluster.
    pub(crate) cluster: &'a C,
    /// The rule for clocks, with that reading.
    pub(crate) clock: ClockRule,
}

impl<C: Shows> Shows for AtClock<'_, C> {
    ghost use Rattle.bx_schedule.specs.Refusing.{at_clock};

    ghost seen = { λ at. at_clock at.clock (C.seen at.cluster.now) };

    fn nodes(&self) -> u32 {
        self.cluster.nodes()
    }

    fn devices(&self) -> u32 {
        self.cluster.devices()
    }

    fn clock(&self) -> ClockRule {
        self.clock
    }

    fn packet(&self, number: u64) -> Option<&Packet> {
        self.cluster.packet(number)
    }

    fn is_down(&self, who: Actor) -> bool {
        self.cluster.is_down(who)
    }

    fn waiting(&self, who: Actor) -> bool {
        self.cluster.waiting(who)
    }

    fn state(&self) -> &GlobalState {
        self.cluster.state()
    }
}
