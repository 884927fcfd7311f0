//! What the world shows of itself.

ghost use Rattle.std.specs.Prelude.{◌≡◌};
ghost use Rattle.bx_facts.specs.Machines.{IsMachine};

use crate::world::World;
use bx_base::Actor;
use bx_facts::{Owners, Packet, Register, Store};
use bx_global::GlobalState;
use bx_views::Engine;
use bx_world_events::{ClockRule, Shows};

impl<G: Register, O: Owners, S: Store, E: Engine> Shows for World<G, O, S, E> {
    ghost use Rattle.bx_world.specs.World.{seen};

    ghost seen = { λ world. seen S.Store world };

    fn nodes(&self) -> u32 {
        self.machines.nodes()
    }

    fn devices(&self) -> u32 {
        self.machines.devices()
    }

    fn clock(&self) -> ClockRule {
        self.machines.clock()
    }

    fn packet(&self, number: u64) -> Option<&Packet> {
        self.post.packet(number)
    }

    fn is_down(&self, who: Actor) -> bool {
        self.machines.is_down(who)
    }

    fn waiting(&self, who: Actor) -> bool {
        self.machines.waiting(who)
    }

    fn state(&self) -> &GlobalState {
        self.machines.state()
    }
}

impl<G: Register, O: Owners, S: Store, E: Engine> World<G, O, S, E> {
    /// The state that a machine of the cluster knows, up or down. It takes no memory.
    pub fn known(&self, who: Actor) -> &GlobalState
        requires { IsMachine (G.nodes self.now.machines.nodes.register) who }
        ensures { result.now ≡ G.knows self.now.machines.nodes.register who }
    {
        self.machines.known(who)
    }
}
