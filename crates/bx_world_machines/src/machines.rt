//! The machines.

ghost use Rattle.std.specs.Prelude.{◌≡◌, not, OnOk};
ghost use Rattle.bx_facts.specs.Machines.{IsMachine};
ghost use Rattle.bx_facts.specs.Machines.{IsMachine};
ghost use Rattle.bx_world_machines.specs.Machines.{greater, is_up};

use crate::up::is_among;
use bx_base::{Actor, CallNo, OutOfMemory};
use bx_facts::{Owners, Register, Store};
use bx_global::GlobalState;
use bx_node_calls::nodes::Nodes;
use bx_views::Engine;
use bx_world_events::ClockRule;
use std::alloc::Global;

/// All machines of a cluster. It is data: whoever has the packets and the disks says what a machine hears.
#[derive(Drop)]
pub struct Machines<G: Register, O: Owners, S: Store, E: Engine> {
    pub(crate) alloc: Global,
    /// The nodes, and the parts of all machines under them.
    pub(crate) nodes: Nodes<G, O, S, E>,
    /// The machines that are up.
    pub(crate) up: Vec<Actor>,
    /// The greatest reading of a clock.
    pub(crate) clock: ClockRule,
    /// The greatest boot of a machine.
    pub(crate) boots: u64,
    /// The greatest state that a machine has known.
    pub(crate) state: GlobalState,
    /// How many nodes there are.
    pub(crate) count: u32,
    /// How many devices there are.
    pub(crate) devices: u32,
    /// The greatest number of a call that came, 0 where none did.
    pub(crate) latest: CallNo,
}

impl<G: Register, O: Owners, S: Store, E: Engine> Machines<G, O, S, E> {
    /// How many nodes there are.
    pub fn nodes(&self) -> u32
        ensures { result ≡ self.now.count }
    {
        self.count
    }

    /// How many devices there are.
    pub fn devices(&self) -> u32
        ensures { result ≡ self.now.devices }
    {
        self.devices
    }

    /// The rule for clocks, with the greatest reading so far.
    pub fn clock(&self) -> ClockRule
        ensures { result ≡ self.now.clock }
    {
        self.clock
    }

    /// Whether a machine is down. One that isn't there is.
    pub fn is_down(&self, who: Actor) -> bool
        ensures { result ≡ not (is_up self.now.up.items who) }
    {
        !is_among(&self.up, who)
    }

    /// Whether a machine's disk has a write that waits for a sync.
    pub fn waiting(&self, who: Actor) -> bool
        ensures { result ≡ S.owes self.now.nodes.store who }
    {
        self.nodes.waiting(who)
    }

    /// The state that a machine knows.
    pub fn known(&self, who: Actor) -> &GlobalState
        requires { IsMachine (G.nodes self.now.nodes.register) who }
        ensures { result.now ≡ G.knows self.now.nodes.register who }
    {
        self.nodes.known(who)
    }

    /// The greatest state that a machine has known.
    pub fn state(&self) -> &GlobalState
        ensures { result.now ≡ self.now.state }
    {
        &self.state
    }

    /// The greatest number of a call that came, 0 where none did.
    pub fn latest(&self) -> CallNo
        ensures { result ≡ self.now.latest }
    {
        self.latest
    }

    /// Keeps the state that a machine knows, where it is greater than all that were known.
    pub(crate) fn learn(&mut self, who: Actor) -> Result<(), OutOfMemory>
        requires there { IsMachine (G.nodes self.old.nodes.register) who }
        ensures state { OnOk result (self.new.state ≡ greater self.old.state (G.knows self.old.nodes.register who)) }
        ensures same { self.new ≡ record self.old { state = self.new.state } }
    {
        let known = self.nodes.known(who);
        if self.state.index < known.index {
            self.state = known.copy(self.alloc)?;
        }
        Ok(())
    }
}
