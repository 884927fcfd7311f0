//! The datagram of a turn.

ghost use Rattle.std.specs.Prelude.{◌≡◌, ◌+◌, ◌<◌, ◌≤◌, IsErrOf, OnOk};
ghost use Rattle.bx_base.specs.Faults.{Rose};
ghost use Rattle.bx_host.specs.Hearing.{Hears};
ghost use Rattle.bx_host.specs.Standing.{CanGo, most_events};
ghost use Rattle.bx_host.specs.Turns.{has_dead, has_live, is_live, is_open};
ghost use Rattle.bx_host.specs.declared.error.HostError.TheVariants.{Disk as DiskFault, Link as LinkFault};

use crate::error::HostError;
use crate::host::Host;
use bx_base::Actor;
use bx_cluster::Cluster;
use bx_disk::Rack;
use bx_global::GlobalState;
use bx_outside::Link;
use bx_world_events::{Event, Shows};
use std::alloc::Global;

/// Whether a session is dead.
fn has_dead(state: &GlobalState) -> bool
    ensures { result ≡ has_dead state.now }
{
    state.sessions.items().iter().any(|row| row.dead != 0)
}

/// Whether the node has a live session.
fn has_live(state: &GlobalState) -> bool
    ensures { result ≡ has_live state.now }
{
    let mut rows = state.sessions.items().iter();
    rows.any(|row| row.node == 0 && row.dead == 0)
}

/// Whether the node has a live session, in a term behind the first.
fn is_live(first: u64, state: &GlobalState) -> bool
    ensures { result ≡ is_live first state.now }
{
    state.term > first && has_live(state)
}

impl<C: Cluster> Host<C> {
    /// Whether the node has a live session, of a term behind the first.
    pub(crate) fn is_live(&self) -> bool
        ensures { result ≡ is_live self.now.first (C.seen self.now.cluster).most }
    {
        is_live(self.first, self.cluster.state())
    }

    /// Whether a datagram is received.
    fn is_open(&self) -> bool
        ensures { result ≡ is_open self.now.first (record { seen = C.seen self.now.cluster; left = self.now.left }) }
    {
        self.left > 0
            && !self.cluster.is_down(Actor::Node(0))
            && self.is_live()
            && !has_dead(self.cluster.state())
    }

    /// Receives at most one datagram, which the node hears, and does what is due then.
    pub(crate) fn hear<R: Rack, L: Link>(
        &mut self,
        alloc: Global,
        rack: &mut R,
        link: &mut L,
    ) -> Result<(), HostError>
        requires goes { CanGo C.seen C.room C.led R.Rack self.old rack.old }
        requires few { C.events self.old.cluster + 1 < most_events }
        ensures hears { Hears C.seen C.room C.led R.Rack L.Link result self.old rack.old self.new rack.new link.old link.new }
        ensures goes { OnOk result (CanGo C.seen C.room C.led R.Rack self.new rack.new) }
        ensures counted { OnOk result (C.events self.new.cluster ≤ C.events self.old.cluster + 1) }
        ensures cause { IsErrOf result DiskFault → Rose (R.faults rack.old) (R.faults rack.new) }
        ensures link_cause { IsErrOf result LinkFault → Rose (L.faults link.old) (L.faults link.new) }
    {
        if !self.is_open() {
            return Ok(());
        }
        let mut bytes = Vec::new(alloc);
        let Some(client) = link.receive(&mut bytes)? else {
            return Ok(());
        };
        let call = Event::Call {
            reading: self.reading,
            node: 0,
            client,
            bytes: bytes.as_slice(),
        };
        self.settle(alloc, rack, &call)
    }
}
