//! The ticks of a turn.

ghost use Rattle.std.specs.Prelude.{◌≡◌, [], ◌+◌, ◌*◌, ◌<◌, IsErrOf, OnOk};
ghost use Rattle.bx_base.specs.Faults.{Rose};
ghost use Rattle.bx_base.specs.declared.names.Actor.TheVariants.{Member, Server};
ghost use Rattle.bx_host.specs.Standing.{CanGo, Goes, most_events};
ghost use Rattle.bx_host.specs.Turns.{AllTicked, AreMembersTicked, AreTicked, IsNodeTicked};
ghost use Rattle.bx_host.specs.declared.error.HostError.TheVariants.{Disk as DiskFault};

use crate::error::HostError;
use crate::host::Host;
use bx_base::Actor;
use bx_cluster::Cluster;
use bx_disk::Rack;
use bx_world_events::{SERVERS, Shows};
use std::alloc::Global;

impl<C: Cluster> Host<C> {
    /// The clocks of lock servers tick, then those of members, and then the node's, once the term is above the first.
    pub(crate) fn tick_all<R: Rack>(&mut self, alloc: Global, rack: &mut R) -> Result<(), HostError>
        requires goes { CanGo C.seen C.room C.led R.Rack self.old rack.old }
        requires few { C.events self.old.cluster + 1 < most_events }
        ensures ends { Goes C.seen C.room C.led R.Rack result (AllTicked self.old.first self.old.reading) [] self.old rack.old self.new rack.new }
        ensures goes { OnOk result (CanGo C.seen C.room C.led R.Rack self.new rack.new) }
        ensures counted { OnOk result (C.events self.new.cluster ≡ C.events self.old.cluster) }
        ensures cause { IsErrOf result DiskFault → Rose (R.faults rack.old) (R.faults rack.new) }
    {
        self.tick_servers(alloc, rack)?;
        self.tick_members(alloc, rack)?;
        self.tick_node(alloc, rack)
    }

    fn tick_servers<R: Rack>(&mut self, alloc: Global, rack: &mut R) -> Result<(), HostError>
        requires goes { CanGo C.seen C.room C.led R.Rack self.old rack.old }
        requires few { C.events self.old.cluster + 1 < most_events }
        ensures ends { Goes C.seen C.room C.led R.Rack result (AreTicked Server self.old.reading 2) [] self.old rack.old self.new rack.new }
        ensures goes { OnOk result (CanGo C.seen C.room C.led R.Rack self.new rack.new) }
        ensures counted { OnOk result (C.events self.new.cluster ≡ C.events self.old.cluster) }
        ensures cause { IsErrOf result DiskFault → Rose (R.faults rack.old) (R.faults rack.new) }
    {
        for server in 0..SERVERS {
            self.tick(alloc, rack, Actor::Server(server))?;
        }
        Ok(())
    }

    fn tick_members<R: Rack>(&mut self, alloc: Global, rack: &mut R) -> Result<(), HostError>
        requires goes { CanGo C.seen C.room C.led R.Rack self.old rack.old }
        requires few { C.events self.old.cluster + 1 < most_events }
        ensures ends { Goes C.seen C.room C.led R.Rack result (AreMembersTicked self.old.reading) [] self.old rack.old self.new rack.new }
        ensures goes { OnOk result (CanGo C.seen C.room C.led R.Rack self.new rack.new) }
        ensures counted { OnOk result (C.events self.new.cluster ≡ C.events self.old.cluster) }
        ensures cause { IsErrOf result DiskFault → Rose (R.faults rack.old) (R.faults rack.new) }
    {
        for member in 0..2 * self.cluster.devices() {
            self.tick(alloc, rack, Actor::Member(member))?;
        }
        Ok(())
    }

    fn tick_node<R: Rack>(&mut self, alloc: Global, rack: &mut R) -> Result<(), HostError>
        requires goes { CanGo C.seen C.room C.led R.Rack self.old rack.old }
        requires few { C.events self.old.cluster + 1 < most_events }
        ensures ends { Goes C.seen C.room C.led R.Rack result (IsNodeTicked self.old.first self.old.reading) [] self.old rack.old self.new rack.new }
        ensures goes { OnOk result (CanGo C.seen C.room C.led R.Rack self.new rack.new) }
        ensures counted { OnOk result (C.events self.new.cluster ≡ C.events self.old.cluster) }
        ensures cause { IsErrOf result DiskFault → Rose (R.faults rack.old) (R.faults rack.new) }
    {
        if self.cluster.state().term <= self.first {
            return Ok(());
        }
        self.tick(alloc, rack, Actor::Node(0))
    }
}
