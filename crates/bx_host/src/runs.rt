//! What is due in a turn, and ticks with all that is due behind them.

ghost use Rattle.std.specs.Prelude.{◌≡◌, [], ◌+◌, ◌<◌, IfSome, IsErrOf, None, OnOk};
ghost use Rattle.std.specs.FinSet as set;
ghost use Rattle.bx_base.specs.Faults.{Rose};
ghost use Rattle.bx_cluster.specs.Steps.{Counted};
ghost use Rattle.bx_driver.specs.Machines.{HasDiskNumbers};
ghost use Rattle.bx_world_events.specs.Causes.{IsThere};
ghost use Rattle.bx_world_events.specs.Refusals.{clock_back, refusal};
ghost use Rattle.bx_host.specs.Standing.{CanGo, Goes, IsNow, most_events};
ghost use Rattle.bx_host.specs.Steps.{brought_in};
ghost use Rattle.bx_host.specs.Turns.{IsDueNow, IsOver, IsRun, IsSettled, IsTicked};
ghost use Rattle.bx_host.specs.declared.error.HostError.TheVariants.{Disk as DiskFault};

use crate::error::HostError;
use crate::host::Host;
use bx_base::Actor;
use bx_cluster::Cluster;
use bx_disk::Rack;
use bx_driver::{Held, due};
use bx_world_events::{Event, Shows};
use std::alloc::Global;

impl<C: Cluster> Host<C> {
    /// What is due, where the turn has an event left; `None` exactly where nothing is due, or it has none.
    fn due_now(&self, none: &Held) -> Option<Event<'static>>
        requires disks { HasDiskNumbers (C.seen self.now.cluster) }
        requires none { none.now ≡ set.empty }
        ensures due { IfSome result (λ event. (0 < self.now.left) × IsDueNow self.now.reading (C.seen self.now.cluster) event) }
        ensures over { result ≡ None → IsOver self.now.reading (record { seen = C.seen self.now.cluster; left = self.now.left }) }
        ensures allowed { IfSome result (λ event. refusal (C.seen self.now.cluster) event ≡ clock_back (C.seen self.now.cluster) event) }
    {
        if self.left == 0 {
            return None;
        }
        due(&self.cluster, none, self.reading)
    }

    /// Does what is due until nothing is, or the turn has no event left.
    fn run<R: Rack>(&mut self, alloc: Global, rack: &mut R) -> Result<(), HostError>
        requires goes { CanGo C.seen C.room C.led R.Rack self.old rack.old }
        requires few { C.events self.old.cluster < most_events }
        ensures ends { Goes C.seen C.room C.led R.Rack result (IsRun self.old.reading) [] self.old rack.old self.new rack.new }
        ensures goes { OnOk result (CanGo C.seen C.room C.led R.Rack self.new rack.new) }
        ensures counted { OnOk result (C.events self.new.cluster ≡ C.events self.old.cluster) }
        ensures cause { IsErrOf result DiskFault → Rose (R.faults rack.old) (R.faults rack.new) }
    {
        let none = Held::new(alloc);
        while let Some(event) = self.due_now(&none) {
            self.act(alloc, rack, &event)?;
        }
        Ok(())
    }

    /// Does an event that isn't refused, and then what is due.
    pub(crate) fn settle<R: Rack>(
        &mut self,
        alloc: Global,
        rack: &mut R,
        event: &Event,
    ) -> Result<(), HostError>
        requires now { IsNow C.seen self.old event.now }
        requires few { C.events self.old.cluster + 1 < most_events }
        requires goes { CanGo C.seen C.room C.led R.Rack self.old rack.old }
        ensures ends { Goes C.seen C.room C.led R.Rack result (IsSettled (λ its. its ≡ event.now) self.old.reading) (brought_in event.now) self.old rack.old self.new rack.new }
        ensures goes { OnOk result (CanGo C.seen C.room C.led R.Rack self.new rack.new) }
        ensures counted { OnOk result (Counted event.now (C.events self.old.cluster) (C.events self.new.cluster)) }
        ensures cause { IsErrOf result DiskFault → Rose (R.faults rack.old) (R.faults rack.new) }
    {
        self.act(alloc, rack, event)?;
        self.run(alloc, rack)
    }

    /// A machine's clock ticks, and what is due then is done. One that is down is passed over.
    pub(crate) fn tick<R: Rack>(
        &mut self,
        alloc: Global,
        rack: &mut R,
        at: Actor,
    ) -> Result<(), HostError>
        requires goes { CanGo C.seen C.room C.led R.Rack self.old rack.old }
        requires few { C.events self.old.cluster + 1 < most_events }
        requires there { IsThere (C.seen self.old.cluster) at }
        ensures ends { Goes C.seen C.room C.led R.Rack result (IsTicked self.old.reading at) [] self.old rack.old self.new rack.new }
        ensures goes { OnOk result (CanGo C.seen C.room C.led R.Rack self.new rack.new) }
        ensures counted { OnOk result (C.events self.new.cluster ≡ C.events self.old.cluster) }
        ensures cause { IsErrOf result DiskFault → Rose (R.faults rack.old) (R.faults rack.new) }
    {
        if self.left == 0 {
            return Ok(());
        }
        if self.cluster.is_down(at) {
            return Ok(());
        }
        let tick = Event::Tick {
            reading: self.reading,
            at,
        };
        self.settle(alloc, rack, &tick)
    }
}
