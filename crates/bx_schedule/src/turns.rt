//! All machines crash, or start again.

ghost use Rattle.std.specs.Prelude.{◌≡◌, ◌+◌, ◌<◌, ◌≤◌, IfErr, OnOk, None, length, reverse, true};
ghost use Rattle.std.specs.List.{All};
ghost use Rattle.bx_cluster.specs.Steps.{IsMoment};
ghost use Rattle.bx_driver.specs.Racks.{KeepsRack};
ghost use Rattle.bx_script.specs.declared.line.Line.TheVariants.{CrashAll, RestartAll};
ghost use Rattle.bx_world_events.specs.Causes.{IsThere};
ghost use Rattle.bx_world_events.specs.Refusals.{refusal};
ghost use Rattle.bx_world_events.specs.declared.event.EventError.TheVariants.{OutOfMemory as NoMemory};
ghost use Rattle.bx_schedule.specs.Doing.{AreTurns, Ends, HadTurn, turn_of};
ghost use Rattle.bx_schedule.specs.Places.{CanGo, Goes, HasAsMany, IsSteady, IsWithin, place_of};

use crate::clock::take_reading;
use crate::schedule::Schedule;
use bx_base::Actor;
use bx_cluster::Cluster;
use bx_disk::{CrashRack, Noise, Rack};
use bx_driver::{machines_down, machines_up};
use bx_world_events::{Event, EventError, Shows};
use std::alloc::Global;

impl<C: Cluster> Schedule<C> {
    /// All machines that are up crash.
    pub(crate) fn crash_all<R: CrashRack>(
        &mut self,
        alloc: Global,
        rack: &mut R,
        noise: Noise,
    ) -> Result<(), EventError>
        requires goes { CanGo C.seen C.room R.Rack (place_of self.old) rack.old }
        requires few { C.events self.old.cluster + 20 < 4611686018427387904 }
        ensures ends { Ends C.seen C.led R.Rack result (CrashAll noise) (place_of self.old) rack.old (place_of self.new) rack.new }
        ensures goes { OnOk result (CanGo C.seen C.room R.Rack (place_of self.new) rack.new) }
        ensures counted { OnOk result (C.events self.new.cluster ≤ C.events self.old.cluster + 20) }
    {
        let up = machines_up(alloc, &self.cluster)?;
        self.take_turns(alloc, rack, false, 0, up.items(), noise)
    }

    /// All machines that are down start again.
    pub(crate) fn restart_all<R: CrashRack>(
        &mut self,
        alloc: Global,
        rack: &mut R,
        reading: u64,
    ) -> Result<(), EventError>
        requires goes { CanGo C.seen C.room R.Rack (place_of self.old) rack.old }
        requires few { C.events self.old.cluster + 20 < 4611686018427387904 }
        requires time { reading ≤ 4294967295999 }
        ensures ends { Ends C.seen C.led R.Rack result (RestartAll reading) (place_of self.old) rack.old (place_of self.new) rack.new }
        ensures goes { OnOk result (CanGo C.seen C.room R.Rack (place_of self.new) rack.new) }
        ensures counted { OnOk result (C.events self.new.cluster ≤ C.events self.old.cluster + 20) }
    {
        take_reading(&mut self.clock, reading)?;
        let down = machines_down(alloc, &self.cluster)?;
        self.take_turns(alloc, rack, true, reading, down.items(), Noise::Keep)
    }

    /// Machines have their turns, in this order.
    fn take_turns<R: CrashRack>(
        &mut self,
        alloc: Global,
        rack: &mut R,
        down: bool,
        reading: u64,
        these: &[Actor],
        noise: Noise,
    ) -> Result<(), EventError>
        requires goes { CanGo C.seen C.room R.Rack (place_of self.old) rack.old }
        requires few { C.events self.old.cluster + length these.now < 4611686018427387904 }
        requires steady { down ≡ true → IsSteady self.old.clock reading }
        requires there { All (λ who. IsThere (C.seen self.old.cluster) who) these.now }
        ensures does { OnOk result (Goes C.seen C.led R.Rack (AreTurns (turn_of down reading) down (reverse these.now)) noise (place_of self.old) rack.old (place_of self.new) rack.new) }
        ensures goes { OnOk result (CanGo C.seen C.room R.Rack (place_of self.new) rack.new) }
        ensures counted { OnOk result (C.events self.new.cluster ≤ C.events self.old.cluster + length these.now) }
        ensures same { OnOk result ((self.new.held ≡ self.old.held) × (self.new.clock ≡ self.old.clock)) }
        ensures why { IfErr result (λ error. error ≡ NoMemory) }
        ensures keeps { KeepsRack R.Rack rack.old rack.new }
    {
        for who in these {
            let event = turn_of(down, reading, *who);
            self.take_turn(alloc, rack, down, *who, &event, noise)?;
        }
        Ok(())
    }

    /// A machine has its turn: where it is up, or down, as it has to be, its event is done.
    fn take_turn<R: CrashRack>(
        &mut self,
        alloc: Global,
        rack: &mut R,
        down: bool,
        who: Actor,
        event: &Event,
        noise: Noise,
    ) -> Result<(), EventError>
        requires goes { CanGo C.seen C.room R.Rack (place_of self.old) rack.old }
        requires few { C.events self.old.cluster < 4611686018427387904 }
        requires moment { IsMoment event.now }
        requires within { IsWithin self.old.clock event.now }
        requires allowed { (C.seen self.old.cluster).down who ≡ down → refusal (C.seen self.old.cluster) event.now ≡ None }
        ensures turn { OnOk result (HadTurn C.seen C.led R.Rack event.now down who noise (place_of self.old) rack.old (place_of self.new) rack.new) }
        ensures goes { OnOk result (CanGo C.seen C.room R.Rack (place_of self.new) rack.new) }
        ensures counted { OnOk result (C.events self.new.cluster ≤ C.events self.old.cluster + 1) }
        ensures many { OnOk result (HasAsMany (C.seen self.old.cluster) (C.seen self.new.cluster)) }
        ensures same { (self.new.held ≡ self.old.held) × (self.new.clock ≡ self.old.clock) }
        ensures why { IfErr result (λ error. error ≡ NoMemory) }
        ensures keeps { KeepsRack R.Rack rack.old rack.new }
    {
        if self.cluster.is_down(who) != down {
            return Ok(());
        }
        self.act(alloc, rack, event, noise)
    }
}

/// The event of a machine in its turn: it starts again, or crashes.
fn turn_of(down: bool, reading: u64, at: Actor) -> Event<'static>
    ensures { result ≡ turn_of down reading at }
{
    if down {
        Event::Restart { reading, at }
    } else {
        Event::Crash { at }
    }
}
