//! What is due, done.

ghost use Rattle.std.specs.Prelude.{◌≡◌, ◌<◌, ◌≤◌, OnOk};
ghost use Rattle.bx_script.specs.declared.line.Line.TheVariants.{Run};
ghost use Rattle.bx_schedule.specs.Doing.{Ends};
ghost use Rattle.bx_schedule.specs.Places.{CanGo, place_of};

use crate::clock::take_reading;
use crate::schedule::Schedule;
use bx_cluster::Cluster;
use bx_disk::{CrashRack, Noise, Rack};
use bx_driver::due;
use bx_world_events::{EventError, Shows};
use std::alloc::Global;

impl<C: Cluster> Schedule<C> {
    /// Does what is due, at most so many times.
    pub(crate) fn run<R: CrashRack>(
        &mut self,
        alloc: Global,
        rack: &mut R,
        reading: u64,
        limit: u32,
    ) -> Result<(), EventError>
        requires goes { CanGo C.seen C.room R.Rack (place_of self.old) rack.old }
        requires few { C.events self.old.cluster < 4611686018427387904 }
        requires time { reading ≤ 4294967295999 }
        ensures ends { Ends C.seen C.led R.Rack result (Run reading limit) (place_of self.old) rack.old (place_of self.new) rack.new }
        ensures goes { OnOk result (CanGo C.seen C.room R.Rack (place_of self.new) rack.new) }
        ensures counted { OnOk result (C.events self.new.cluster ≡ C.events self.old.cluster) }
    {
        take_reading(&mut self.clock, reading)?;
        for _turn in 0..limit {
            let Some(event) = due(&self.cluster, &self.held, reading) else {
                return Ok(());
            };
            self.act(alloc, rack, &event, Noise::Keep)?;
        }
        Ok(())
    }
}
