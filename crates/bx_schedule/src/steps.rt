//! One line of a schedule.

ghost use Rattle.std.specs.Prelude.{◌≡◌, ◌+◌, ◌<◌, ◌≤◌, OnOk, false};
ghost use Rattle.bx_script.specs.Schedule.{HasPlace};
ghost use Rattle.bx_schedule.specs.Doing.{Ends};
ghost use Rattle.bx_schedule.specs.Places.{CanGo, cleared, place_of};
ghost use Rattle.bx_schedule.specs.Refusing.{is_event};

use crate::event_of::{event_of, noise_of};
use crate::schedule::Schedule;
use bx_cluster::Cluster;
use bx_disk::{CrashRack, Rack};
use bx_driver::Lane;
use bx_script::Line;
use bx_world_events::{EventError, Shows};
use std::alloc::Global;

impl<C: Cluster> Schedule<C> {
    /// Does a line behind the heading. One that is refused changes nothing. For want of memory the schedule isn't used again.
    pub fn step<R: CrashRack>(
        &mut self,
        alloc: Global,
        rack: &mut R,
        line: &Line,
    ) -> Result<(), EventError>
        requires line { HasPlace false line.now }
        requires goes { CanGo C.seen C.room R.Rack (place_of self.old) rack.old }
        requires few { C.events self.old.cluster + 20 < 4611686018427387904 }
        ensures ends { Ends C.seen C.led R.Rack result line.now (cleared (place_of self.old)) rack.old (place_of self.new) rack.new }
        ensures goes { OnOk result (CanGo C.seen C.room R.Rack (place_of self.new) rack.new) }
        ensures counted { OnOk result (C.events self.new.cluster ≤ C.events self.old.cluster + 20) }
    {
        self.text.clear();
        match event_of(&self.cluster, line) {
            Some(event) => self.act_alone(alloc, rack, &event, noise_of(line)),
            None => self.do_many(alloc, rack, line),
        }
    }

    /// Does a line that isn't one event.
    fn do_many<R: CrashRack>(
        &mut self,
        alloc: Global,
        rack: &mut R,
        line: &Line,
    ) -> Result<(), EventError>
        requires line { HasPlace false line.now }
        requires many { is_event line.now ≡ false }
        requires goes { CanGo C.seen C.room R.Rack (place_of self.old) rack.old }
        requires few { C.events self.old.cluster + 20 < 4611686018427387904 }
        ensures ends { Ends C.seen C.led R.Rack result line.now (place_of self.old) rack.old (place_of self.new) rack.new }
        ensures goes { OnOk result (CanGo C.seen C.room R.Rack (place_of self.new) rack.new) }
        ensures counted { OnOk result (C.events self.new.cluster ≤ C.events self.old.cluster + 20) }
    {
        match line {
            Line::Run { reading, limit } => self.run(alloc, rack, *reading, *limit),
            Line::CrashAll { noise } => self.crash_all(alloc, rack, *noise),
            Line::RestartAll { reading } => self.restart_all(alloc, rack, *reading),
            Line::Hold { from, to, kind } => self.hold(Lane {
                from: *from,
                to: *to,
                kind: *kind,
            }),
            Line::Free { from, to, kind } => self.free(Lane {
                from: *from,
                to: *to,
                kind: *kind,
            }),
            Line::Drop { from, to, kind } => self.drop_on(Lane {
                from: *from,
                to: *to,
                kind: *kind,
            }),
            Line::Heading { .. }
            | Line::Call { .. }
            | Line::Tick { .. }
            | Line::Deliver { .. }
            | Line::Next { .. }
            | Line::Sync { .. }
            | Line::Crash { .. }
            | Line::Restart { .. }
            | Line::Blank { .. } => Ok(()),
        }
    }
}
