//! One event of a turn.

ghost use Rattle.std.specs.Prelude.{◌≡◌, ◌<◌, ◌++◌, ◌⊎◌, IfErr, IsErrOf, IsSome, OnOk, false, true};
ghost use Rattle.bx_base.specs.Faults.{Rose};
ghost use Rattle.bx_cluster.specs.Steps.{Counted};
ghost use Rattle.bx_host.specs.Lost.{is_lost};
ghost use Rattle.bx_host.specs.Standing.{CanGo, Goes, IsNoted, IsNow, most_events};
ghost use Rattle.bx_host.specs.Steps.{brought_in, datagrams, is_silent, owed, stopped_in};
ghost use Rattle.bx_host.specs.Turns.{IsOne};
ghost use Rattle.bx_host.specs.declared.error.HostError.TheVariants.{Disk as DiskFault, OutOfMemory as NoMemory};

use crate::error::HostError;
use crate::host::Host;
use crate::lost::is_lost;
use bx_base::{Actor, OutOfMemory};
use bx_cluster::{Cluster, Outcome};
use bx_disk::Rack;
use bx_world_events::Event;
use std::alloc::Global;

impl<C: Cluster> Host<C> {
    /// Does an event that isn't refused.
    pub(crate) fn act<R: Rack>(
        &mut self,
        alloc: Global,
        rack: &mut R,
        event: &Event,
    ) -> Result<(), HostError>
        requires now { IsNow C.seen self.old event.now }
        requires few { C.events self.old.cluster < most_events }
        requires goes { CanGo C.seen C.room C.led R.Rack self.old rack.old }
        ensures ends { Goes C.seen C.room C.led R.Rack result (IsOne event.now) (brought_in event.now) self.old rack.old self.new rack.new }
        ensures goes { OnOk result (CanGo C.seen C.room C.led R.Rack self.new rack.new) }
        ensures counted { OnOk result (Counted event.now (C.events self.old.cluster) (C.events self.new.cluster)) }
        ensures cause { IsErrOf result DiskFault → Rose (R.faults rack.old) (R.faults rack.new) }
    {
        let Ok(outcome) = self.cluster.step(alloc, rack, event) else {
            return Err(HostError::OutOfMemory);
        };
        self.left -= 1;
        self.note(outcome)
    }

    /// Keeps what answers something, and notes a machine that stopped.
    fn note(&mut self, outcome: Outcome) -> Result<(), HostError>
        requires whole { is_lost self.old.stopped ≡ false }
        ensures ok { OnOk result (IsNoted outcome self.old self.new × (is_lost self.new.stopped ≡ false)) }
        ensures lost { IsErrOf result DiskFault → IsNoted outcome self.old self.new × (is_lost self.new.stopped ≡ true) × IsSome outcome.stopped }
        ensures why { IfErr result (λ error. (error ≡ DiskFault) ⊎ (error ≡ NoMemory)) }
        ensures same { self.new ≡ record self.old { answers = self.new.answers; stopped = self.new.stopped } }
    {
        let stopped = outcome.stopped;
        self.keep(outcome)?;
        self.note_stopped(stopped)
    }

    /// Keeps an outcome that answers something.
    fn keep(&mut self, outcome: Outcome) -> Result<(), OutOfMemory>
        ensures ok { OnOk result (owed self.new.answers ≡ owed self.old.answers ++ datagrams outcome) }
        ensures same { self.new ≡ record self.old { answers = self.new.answers } }
    {
        if is_silent(&outcome) {
            return Ok(());
        }
        self.answers.push(outcome)
    }

    /// Notes a machine that stopped, where one did.
    fn note_stopped(&mut self, stopped: Option<Actor>) -> Result<(), HostError>
        requires whole { is_lost self.old.stopped ≡ false }
        ensures ok { OnOk result ((self.new.stopped ≡ self.old.stopped ++ stopped_in stopped) × (is_lost self.new.stopped ≡ false)) }
        ensures lost { IsErrOf result DiskFault → (self.new.stopped ≡ self.old.stopped ++ stopped_in stopped) × (is_lost self.new.stopped ≡ true) × IsSome stopped }
        ensures why { IfErr result (λ error. (error ≡ DiskFault) ⊎ (error ≡ NoMemory)) }
        ensures same { self.new ≡ record self.old { stopped = self.new.stopped } }
    {
        let Some(who) = stopped else {
            return Ok(());
        };
        self.stopped.push(who)?;
        if is_lost(&self.stopped) {
            return Err(HostError::Disk);
        }
        Ok(())
    }
}

/// Whether an outcome answers nothing.
fn is_silent(outcome: &Outcome) -> bool
    ensures { result ≡ is_silent outcome.now }
{
    outcome.replies.len() == 0 && outcome.again.is_none()
}
