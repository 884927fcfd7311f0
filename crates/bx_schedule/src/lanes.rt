//! Lines that name a lane.

ghost use Rattle.std.specs.Prelude.{◌≡◌, ◌⊎◌, IfErr, OnOk, ℕ, List};
ghost use Rattle.std.specs.FinSet as set;
ghost use Rattle.bx_driver.specs.Drops.{GoesOn, dropped};
ghost use Rattle.bx_driver.specs.Lanes.{HasMachines};
ghost use Rattle.bx_world_events.specs.declared.event.EventError.TheVariants.{NoSuchMachine, OutOfMemory as NoMemory};
ghost use Rattle.bx_schedule.specs.Places.{place_of};

use crate::schedule::Schedule;
use bx_cluster::Cluster;
use bx_driver::{Lane, drop_pending, lane_refusal};
use bx_world_events::{EventError, Shows};

impl<C: Cluster> Schedule<C> {
    /// Holds a lane, where its machines are there.
    pub(crate) fn hold(&mut self, lane: Lane) -> Result<(), EventError>
        ensures done { OnOk result (HasMachines (C.seen self.old.cluster) lane × (place_of self.new ≡ record (place_of self.old) { held = set.insert self.old.held lane })) }
        ensures refused { IfErr result (λ error. (error ≡ NoMemory) ⊎ ((error ≡ NoSuchMachine) × (HasMachines (C.seen self.old.cluster) lane → ⊥) × (place_of self.new ≡ place_of self.old))) }
    {
        if let Some(error) = lane_refusal(&self.cluster, &lane) {
            return Err(error);
        }
        self.held.hold(lane)?;
        Ok(())
    }

    /// Holds a lane no more, where its machines are there.
    pub(crate) fn free(&mut self, lane: Lane) -> Result<(), EventError>
        ensures done { OnOk result (HasMachines (C.seen self.old.cluster) lane × (place_of self.new ≡ record (place_of self.old) { held = set.remove self.old.held lane })) }
        ensures refused { IfErr result (λ error. (error ≡ NoSuchMachine) × (HasMachines (C.seen self.old.cluster) lane → ⊥) × (place_of self.new ≡ place_of self.old)) }
    {
        if let Some(error) = lane_refusal(&self.cluster, &lane) {
            return Err(error);
        }
        self.held.free(&lane);
        Ok(())
    }

    /// Drops the packets of a lane, where its machines are there.
    pub(crate) fn drop_on(&mut self, lane: Lane) -> Result<(), EventError>
        ensures done { OnOk result (HasMachines (C.seen self.old.cluster) lane × (C.seen self.new.cluster ≡ record (C.seen self.old.cluster) { post = dropped lane (C.seen self.old.cluster).post })) }
        ensures refused { IfErr result (λ error. (error ≡ NoSuchMachine) × (HasMachines (C.seen self.old.cluster) lane → ⊥) × (place_of self.new ≡ place_of self.old)) }
        ensures same { place_of self.new ≡ record (place_of self.old) { cluster = self.new.cluster } }
        ensures at { GoesOn (C.led self.old.cluster) (C.led self.new.cluster) }
        ensures room { (sizes : List ℕ) → C.room self.old.cluster sizes → C.room self.new.cluster sizes }
        ensures events { C.events self.new.cluster ≡ C.events self.old.cluster }
    {
        if let Some(error) = lane_refusal(&self.cluster, &lane) {
            return Err(error);
        }
        drop_pending(&mut self.cluster, &lane);
        Ok(())
    }
}
