//! The lanes that are held.

ghost use Rattle.std.specs.Prelude.{◌≡◌, OnErr, OnOk};
ghost use Rattle.std.specs.FinSet as set;

use crate::lane::Lane;
use bx_base::OutOfMemory;
use std::alloc::Global;
use std::collections::BTreeSet;
use std::marker::Model;

/// The lanes whose packets a run passes over. Contracts see it as their set.
#[derive(Drop)]
pub struct Held {
    lanes: BTreeSet<Lane>,
}

impl Model for Held {
    ghost use Rattle.std.specs.FinSet as set;
    ghost use Rattle.bx_driver.specs.Lanes.{lane_cmp};
    ghost use Rattle.bx_driver.specs.Codes.{lane_code};

    ghost Value = { set.FinSet lane_cmp };

    ghost coded = { set.code lane_code };

    ghost view = { λ held. set.from_list held.lanes.keys };
}

impl Held {
    /// No lane is held. It takes no memory.
    pub fn new(alloc: Global) -> Held
        ensures { result ≡ set.empty }
    {
        Held {
            lanes: BTreeSet::new(alloc),
        }
    }

    /// Holds a lane. Where memory runs out, nothing changes.
    pub fn hold(&mut self, lane: Lane) -> Result<(), OutOfMemory>
        ensures ok { OnOk result (self.new ≡ set.insert self.old lane) }
        ensures err { OnErr result (self.new ≡ self.old) }
    {
        self.lanes.insert(lane)?;
        Ok(())
    }

    /// Holds a lane no more. It takes no memory.
    pub fn free(&mut self, lane: &Lane)
        ensures { self.new ≡ set.remove self.old lane.now }
    {
        self.lanes.remove(lane);
    }

    /// Whether a lane is held. It takes no memory, and as many steps as the count of held lanes has binary digits.
    pub fn has(&self, lane: &Lane) -> bool
        ensures { result ≡ set.contains self.now lane.now }
    {
        self.lanes.contains(lane)
    }
}
