//! Worlds of file trees as what a replay and a server begin with.

use crate::begins::begin_boxes;
use bx_closings::devices::Devices;
use bx_closings::engine::BoxFs;
use bx_closings::locks::Locks;
use bx_closings::opens::{Opens, Shape};
use bx_closings::paxos_cluster::Paxos;
use bx_closings::world::World;
use bx_disk::{Rack, RackError};
use std::alloc::Global;

/// What makes worlds in which three replicas agree, lock servers own blocks, devices are mirrored, and the engine is that of file trees.
pub struct BoxWorlds;

impl Opens for BoxWorlds {
    ghost use Rattle.bx_world_openings.specs.AtOnce as free;
    ghost use Rattle.bx_world_openings.specs.Laws as laws;

    type Made = World<Paxos, Locks, Devices, BoxFs>;

    fn begin<R: Rack>(
        alloc: Global,
        rack: &mut R,
        volume: u64,
        shape: Shape,
    ) -> Result<Self::Made, RackError> {
        begin_boxes(alloc, rack, volume, shape)
    }

    ghost acts = { λ made tree next entry is. is };

    ghost answers = { λ made bytes is. free.at_once bytes is };

    ghost closes = { λ made x y tree parts led crashed. laws.closes made x y tree parts led crashed };
}
