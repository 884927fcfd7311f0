//! Parts that are new.

ghost use Rattle.std.specs.Prelude.{◌≡◌, ◌≤◌, IfOk, OnOk};
ghost use Rattle.bx_cluster_parts.specs.Made.{made_by};
ghost use Rattle.bx_devices.specs.Machines as mirrors;
ghost use Rattle.bx_disk.specs.Disks.{Image};
ghost use Rattle.bx_format.specs.Formats.{HasSizes};
ghost use Rattle.bx_format.specs.Kept.{FailsAnew};
ghost use Rattle.bx_global.specs.Opening.{opening_state};
ghost use Rattle.bx_locks.specs.Machines as clerks;
ghost use Rattle.bx_places.specs.Places.{IsVolume};
ghost use Rattle.bx_format_openings.specs.bx_node_openings.specs.Opening.{AreNew};
ghost use Rattle.bx_format_openings.specs.bx_node_openings.specs.Resting.{VolumeRests};
ghost use Rattle.bx_truth.specs.Opening.{opening_truth};

use bx_base::OutOfMemory;
use bx_devices::Devices;
use bx_disk::{Rack, RackError};
use bx_facts::{FactError, Owners, Register, Store};
use bx_format::format;
use bx_global::GlobalState;
use bx_global_laws::{begins_allowed, opening};
use bx_locks::Locks;
use bx_paxos_cluster::Paxos;
use std::alloc::Global;

/// The register, the owners and the store of a cluster.
#[derive(Drop)]
pub struct ClusterParts {
    /// The register.
    pub register: Paxos,
    /// The owners.
    pub owners: Locks,
    /// The store.
    pub store: Devices,
    /// The state that they begin with.
    pub state: GlobalState,
}

impl ClusterParts {
    /// New ones for a volume of this number, whose register has no cells yet: they begin with a state in which each node has a session.
    fn new(
        alloc: Global,
        volume: u64,
        nodes: u32,
        devices: u32,
        areas: u16,
    ) -> Result<ClusterParts, OutOfMemory>
        requires nodes { nodes ≤ 4 }
        requires sizes { IsVolume devices areas }
        ensures register { IfOk result (λ parts. (parts.register.made ≡ opening_state nodes devices) × (parts.register.nodes ≡ nodes)) }
        ensures owners { IfOk result (λ parts. clerks.AreMade nodes (opening_state nodes devices) parts.owners) }
        ensures store { IfOk result (λ parts. mirrors.AreMade (made_by volume nodes devices areas) (opening_state nodes devices) parts.store × mirrors.IsShape parts.store) }
        ensures state { IfOk result (λ parts. parts.state ≡ opening_state nodes devices) }
    {
        begins_allowed();
        let state = opening(alloc, nodes, devices)?;
        let owners = Locks::new(alloc, nodes, &state)?;
        let store = Devices::new(alloc, volume, nodes, devices, u32::from(areas), &state)?;
        let first = state.copy(alloc)?;
        let register = Paxos::new(alloc, nodes, first)?;
        Ok(ClusterParts {
            register,
            owners,
            store,
            state,
        })
    }

    /// Makes the disks of a rack anew a volume of this number, and new parts for it: what was on them is gone. All machines are up, know the state that they begin with,
    /// and in it each node has a session; the volume rests, with the blocks of one that was just made. After an error the rack isn't used again.
    pub fn begin<R: Rack>(
        alloc: Global,
        rack: &mut R,
        volume: u64,
        nodes: u32,
        devices: u32,
        areas: u16,
    ) -> Result<ClusterParts, RackError>
        requires nodes { nodes ≤ 4 }
        requires sizes { IsVolume devices areas }
        ensures new { R.tells rack.old → IfOk result (λ parts. AreNew ⟦<Paxos as Register>⟧ ⟦<Locks as Owners>⟧ ⟦<Devices as Store>⟧ parts.register parts.owners parts.store (R.state rack.new) (opening_state nodes devices)) }
        ensures rests { R.tells rack.old → OnOk result ((held : Image) × VolumeRests (made_by volume nodes devices areas) (R.state rack.new) (opening_state nodes devices) held opening_truth) }
        ensures nodes { IfOk result (λ parts. (⟦<Paxos as Register>⟧.nodes parts.register ≡ nodes) × (⟦<Locks as Owners>⟧.nodes parts.owners ≡ nodes)) }
        ensures made { IfOk result (λ parts. (⟦<Devices as Store>⟧.made parts.store ≡ made_by volume nodes devices areas) × ⟦<Devices as Store>⟧.is_new parts.store) }
        ensures state { IfOk result (λ parts. parts.state ≡ opening_state nodes devices) }
        ensures sizes { OnOk result (HasSizes (R.state rack.new).sizes devices areas) }
        ensures rack { FailsAnew R.Rack rack.old rack.new result }
    {
        format(alloc, rack, volume, devices, areas)?;
        let mut parts = ClusterParts::new(alloc, volume, nodes, devices, areas)?;
        bx_locks::made_for();
        bx_devices::made_for();
        match parts.register.format(rack) {
            Ok(()) => Ok(parts),
            Err(FactError::Disk) => Err(RackError::Fault),
            Err(FactError::OutOfMemory) => Err(RackError::OutOfMemory),
        }
    }
}
