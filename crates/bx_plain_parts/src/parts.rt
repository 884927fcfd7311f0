//! Parts that are new.

ghost use Rattle.std.specs.Prelude.{◌≡◌, ◌≤◌, IfOk, OnOk, false};
ghost use Rattle.bx_disk.specs.Disks.{Disks};
ghost use Rattle.bx_format.specs.Formats.{HasSizes, IsFormatted};
ghost use Rattle.bx_format.specs.Kept.{FailsAnew};
ghost use Rattle.bx_plain_openings.specs.bx_node_openings.specs.Opening.{AreNew};
ghost use Rattle.bx_plain_openings.specs.bx_node_openings.specs.Resting.{VolumeRests};
ghost use Rattle.bx_places.specs.Places.{IsVolume};
ghost use Rattle.bx_plain.specs.Begin.{plain_state};
ghost use Rattle.bx_plain_parts.specs.Made.{made_by};
ghost use Rattle.bx_truth.specs.Opening.{opening_truth};
ghost use Rattle.bx_volume.specs.Images.{devices_of};

use bx_base::OutOfMemory;
use bx_disk::{Rack, RackError};
use bx_facts::{Owners, Register, Store};
use bx_format::format;
use bx_plain::{PlainOwners, PlainRegister, endless};
use bx_plain_store::PlainStore;
use std::alloc::Global;

/// How many nodes, devices and areas a cluster has.
#[derive(Clone, Copy, Debug, PartialEq, Eq)]
pub struct Shape {
    /// How many nodes.
    pub nodes: u32,
    /// How many devices.
    pub devices: u32,
    /// How many areas.
    pub areas: u16,
}

/// The register, the owners and the store of a cluster on one machine.
#[derive(Drop)]
pub struct PlainParts {
    /// The register.
    pub register: PlainRegister,
    /// The owners.
    pub owners: PlainOwners,
    /// The store.
    pub store: PlainStore,
}

impl PlainParts {
    /// New ones, for a volume of this number and a cluster of at most 4 nodes: each node has a session, which doesn't end. They fit any disks.
    pub fn new(alloc: Global, volume: u64, shape: Shape) -> Result<PlainParts, OutOfMemory>
        requires nodes { shape.nodes ≤ 4 }
        requires sizes { IsVolume shape.devices shape.areas }
        ensures new { (x : Disks) → IfOk result (λ parts. AreNew ⟦<PlainRegister as Register>⟧ ⟦<PlainOwners as Owners>⟧ ⟦<PlainStore as Store>⟧ parts.register parts.owners parts.store x (plain_state shape.nodes shape.devices)) }
        ensures made { IfOk result (λ parts. ⟦<PlainStore as Store>⟧.made parts.store ≡ made_by volume shape) }
        ensures register { IfOk result (λ parts. (⟦<PlainRegister as Register>⟧.nodes parts.register ≡ shape.nodes) × (⟦<PlainRegister as Register>⟧.made parts.register ≡ plain_state shape.nodes shape.devices)) }
    {
        let state = endless(alloc, shape.nodes, shape.devices)?;
        let store = PlainStore::new(
            alloc,
            volume,
            shape.nodes,
            shape.devices,
            u32::from(shape.areas),
            &state,
        )?;
        Ok(PlainParts {
            register: PlainRegister::new(alloc, shape.nodes, state),
            owners: PlainOwners::new(alloc, shape.nodes),
            store,
        })
    }

    /// Makes the disks of a rack anew a volume of this number, and new parts for it: what was on them is gone. The volume rests then, with the blocks of one
    /// that was just made. After an error the rack isn't used again.
    pub fn begin<R: Rack>(
        alloc: Global,
        rack: &mut R,
        volume: u64,
        shape: Shape,
    ) -> Result<PlainParts, RackError>
        requires nodes { shape.nodes ≤ 4 }
        requires sizes { IsVolume shape.devices shape.areas }
        ensures new { (x : Disks) → IfOk result (λ parts. AreNew ⟦<PlainRegister as Register>⟧ ⟦<PlainOwners as Owners>⟧ ⟦<PlainStore as Store>⟧ parts.register parts.owners parts.store x (plain_state shape.nodes shape.devices)) }
        ensures made { IfOk result (λ parts. ⟦<PlainStore as Store>⟧.made parts.store ≡ made_by volume shape) }
        ensures register { IfOk result (λ parts. (⟦<PlainRegister as Register>⟧.nodes parts.register ≡ shape.nodes) × (⟦<PlainRegister as Register>⟧.made parts.register ≡ plain_state shape.nodes shape.devices)) }
        ensures rests { R.tells rack.old → OnOk result (VolumeRests (made_by volume shape) (R.state rack.new) (plain_state shape.nodes shape.devices) (devices_of (R.state rack.new).reads (λ device sector. false)) opening_truth) }
        ensures formatted { R.tells rack.old → OnOk result (IsFormatted (R.state rack.new) (record { volume = volume; disk = 0; devices = shape.devices; areas = shape.areas })) }
        ensures sizes { OnOk result (HasSizes (R.state rack.new).sizes shape.devices shape.areas) }
        ensures rack { FailsAnew R.Rack rack.old rack.new result }
    {
        format(alloc, rack, volume, shape.devices, shape.areas)?;
        let parts = PlainParts::new(alloc, volume, shape)?;
        Ok(parts)
    }
}
