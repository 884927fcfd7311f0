//! The machines of mirrored devices.

ghost use Rattle.std.specs.Prelude.{◌≡◌, ◌++◌, ◌∷◌, ◌*◌, ◌<◌, ◌≤◌, [], IfOk, None, OnOk, Some, length};
ghost use Rattle.bx_devices.specs.Machines.{AreMade, IsShape};

use bx_base::OutOfMemory;
use bx_global::GlobalState;
use bx_mirror_client::MirrorClient;
use bx_mirror_server::MirrorServer;
use std::alloc::Global;
use std::marker::Model;

/// Mirrored devices: two members for each, of which those are here that are up, and a stream for each node. What comes to a machine goes to that one
/// alone, and they speak by packets. Nothing that two machines share is kept.
#[derive(Drop)]
pub struct Devices {
    pub(crate) alloc: Global,
    pub(crate) volume: u64,
    pub(crate) nodes: u32,
    pub(crate) devices: u32,
    pub(crate) areas: u32,
    pub(crate) members: Vec<Option<MirrorServer>>,
    pub(crate) streams: Vec<MirrorClient>,
}

impl Model for Devices {
    ghost use Rattle.bx_devices.specs.Machines.{DeviceMachines, IsShape, machines};

    ghost Value = { DeviceMachines };

    ghost view = { λ d. machines d.volume d.nodes d.devices d.areas d.members.items d.streams.items };

    ghost invariant = { λ d. IsShape (machines d.volume d.nodes d.devices d.areas d.members.items d.streams.items) };
}

impl Devices {
    /// The machines of a volume of so many nodes, devices (1 to 4) and areas (1 to 64), in a cluster that begins with a state. All are up.
    pub fn new(
        alloc: Global,
        volume: u64,
        nodes: u32,
        devices: u32,
        areas: u32,
        first: &GlobalState,
    ) -> Result<Devices, OutOfMemory>
        requires least_devices { 1 ≤ devices }
        requires most_devices { devices ≤ 4 }
        requires least_areas { 1 ≤ areas }
        requires most_areas { areas ≤ 64 }
        requires rows { length first.now.devices ≤ 4 }
        ensures made { IfOk result (AreMade (record { volume = volume; nodes = nodes; devices = devices; areas = areas }) first.now) }
        ensures shape { IfOk result IsShape }
    {
        let mut members = Vec::new(alloc);
        for number in 0..2 * devices {
            let member = MirrorServer::new(alloc, number, volume, nodes, devices, areas);
            put(&mut members, Some(member))?;
        }
        let mut streams = Vec::new(alloc);
        for node in 0..nodes {
            put(&mut streams, MirrorClient::new(alloc, node, first)?)?;
        }
        Ok(Devices {
            alloc,
            volume,
            nodes,
            devices,
            areas,
            members,
            streams,
        })
    }
}

/// Puts one more at the end.
fn put<T>(all: &mut Vec<T>, one: T) -> Result<(), OutOfMemory>
where
    T: Drop,
    ensures { OnOk result (all.new.items ≡ all.old.items ++ one ∷ []) }
{
    all.push(one)?;
    Ok(())
}
