//! The cluster of a volume as it begins.

ghost use Rattle.std.specs.Prelude.{◌≡◌, ◌≤◌, ℕ, [], List, None, IfOk, IsErrOf, OnOk};
ghost use Rattle.bx_base.specs.Faults.{Rose};
ghost use Rattle.bx_closings.specs.bx_opens.specs.Opening.{IsNew, IsShape, first_tree};
ghost use Rattle.bx_closings.specs.bx_world.specs.Room.{HasRoom};
ghost use Rattle.bx_closings.specs.bx_world.specs.Trees.{LedFrom};
ghost use Rattle.bx_closings.specs.bx_world.specs.World.{seen};
ghost use Rattle.bx_cluster_parts.specs.Made.{made_by};
ghost use Rattle.bx_disk.specs.Disks.{Disks, Image};
ghost use Rattle.bx_disk.specs.declared.fault.RackError.TheVariants.{Fault, OutOfMemory as NoMemory};
ghost use Rattle.bx_format.specs.Formats.{HasSizes};
ghost use Rattle.bx_global.specs.Opening.{opening_state};
ghost use Rattle.bx_closings.specs.bx_world.specs.bx_node_calls.specs.Waits.{NoneWaits};
ghost use Rattle.bx_closings.specs.bx_world.specs.bx_nodes.specs.bx_node_openings.specs.Opening.{AreNew};
ghost use Rattle.bx_closings.specs.bx_world.specs.bx_nodes.specs.bx_node_openings.specs.Resting.{VolumeRests};
ghost use Rattle.bx_truth.specs.Opening.{opening_truth};
ghost use Rattle.bx_closings.specs.bx_world.specs.bx_world_machines.specs.Machines.{first_up};
ghost use Rattle.bx_closings.specs.bx_world.specs.bx_world_machines.specs.Standing as standing;
ghost use Rattle.bx_world_standing.specs.Standing.{Course};

use bx_base::OutOfMemory;
use bx_closings::devices::Devices;
use bx_closings::engine::BoxFs;
use bx_closings::locks::Locks;
use bx_closings::opens::Shape;
use bx_closings::paxos_cluster::Paxos;
use bx_closings::world::all_nodes::{Nodes, first_machines, what_nodes_begin_with};
use bx_closings::world::{Machines, World};
use bx_cluster_parts::ClusterParts;
use bx_disk::{Rack, RackError};
use bx_facts::{Owners, Register, Store};
use bx_views::Engine;
use std::alloc::Global;

/// The machines of a cluster, which are made of new parts: all are up, in their first boot, and no call came.
fn machines_of(
    alloc: Global,
    parts: ClusterParts,
    volume: u64,
    shape: Shape,
) -> Result<Machines<Paxos, Locks, Devices, BoxFs>, OutOfMemory>
    requires shape { IsShape shape }
    requires nodes { (⟦<Paxos as Register>⟧.nodes parts.register ≡ shape.nodes) × (⟦<Locks as Owners>⟧.nodes parts.owners ≡ shape.nodes) }
    requires made { (⟦<Devices as Store>⟧.made parts.store ≡ made_by volume shape.nodes shape.devices shape.areas) × ⟦<Devices as Store>⟧.is_new parts.store }
    requires state { parts.state ≡ opening_state shape.nodes shape.devices }
    ensures stands { (x : Disks) (held : Image) → AreNew ⟦<Paxos as Register>⟧ ⟦<Locks as Owners>⟧ ⟦<Devices as Store>⟧ parts.register parts.owners parts.store x (opening_state shape.nodes shape.devices)
        → VolumeRests (made_by volume shape.nodes shape.devices shape.areas) x (opening_state shape.nodes shape.devices) held opening_truth
        → IfOk result (λ all. (course : Course) × standing.StandsBy ⟦<Paxos as Register>⟧ ⟦<Locks as Owners>⟧ ⟦<Devices as Store>⟧ ⟦<BoxFs as Engine>⟧ course all [] x (first_tree volume shape.areas) × ((session : ℕ) → course.doubts session ≡ None)) }
    ensures none_wait { IfOk result (λ all. NoneWaits all.nodes.machines.items) }
    ensures ready { (sizes : List ℕ) → HasSizes sizes shape.devices shape.areas → IfOk result (λ all. standing.IsReady ⟦<Paxos as Register>⟧ ⟦<Locks as Owners>⟧ ⟦<Devices as Store>⟧ ⟦<BoxFs as Engine>⟧ all sizes) }
    ensures made { IfOk result (λ all. ⟦<Devices as Store>⟧.made all.nodes.store ≡ made_by volume shape.nodes shape.devices shape.areas) }
    ensures begins { IfOk result (λ all. (all.up.items ≡ first_up shape.nodes shape.devices) × (all.clock ≡ 0) × (all.boots ≡ 0) × (all.latest ≡ 0) × (all.count ≡ shape.nodes) × (all.devices ≡ shape.devices)) }
{
    let machines = first_machines(alloc, shape.devices, shape.areas, shape.nodes)?;
    let ClusterParts {
        register,
        owners,
        store,
        state,
    } = parts;
    let engine = BoxFs {
        volume,
        areas: shape.areas,
    };
    what_nodes_begin_with(&register, &owners, &store, &engine);
    let nodes = Nodes::new(alloc, register, owners, store, engine, machines);
    let all = Machines::begin(alloc, nodes, state, shape.nodes, shape.devices)?;
    Ok(all)
}

/// Makes the disks of a rack anew a volume with this number, and a world of its machines: all are up, in their first boot, each node has its session, and no call came.
/// After an error the rack isn't used again.
pub fn begin_boxes<R: Rack>(
    alloc: Global,
    rack: &mut R,
    volume: u64,
    shape: Shape,
) -> Result<World<Paxos, Locks, Devices, BoxFs>, RackError>
    requires shape { IsShape shape }
    ensures led { R.tells rack.old → IfOk result (λ world. LedFrom ⟦<Paxos as Register>⟧ ⟦<Locks as Owners>⟧ ⟦<Devices as Store>⟧ ⟦<BoxFs as Engine>⟧ world (R.state rack.new) (first_tree volume shape.areas) []) }
    ensures new { IfOk result (λ world. IsNew shape (seen ⟦<Devices as Store>⟧ world)) }
    ensures room { IfOk result (λ world. HasRoom ⟦<Paxos as Register>⟧ ⟦<Locks as Owners>⟧ ⟦<Devices as Store>⟧ ⟦<BoxFs as Engine>⟧ world (R.state rack.new).sizes) }
    ensures events { IfOk result (λ world. world.events ≡ 0) }
    ensures cause { IsErrOf result Fault → Rose (R.faults rack.old) (R.faults rack.new) }
    ensures memory { IsErrOf result NoMemory → R.faults rack.new ≡ R.faults rack.old }
    ensures no_fault { OnOk result (R.faults rack.new ≡ R.faults rack.old) }
    ensures later { R.faults rack.old ≤ R.faults rack.new }
    ensures keeps_telling { R.tells rack.old → R.tells rack.new }
{
    let parts = ClusterParts::begin(alloc, rack, volume, shape.nodes, shape.devices, shape.areas)?;
    let machines = machines_of(alloc, parts, volume, shape)?;
    let world = World::begin(alloc, machines)?;
    Ok(world)
}
