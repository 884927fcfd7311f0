//! All nodes.

ghost use Rattle.std.specs.Prelude.{◌≡◌, ℕ, IfOk, IfSome, length, slice_get};
ghost use Rattle.bx_node_openings.specs.Opening.{HaveNothing};
ghost use Rattle.bx_node_steps.specs.Seen.{seen};
ghost use Rattle.bx_nodes.specs.Opening.{IsFirst};
ghost use Rattle.bx_nodes.specs.Standing.{BeReady};
ghost use Rattle.bx_nodes.specs.Stopping.{HasNothing};
ghost use Rattle.bx_places.specs.Places.{IsVolume};

use bx_base::OutOfMemory;
use bx_facts::{Owners, Register, Store};
use bx_node_steps::Machine;
use bx_views::Engine;
use std::alloc::Global;

/// The nodes of a cluster, with the parts that they use.
#[derive(Drop)]
pub struct Nodes<G: Register, O: Owners, S: Store, E: Engine> {
    pub(crate) alloc: Global,
    pub(crate) register: G,
    pub(crate) owners: O,
    pub(crate) store: S,
    pub(crate) engine: E,
    pub(crate) machines: Vec<Machine>,
}

impl<G: Register, O: Owners, S: Store, E: Engine> Nodes<G, O, S, E> {
    /// These nodes, with these parts. It takes no memory.
    pub fn new(
        alloc: Global,
        register: G,
        owners: O,
        store: S,
        engine: E,
        machines: Vec<Machine>,
    ) -> Nodes<G, O, S, E>
        ensures machines { result.machines ≡ machines }
        ensures parts { (result.register ≡ register) × (result.owners ≡ owners) × (result.store ≡ store) × (result.engine ≡ engine) }
        ensures ready { (node : ℕ) → IsVolume (S.made store).devices (S.made store).areas → E.areas engine ≡ (S.made store).areas → S.asked store node ≡ None
            → IfSome (slice_get machines.items node) (HasNothing (S.made store).devices (S.made store).areas) → BeReady S.Store E.Engine result node }
    {
        Nodes {
            alloc,
            register,
            owners,
            store,
            engine,
            machines,
        }
    }
}

/// So many nodes of a volume of so many devices and areas that have nothing yet.
pub fn first_machines(
    alloc: Global,
    devices: u32,
    areas: u16,
    count: u32,
) -> Result<Vec<Machine>, OutOfMemory>
    requires volume { IsVolume devices areas }
    ensures count { IfOk result (λ machines. length machines.items ≡ count) }
    ensures first { (node : ℕ) → IfOk result (λ machines. IfSome (slice_get machines.items node) (IsFirst devices areas)) }
    ensures seen { IfOk result (λ machines. HaveNothing (seen machines.items)) }
{
    let mut machines = Vec::new(alloc);
    for _ in 0..count {
        machines.push(Machine::new(alloc, devices, areas))?;
    }
    Ok(machines)
}
