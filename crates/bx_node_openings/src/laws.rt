//! What nodes begin with.

ghost use Rattle.std.specs.Prelude.{◌≡◌, List, []};
ghost use Rattle.bx_disk.specs.Disks.{Disks, Image};
ghost use Rattle.bx_global.specs.declared.state.GlobalState.{GlobalState};
ghost use Rattle.bx_node_machines.specs.Machines.{MachineView};
ghost use Rattle.bx_node_machines.specs.Nodes.{NodesStand};
ghost use Rattle.bx_node_openings.specs.Opening.{AreNew, HaveNothing, opening_clocks};
ghost use Rattle.bx_node_openings.specs.Resting.{VolumeRests};
ghost use Rattle.bx_views.specs.Truths.{Truth, no_hints};
ghost use Rattle.bx_volume.specs.Records.{Logged};
ghost use Rattle.bx_world_stays.proofs.Begins.{opening_course};

use bx_facts::{Owners, Register, Store};
use bx_views::Engine;

/// With parts that are new, and nodes that have nothing, a cluster stands on disks at rest, for each tree that their truth stands for; so on those of a volume that was
/// just made, for the tree to begin with.
pub fn what_nodes_begin_with<G: Register, O: Owners, S: Store, E: Engine>(
    register: &G,
    owners: &O,
    store: &S,
    engine: &E,
)
    ensures stands { (x : Disks) (s : GlobalState) (held : Image) (truth : Truth) (tree : E.Tree) (machines : List MachineView) (more : Logged)
        → AreNew G.Register O.Owners S.Store register.now owners.now store.now x s → VolumeRests (S.made store.now) x s held truth → E.stands engine.now truth no_hints tree → HaveNothing machines
        → NodesStand G.Register O.Owners S.Store (E.stands engine.now) (E.step engine.now) register.now owners.now store.now x [] opening_clocks machines (opening_course s held more truth) tree }
    ensures opening { E.stands engine.now (E.opening_truth engine.now) no_hints (E.opening engine.now) }
{
    let _register = register;
    let _owners = owners;
    let _store = store;
    let _engine = engine;
}
