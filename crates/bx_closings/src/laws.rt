//! What the disks of a cluster show.

ghost use Rattle.std.specs.Prelude.{List};
ghost use Rattle.bx_closings.specs.Boxes.{IsOfVolume, LedTo, answers_at_once};
ghost use Rattle.bx_cluster.specs.Closing.{Closes, IsCrashed};
ghost use Rattle.bx_cluster.specs.Runs.{StepOf};
ghost use Rattle.bx_disk.specs.Disks.{Disks};
ghost use Rattle.bx_history.specs.Parts.{Part};
ghost use Rattle.bx_model.specs.declared.tree.Tree.{Tree};
ghost use Rattle.bx_opens.specs.Opening.{AreOpenAlone};
ghost use Rattle.bx_rack_audit.specs.Alone.{StandAlone};
ghost use Rattle.bx_steps.specs.Steps.{StepOfTree};

use bx_devices::Devices;
use bx_engine::BoxFs;
use bx_locks::Locks;
use bx_paxos_cluster::Paxos;
use bx_world::World;

/// Once what was unsure is lost, the disks show the tree that a run leads to, or the one after some of the calls in doubt, of which there is one in a log slot at most. By their own cells they
/// tell the state in which they do. Of the calls that lack a point those have open records which the tree is after, in the order of their slots, and no others.
pub fn what_disks_show(world: &World<Paxos, Locks, Devices, BoxFs>)
    ensures { (x y : Disks) (first : Tree) (parts : List Part) → LedTo world.now x first parts → IsOfVolume world.now first → IsCrashed x y
        → Closes (StepOf StepOfTree) (answers_at_once world.now) (StandAlone y) (AreOpenAlone y) first parts }
{
    let _world = world;
}
