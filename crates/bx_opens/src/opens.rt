//! What makes clusters.

ghost use Rattle.std.specs.Prelude.{◌≡◌, ◌≤◌, ℕ, [], List, IfOk, IsErrOf, OnOk};
ghost use Rattle.bx_base.specs.Faults.{Rose};
ghost use Rattle.bx_cluster.specs.Closing.{Closes, IsCrashed};
ghost use Rattle.bx_cluster.specs.Runs.{StepOf};
ghost use Rattle.bx_disk.specs.Disks.{Disks};
ghost use Rattle.bx_disk.specs.declared.fault.RackError.TheVariants.{Fault, OutOfMemory as NoMemory};
ghost use Rattle.bx_history.specs.Parts.{Part};
ghost use Rattle.bx_history.specs.Trace.{Entry};
ghost use Rattle.bx_model.specs.declared.tree.Tree.{Tree};
ghost use Rattle.bx_opens.specs.Opening.{AreOpenAlone, IsNew, IsShape, first_tree};
ghost use Rattle.bx_rack_audit.specs.Alone.{StandAlone};
ghost use Rattle.bx_opens.specs.AtOnce.{IsAtOnce};
ghost use Rattle.bx_steps.specs.Steps.{StepOfTree};

use bx_cluster::Cluster;
use bx_disk::{Rack, RackError};
use std::alloc::Global;

/// How many nodes, devices and areas a cluster has.
#[derive(Clone, Copy, PartialEq, Eq)]
pub struct Shape {
    /// How many nodes: 1 to 4.
    pub nodes: u32,
    /// How many devices, each mirrored on two disks: 1 to 4.
    pub devices: u32,
    /// How many areas of the volume: 1 to 64.
    pub areas: u16,
}

/// What makes clusters of volumes that hold a file tree, and what is said of them.
pub trait Opens {
    /// The clusters that it makes.
    type Made: Cluster;

    /// Makes the disks of a rack anew a volume with this number, and a cluster of its machines: all are up, in their first boot, each node has its session, and no
    /// call came. After an error the rack isn't used again.
    fn begin<R: Rack>(
        alloc: Global,
        rack: &mut R,
        volume: u64,
        shape: Shape,
    ) -> Result<Self::Made, RackError>
        requires shape { IsShape shape }
        ensures led { R.tells rack.old → IfOk result (λ made. Self.Made.led made (R.state rack.new) (first_tree volume shape.areas) []) }
        ensures new { IfOk result (λ made. IsNew shape (Self.Made.seen made)) }
        ensures room { IfOk result (λ made. Self.Made.room made (R.state rack.new).sizes) }
        ensures events { IfOk result (λ made. Self.Made.events made ≡ 0) }
        ensures cause { IsErrOf result Fault → Rose (R.faults rack.old) (R.faults rack.new) }
        ensures memory { IsErrOf result NoMemory → R.faults rack.new ≡ R.faults rack.old }
        ensures no_fault { OnOk result (R.faults rack.new ≡ R.faults rack.old) }
        ensures later { R.faults rack.old ≤ R.faults rack.new }
        ensures keeps_telling { R.tells rack.old → R.tells rack.new };

    /// A step of their trees is one of a file tree.
    ghost acts: { (made : Self.Made) (tree next : Tree) (entry : Entry) → Self.Made.steps made tree entry next → StepOf StepOfTree tree entry next };

    /// The calls that touch no block are those that they answer at once.
    ghost answers: { (made : Self.Made) (bytes : List ℕ) → IsAtOnce bytes → Self.Made.at_once made bytes };

    /// Once what is unsure was lost, the disks show the tree; or one to which calls in doubt lead.
    ghost closes: { (made : Self.Made) (x y : Disks) (tree : Tree) (parts : List Part) → Self.Made.led made x tree parts → IsCrashed x y
        → Closes (Self.Made.steps made) (Self.Made.at_once made) (StandAlone y) (AreOpenAlone y) tree parts };
}
