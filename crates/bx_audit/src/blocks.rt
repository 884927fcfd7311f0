//! The tree that the blocks of a volume stand for.

ghost use Rattle.std.specs.Prelude.{◌≡◌, ◌≤◌, ◌⊎◌, IfOk, IfErr, IsErrOf, OnOk};
ghost use Rattle.bx_audit.specs.Blocks.{IsTornBlock, StandForNoTree, error_of, blocks_of};
ghost use Rattle.bx_audit_owners.specs.Walks.{IsTreeOf, IsWalkedOn};
ghost use Rattle.bx_base.specs.Faults.{Rose};
ghost use Rattle.bx_homes.specs.Reading.{CanRead};
ghost use Rattle.bx_homes.specs.Slots.{AreBlocks};
ghost use Rattle.bx_overlay.specs.declared.error.AuditError.TheVariants.{DiskFault};
ghost use Rattle.bx_logs.specs.Members.{AreThere};
ghost use Rattle.bx_overlay.specs.Kept.{ReadsDisks};
ghost use Rattle.bx_overlay.specs.Refusals.{IsBreak, UnlessFault};
ghost use Rattle.bx_truth.specs.Stands.{StandsFor};
ghost use Rattle.bx_views.specs.Truths.{Truth};

use bx_audit_owners::{Walked, tree_on};
use bx_disk::Rack;
use bx_homes::{Blocks, WrongBlock, first_fault};
use bx_model::Tree;
use bx_overlay::{AuditError, Overlaid, VolumeDisks};
use std::alloc::Global;

/// The tree that the blocks of a volume stand for, that of the files that the walk from the root met. Torn where they stand for no file tree: of
/// the first block that isn't as the slots ask, or of what is wrong once they are right.
fn tree_of<B: Blocks>(
    alloc: Global,
    blocks: &mut B,
    areas: u16,
    walked: Walked,
) -> Result<Tree, AuditError>
    requires blocks { CanRead B.Blocks areas blocks.old }
    requires tree { IsTreeOf areas walked.tree.volume walked.tree }
    ensures any { B.tells blocks.old → IsWalkedOn (B.tells blocks.old) areas (B.stands blocks.old) walked → IfOk result (λ tree. (truth : Truth) → AreBlocks areas (B.stands blocks.old) truth → StandsFor areas truth tree) }
    ensures there { B.tells blocks.old → OnOk result ((truth : Truth) × AreBlocks areas (B.stands blocks.old) truth) }
    ensures is { IfOk result (λ tree. tree ≡ walked.tree) }
    ensures err { B.tells blocks.old → IsWalkedOn (B.tells blocks.old) areas (B.stands blocks.old) walked → IfErr result (λ error. IsBreak error ⊎ (IsTornBlock areas (B.stands blocks.old) error × StandForNoTree areas (B.stands blocks.old))) }
    ensures cause { IsErrOf result DiskFault → Rose (B.faults blocks.old) (B.faults blocks.new) }
    ensures later { B.faults blocks.old ≤ B.faults blocks.new }
    ensures counts { UnlessFault result (B.faults blocks.new ≡ B.faults blocks.old) }
    ensures keeps_telling { B.tells blocks.old → B.tells blocks.new }
    ensures keeps_lender { B.lender blocks.new ≡ B.lender blocks.old }
{
    if let Some(WrongBlock { at, found, wanted }) = first_fault(alloc, blocks, areas)? {
        return Err(AuditError::Torn(at, found, wanted));
    }
    match tree_on(alloc, blocks, areas, walked) {
        Ok(tree) => Ok(tree),
        Err(error) => Err(audit_error(error)),
    }
}

/// Why an audit fails, where what is read of its trees does.
pub(crate) fn audit_error(error: bx_audit_pages::AuditError) -> AuditError
    ensures { result ≡ error_of error }
{
    match error {
        bx_audit_pages::AuditError::Torn(at, found, wanted) => AuditError::Torn(at, found, wanted),
        bx_audit_pages::AuditError::Fault => AuditError::DiskFault,
        bx_audit_pages::AuditError::OutOfMemory => AuditError::OutOfMemory,
    }
}

/// The tree that the disks of a volume hold, whose labels and logs were read.
pub(crate) fn tree_in<R: Rack>(
    alloc: Global,
    rack: &mut R,
    read: &VolumeDisks,
    walked: Walked,
) -> Result<Tree, AuditError>
    requires there { AreThere (R.state rack.old).sizes read.now.members }
    requires tree { IsTreeOf read.now.members.areas walked.tree.volume walked.tree }
    ensures any { R.tells rack.old → IsWalkedOn (Unit {0}) read.now.members.areas (blocks_of (R.state rack.old) read.now) walked → IfOk result (λ tree. (truth : Truth) → AreBlocks read.now.members.areas (blocks_of (R.state rack.old) read.now) truth → StandsFor read.now.members.areas truth tree) }
    ensures there { R.tells rack.old → OnOk result ((truth : Truth) × AreBlocks read.now.members.areas (blocks_of (R.state rack.old) read.now) truth) }
    ensures is { IfOk result (λ tree. tree ≡ walked.tree) }
    ensures err { R.tells rack.old → IsWalkedOn (Unit {0}) read.now.members.areas (blocks_of (R.state rack.old) read.now) walked → IfErr result (λ error. IsBreak error ⊎ (IsTornBlock read.now.members.areas (blocks_of (R.state rack.old) read.now) error × StandForNoTree read.now.members.areas (blocks_of (R.state rack.old) read.now))) }
    ensures rack { ReadsDisks R.Rack rack.old rack.new result }
{
    let members = read.members;
    let mut blocks = Overlaid::new(alloc, rack, members, read.newest.items());
    tree_of(alloc, &mut blocks, members.areas, walked)
}
