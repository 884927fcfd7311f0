//! The slots of the chunks that the walk from the root met, over the disks of a volume.

ghost use Rattle.std.specs.Prelude.{◌≡◌, ◌≤◌, ◌⊎◌, IfErr, IsErrOf, OnOk};
ghost use Rattle.bx_audit.specs.Blocks.{blocks_of};
ghost use Rattle.bx_audit.specs.Walked.{TellsSlot};
ghost use Rattle.bx_audit_owners.specs.Holding.{holdings_of};
ghost use Rattle.bx_audit_owners.specs.Words.{AreWorded};
ghost use Rattle.bx_base.specs.Faults.{Rose};
ghost use Rattle.bx_homes.specs.Reading.{CanRead};
ghost use Rattle.bx_logs.specs.Members.{AreThere};
ghost use Rattle.bx_overlay.specs.declared.error.AuditError.TheVariants.{DiskFault};
ghost use Rattle.bx_overlay.specs.Kept.{ReadsDisks};
ghost use Rattle.bx_overlay.specs.Refusals.{IsBreak, UnlessFault};

use crate::blocks::audit_error;
use bx_audit_owners::{Walked, check_words};
use bx_disk::Rack;
use bx_homes::Blocks;
use bx_overlay::{AuditError, Overlaid, VolumeDisks};
use std::alloc::Global;

/// Whether the slots of the chunks that the walk met are as these ask. Torn exactly where one isn't, of the first of these chunks.
fn check_words_on<B: Blocks>(
    alloc: Global,
    blocks: &mut B,
    areas: u16,
    walked: &Walked,
) -> Result<(), AuditError>
    requires blocks { CanRead B.Blocks areas blocks.old }
    ensures ok { B.tells blocks.old → OnOk result (AreWorded areas (B.stands blocks.old) (holdings_of walked.now.holders)) }
    ensures err { B.tells blocks.old → IfErr result (λ error. IsBreak error ⊎ TellsSlot areas (B.stands blocks.old) (holdings_of walked.now.holders) error) }
    ensures cause { IsErrOf result DiskFault → Rose (B.faults blocks.old) (B.faults blocks.new) }
    ensures later { B.faults blocks.old ≤ B.faults blocks.new }
    ensures counts { UnlessFault result (B.faults blocks.new ≡ B.faults blocks.old) }
    ensures keeps_telling { B.tells blocks.old → B.tells blocks.new }
    ensures keeps_lender { B.lender blocks.new ≡ B.lender blocks.old }
{
    match check_words(alloc, blocks, areas, walked) {
        Ok(()) => Ok(()),
        Err(error) => Err(audit_error(error)),
    }
}

/// The same over the disks of a volume whose labels and logs were read.
pub(crate) fn check_words_in<R: Rack>(
    alloc: Global,
    rack: &mut R,
    read: &VolumeDisks,
    walked: &Walked,
) -> Result<(), AuditError>
    requires { AreThere (R.state rack.old).sizes read.now.members }
    ensures ok { R.tells rack.old → OnOk result (AreWorded read.now.members.areas (blocks_of (R.state rack.old) read.now) (holdings_of walked.now.holders)) }
    ensures err { R.tells rack.old → IfErr result (λ error. IsBreak error ⊎ TellsSlot read.now.members.areas (blocks_of (R.state rack.old) read.now) (holdings_of walked.now.holders) error) }
    ensures rack { ReadsDisks R.Rack rack.old rack.new result }
{
    let members = read.members;
    let mut blocks = Overlaid::new(alloc, rack, members, read.newest.items());
    check_words_on(alloc, &mut blocks, members.areas, walked)
}
