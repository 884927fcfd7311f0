//! The walk from the root over the disks of a volume.

ghost use Rattle.std.specs.Prelude.{◌≡◌, ◌⊎◌, IfOk, IfErr, OnOk};
ghost use Rattle.bx_audit.specs.Blocks.{StandForNoTree, blocks_of};
ghost use Rattle.bx_audit.specs.Walked.{AreHeaded, IsWrongChunk, IsWrongFromRoot, NamesFile};
ghost use Rattle.bx_audit_links.specs.InOrder.{IsInOrder};
ghost use Rattle.bx_audit_owners.specs.Holding.{holdings_of};
ghost use Rattle.bx_audit_owners.specs.Walks.{IsTreeOf, IsWalked, IsWrongMet};
ghost use Rattle.bx_audit_owners.specs.Words.{AreWorded};
ghost use Rattle.bx_audit_pages.specs.Errors.{Counts, IfTorn};
ghost use Rattle.bx_audit_pages.specs.Reading.{ReadsChunks};
ghost use Rattle.bx_homes.specs.Reading.{CanRead};
ghost use Rattle.bx_logs.specs.Members.{AreThere};
ghost use Rattle.bx_model.specs.FileTrees.{IsFileTree};
ghost use Rattle.bx_overlay.specs.declared.error.AuditError.TheVariants.{DiskFault};
ghost use Rattle.bx_overlay.specs.Kept.{ReadsDisks};
ghost use Rattle.bx_overlay.specs.Refusals.{IsBreak};
ghost use Rattle.bx_truth.specs.PageTrees.{Chunks};

use crate::links::block_in;
use crate::words::check_words_in;
use bx_audit_links::wrong_file;
use bx_audit_owners::{Walked, walk};
use bx_audit_pages::AuditError as TreeError;
use bx_disk::Rack;
use bx_homes::Blocks;
use bx_model::Tree;
use bx_overlay::{AuditError, Overlaid, VolumeDisks};
use std::alloc::Global;

/// What the walk from the root finds. Torn where something that it meets is wrong, and so no truth with these blocks stands for a file tree.
fn walk_of<B: Blocks>(
    alloc: Global,
    blocks: &mut B,
    areas: u16,
    volume: u64,
) -> Result<Walked, TreeError>
    requires blocks { CanRead B.Blocks areas blocks.old }
    ensures ok { B.tells blocks.old → (chunks : Chunks) → AreHeaded areas (B.stands blocks.old) chunks → IfOk result (λ walked. IsWalked chunks (holdings_of walked.holders) walked.tree.files) }
    ensures tree { IfOk result (λ walked. IsTreeOf areas volume walked.tree) }
    ensures torn { B.tells blocks.old → (chunks : Chunks) → AreHeaded areas (B.stands blocks.old) chunks → IfTorn result (λ at found wanted. IsWrongMet chunks wanted) }
    ensures none { B.tells blocks.old → IfTorn result (λ at found wanted. StandForNoTree areas (B.stands blocks.old)) }
    ensures blocks { ReadsChunks B.Blocks blocks.old blocks.new result }
{
    walk(alloc, blocks, areas, volume)
}

/// The same over the disks of a volume whose labels and logs were read.
fn walk_in<R: Rack>(alloc: Global, rack: &mut R, read: &VolumeDisks) -> Result<Walked, TreeError>
    requires { AreThere (R.state rack.old).sizes read.now.members }
    ensures ok { R.tells rack.old → (chunks : Chunks) → AreHeaded read.now.members.areas (blocks_of (R.state rack.old) read.now) chunks → IfOk result (λ walked. IsWalked chunks (holdings_of walked.holders) walked.tree.files) }
    ensures tree { IfOk result (λ walked. IsTreeOf read.now.members.areas read.now.first.volume walked.tree) }
    ensures torn { R.tells rack.old → (chunks : Chunks) → AreHeaded read.now.members.areas (blocks_of (R.state rack.old) read.now) chunks → IfTorn result (λ at found wanted. IsWrongMet chunks wanted) }
    ensures none { R.tells rack.old → IfTorn result (λ at found wanted. StandForNoTree read.now.members.areas (blocks_of (R.state rack.old) read.now)) }
    ensures stays { R.state rack.new ≡ R.state rack.old }
    ensures counts { Counts result (R.faults rack.old) (R.faults rack.new) }
    ensures keeps_telling { R.tells rack.old → R.tells rack.new }
{
    let members = read.members;
    let mut blocks = Overlaid::new(alloc, rack, members, read.newest.items());
    walk_of(alloc, &mut blocks, members.areas, read.first.volume)
}

/// What the walk from the root finds on the disks of a volume. Torn where something that it meets is wrong: of that the handle is wanted, and
/// found is the one in the header of its block.
fn met_in<R: Rack>(alloc: Global, rack: &mut R, read: &VolumeDisks) -> Result<Walked, AuditError>
    requires { AreThere (R.state rack.old).sizes read.now.members }
    ensures ok { R.tells rack.old → (chunks : Chunks) → AreHeaded read.now.members.areas (blocks_of (R.state rack.old) read.now) chunks → IfOk result (λ walked. IsWalked chunks (holdings_of walked.holders) walked.tree.files) }
    ensures tree { IfOk result (λ walked. IsTreeOf read.now.members.areas read.now.first.volume walked.tree) }
    ensures err { R.tells rack.old → IfErr result (λ error. IsBreak error ⊎ (IsWrongChunk read.now.members.areas (blocks_of (R.state rack.old) read.now) error × StandForNoTree read.now.members.areas (blocks_of (R.state rack.old) read.now))) }
    ensures rack { ReadsDisks R.Rack rack.old rack.new result }
{
    match walk_in(alloc, rack, read) {
        Ok(walked) => Ok(walked),
        Err(TreeError::Torn(_, _, wanted)) => {
            let (at, found) = block_in(alloc, rack, read, wanted)?;
            Err(AuditError::Torn(at, found, wanted))
        }
        Err(TreeError::Fault) => Err(AuditError::DiskFault),
        Err(TreeError::OutOfMemory) => Err(AuditError::OutOfMemory),
    }
}

/// Whether the files that the walk from the root met are a file tree. Torn exactly where they are none: of the file that is to blame the
/// handle is wanted.
fn check_links<R: Rack>(
    alloc: Global,
    rack: &mut R,
    read: &VolumeDisks,
    tree: &Tree,
) -> Result<(), AuditError>
    requires there { AreThere (R.state rack.old).sizes read.now.members }
    requires order { IsInOrder tree.now }
    ensures is { OnOk result (IsFileTree tree.now) }
    ensures err { R.tells rack.old → IfErr result (λ error. IsBreak error ⊎ (NamesFile read.now.members.areas (blocks_of (R.state rack.old) read.now) tree.now error × (IsFileTree tree.now → ⊥))) }
    ensures rack { ReadsDisks R.Rack rack.old rack.new result }
{
    if let Some(handle) = wrong_file(alloc, tree)? {
        let (at, found) = block_in(alloc, rack, read, handle)?;
        return Err(AuditError::Torn(at, found, handle));
    }
    Ok(())
}

/// What the walk from the root finds on the disks of a volume, which is a file tree. Torn where something that it meets is wrong: a chunk, or
/// else a chunk's slot, or else links or parents.
pub(crate) fn walked_in<R: Rack>(
    alloc: Global,
    rack: &mut R,
    read: &VolumeDisks,
) -> Result<Walked, AuditError>
    requires { AreThere (R.state rack.old).sizes read.now.members }
    ensures ok { R.tells rack.old → (chunks : Chunks) → AreHeaded read.now.members.areas (blocks_of (R.state rack.old) read.now) chunks → IfOk result (λ walked. IsWalked chunks (holdings_of walked.holders) walked.tree.files) }
    ensures tree { IfOk result (λ walked. IsTreeOf read.now.members.areas read.now.first.volume walked.tree) }
    ensures words { R.tells rack.old → IfOk result (λ walked. AreWorded read.now.members.areas (blocks_of (R.state rack.old) read.now) (holdings_of walked.holders)) }
    ensures is { IfOk result (λ walked. IsFileTree walked.tree) }
    ensures err { R.tells rack.old → IfErr result (λ error. IsBreak error ⊎ (IsWrongFromRoot read.now.members.areas (blocks_of (R.state rack.old) read.now) error × StandForNoTree read.now.members.areas (blocks_of (R.state rack.old) read.now))) }
    ensures rack { ReadsDisks R.Rack rack.old rack.new result }
{
    let walked = met_in(alloc, rack, read)?;
    check_words_in(alloc, rack, read, &walked)?;
    check_links(alloc, rack, read, &walked.tree)?;
    Ok(walked)
}
