//! The audit.

ghost use Rattle.std.specs.Prelude.{◌≡◌, ◌⊎◌, IfOk, IfErr};
ghost use Rattle.bx_audit.specs.Audited.{IsListed, IsAuditRefusal, StandFor};
ghost use Rattle.bx_model.specs.declared.tree.Tree.{Tree as ModelTree};
ghost use Rattle.bx_model.specs.Listing.{listing};
ghost use Rattle.bx_overlay.specs.Kept.{ReadsDisks};
ghost use Rattle.bx_overlay.specs.Refusals.{IsBreak};

use crate::blocks::tree_in;
use crate::listing::Listing;
use crate::walks::walked_in;
use bx_disk::Rack;
use bx_global::GlobalState;
use bx_homes::volume::{one_first_label, one_tree_stands};
use bx_overlay::{AuditError, read_disks, refused_disks_show_no_tree, what_is_read_is_shown};
use std::alloc::Global;

/// Reads the file tree that a volume's disks hold in a global state, and lists it. Ok says that there is a file tree that the disks stand
/// for as they read, and that this is its listing; a refusal, that there is none. Refused are, in this order: disks without a label,
/// without a state of theirs, without a source, or with a source that has no label; logs that aren't there or that clash; then what the
/// walk from the root meets, over directories and files, and that isn't as it should be or has two owners; the first of these chunks, in the
/// order of their handles, whose slot has another word, or is marked; links and parents of the files that it meets; then, where nothing
/// that it meets is wrong, the first block that isn't as its area's slots ask; marked slots, in the order of their handles, whose chunks
/// are no dead inodes, or which have what another owner has; and at last chunks that nothing has.
///
/// Of a block that is torn its number is told, the handle that is `found` in its header, and the one that is `wanted`: the one by which the
/// block is named, or that of its slot; 0 where nothing names it.
///
/// The disks stay as they were. Each chunk that the walk meets is read once for it, and each block once for its slot; the chunks of dead
/// inodes once besides, and so are the own blocks of areas; a block that is torn is read once more.
pub fn audit<R: Rack>(
    alloc: Global,
    rack: &mut R,
    state: &GlobalState,
) -> Result<Listing, AuditError>
    ensures ok { R.tells rack.old → IfOk result (IsListed (R.state rack.old) state.now) }
    ensures err { R.tells rack.old → IfErr result (λ error. IsBreak error ⊎ IsAuditRefusal (R.state rack.old) state.now error) }
    ensures stands { R.tells rack.old → (tree : ModelTree) → StandFor (R.state rack.old) state.now tree → IfOk result (λ listed. listed.text ≡ listing tree) }
    ensures breaks { R.tells rack.old → (tree : ModelTree) → StandFor (R.state rack.old) state.now tree → IfErr result IsBreak }
    ensures rack { ReadsDisks R.Rack rack.old rack.new result }
{
    one_tree_stands();
    listed_by(alloc, rack, state)
}

/// The listing of the tree that the disks stand for, or why there is none.
fn listed_by<R: Rack>(
    alloc: Global,
    rack: &mut R,
    state: &GlobalState,
) -> Result<Listing, AuditError>
    ensures ok { R.tells rack.old → IfOk result (IsListed (R.state rack.old) state.now) }
    ensures err { R.tells rack.old → IfErr result (λ error. IsBreak error ⊎ IsAuditRefusal (R.state rack.old) state.now error) }
    ensures rack { ReadsDisks R.Rack rack.old rack.new result }
{
    what_is_read_is_shown();
    refused_disks_show_no_tree();
    one_first_label();
    let read = read_disks(alloc, rack, state)?;
    let walked = walked_in(alloc, rack, &read)?;
    let tree = tree_in(alloc, rack, &read, walked)?;
    let text = bx_listing::listing(&tree)?;
    Ok(Listing {
        text,
        doubt: read.doubt,
    })
}
