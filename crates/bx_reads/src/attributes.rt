//! GETATTR.

ghost use Rattle.bx_base.specs.declared.names.Mode.TheVariants.{Shared};
ghost use Rattle.bx_model.specs.declared.tree.Tree.{Tree};
ghost use Rattle.bx_model.specs.Reading.{getattr};
ghost use Rattle.bx_views.specs.Truths.{IsTruth, Truth};
ghost use Rattle.bx_files.specs.bx_inodes.specs.Stands.{Stands};
ghost use Rattle.bx_files.specs.bx_inodes.specs.Stops.{NeedsOn, NeverInner, OnInode};
ghost use Rattle.bx_reads.specs.Answers.{IsOutcome};

use crate::files::named_inode;
use crate::shown::attributes_by;
use bx_files::inodes::Stop;
use bx_model::Reply;
use bx_views::View;
use std::alloc::Global;

/// GETATTR (RFC 1094, section 2.2.2): the attributes of the file that a file handle of the volume names.
///
/// `Need` names the block of its inode, shared, which isn't held then. The status is `STALE`, exactly where the file handle
/// names no file.
pub fn getattr<V: View>(
    alloc: Global,
    volume: u64,
    areas: u16,
    at: &[u8],
    view: &V,
) -> Result<Reply, Stop>
    ensures step { (truth : Truth) (tree : Tree) → IsTruth (V.held view.now) truth → Stands volume areas truth tree → IsOutcome tree (getattr tree at.now) result }
    ensures need { NeedsOn areas (V.held view.now) (OnInode volume at.now Shared) result }
    ensures inner { NeverInner result }
{
    match named_inode(alloc, volume, areas, at, view) {
        Err(stop) => Err(stop),
        Ok((handle, inode)) => {
            let words = attributes_by(alloc, volume, handle, &inode)?;
            Ok(Reply::Attributes(words))
        }
    }
}
