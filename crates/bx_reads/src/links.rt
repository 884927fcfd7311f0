//! READLINK.

ghost use Rattle.std.specs.Prelude.{◌≡◌, ◌≢◌, OnErr, OnOk, Ok, Err};
ghost use Rattle.bx_base.specs.declared.names.Mode.TheVariants.{Shared};
ghost use Rattle.bx_files.specs.bx_inodes.specs.declared.stop.Stop.TheVariants.{Status};
ghost use Rattle.bx_model.specs.declared.reply.Reply.TheVariants.{Path};
ghost use Rattle.bx_model.specs.declared.tree.Tree.{Tree};
ghost use Rattle.bx_model.specs.Reading.{readlink};
ghost use Rattle.bx_views.specs.Truths.{IsTruth, Truth};
ghost use Rattle.bx_files.specs.bx_inodes.specs.Stands.{Stands};
ghost use Rattle.bx_files.specs.bx_inodes.specs.Stops.{NeedsOn, NeverInner, OnInode};
ghost use Rattle.bx_reads.specs.Answers.{IsOutcome};

use crate::files::named_inode;
use bx_files::inodes::Stop;
use bx_layout::Inode;
use bx_model::{NXIO, Reply};
use bx_tree_files::LINK;
use bx_views::View;
use std::alloc::Global;

/// READLINK (RFC 1094, section 2.2.6): the path of the link that a file handle of the volume names.
///
/// `Need` names the block of its inode, shared, which isn't held then. The status is `STALE`, exactly where the file handle
/// names no file, and `NXIO`, exactly where the file is no link.
pub fn readlink<V: View>(
    alloc: Global,
    volume: u64,
    areas: u16,
    at: &[u8],
    view: &V,
) -> Result<Reply, Stop>
    ensures step { (truth : Truth) (tree : Tree) → IsTruth (V.held view.now) truth → Stands volume areas truth tree → IsOutcome tree (readlink tree at.now) result }
    ensures need { NeedsOn areas (V.held view.now) (OnInode volume at.now Shared) result }
    ensures inner { NeverInner result }
{
    match named_inode(alloc, volume, areas, at, view) {
        Err(stop) => Err(stop),
        Ok((_, inode)) => path_by(inode),
    }
}

/// What READLINK answers of a file, by its inode.
fn path_by(inode: Inode) -> Result<Reply, Stop>
    ensures link { inode.kind ≡ 5 → result ≡ Ok (Path inode.path) }
    ensures other { inode.kind ≢ 5 → result ≡ Err (Status 6) }
{
    if inode.kind == LINK {
        Ok(Reply::Path(inode.path))
    } else {
        Err(Stop::Status(NXIO))
    }
}
