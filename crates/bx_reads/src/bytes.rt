//! READ.

ghost use Rattle.std.specs.Prelude.{◌≡◌, ◌≤◌, IfOk};
ghost use Rattle.bx_files.specs.bx_inodes.specs.Fitting.{HintsFitAll};
ghost use Rattle.bx_files.specs.bx_inodes.specs.Heads.{head_of as head_by};
ghost use Rattle.bx_files.specs.bx_inodes.specs.Stands.{Stands};
ghost use Rattle.bx_files.specs.bx_inodes.specs.Stops.{NeedsOn, NeverInner};
ghost use Rattle.bx_model.specs.declared.tree.Tree.{Tree};
ghost use Rattle.bx_model.specs.Reading.{read as read_of};
ghost use Rattle.bx_views.specs.Truths.{IsTruth, Truth};
ghost use Rattle.bx_reads.specs.Answers.{IsOutcome};
ghost use Rattle.bx_reads.specs.Bytes.{OnReading, read_error as error_of};

use crate::files::named_inode;
use crate::shown::attributes_by;
use bx_base::OutOfMemory;
use bx_files::MOST_BYTES;
use bx_files::inodes::{Stop, head_of};
use bx_layout::Inode;
use bx_model::{ACCES, Call, ISDIR, NXIO, Reply, Want, may};
use bx_tree_files::{DIRECTORY, LINK};
use bx_views::View;
use std::alloc::Global;

/// READ (RFC 1094, section 2.2.7), of a volume with at most 64 areas: the attributes of the regular file that a file handle of the volume
/// names, and its bytes from an offset on, at most `count` and at most 8192, cut at the file's end.
///
/// `Need` names a block that isn't held, shared: that of the file's inode, or, where that is held, one on the path to the bytes. The
/// status is `STALE`, exactly where the file handle names no file, else `ISDIR` of a directory, `NXIO` of a link, and `ACCES` where the
/// caller may not read the file.
pub fn read<V: View>(
    alloc: Global,
    volume: u64,
    areas: u16,
    call: &Call,
    at: &[u8],
    offset: u32,
    count: u32,
    view: &V,
) -> Result<Reply, Stop>
    requires { areas ≤ 64 }
    ensures step { (truth : Truth) (tree : Tree) → IsTruth (V.held view.now) truth → Stands volume areas truth tree → HintsFitAll areas (V.hints view.now) truth
        → IsOutcome tree (read_of tree call.now at.now offset count) result }
    ensures need { NeedsOn areas (V.held view.now) (OnReading (V.held view.now) (V.hints view.now) volume areas at.now offset count) result }
    ensures inner { NeverInner result }
{
    match named_inode(alloc, volume, areas, at, view) {
        Err(stop) => Err(stop),
        Ok((handle, inode)) => {
            if let Some(status) = read_error(alloc, call, handle, &inode)? {
                return Err(Stop::Status(status));
            }
            let words = attributes_by(alloc, volume, handle, &inode)?;
            match bx_files::read(alloc, areas, &inode, offset, count.min(MOST_BYTES), view) {
                Err(stop) => Err(stop),
                Ok(bytes) => Ok(Reply::Bytes(words, bytes)),
            }
        }
    }
}

/// The error that a caller who reads the file with a handle meets, by its inode; `None` exactly where there is none.
fn read_error(
    alloc: Global,
    call: &Call,
    handle: u64,
    inode: &Inode,
) -> Result<Option<u32>, OutOfMemory>
    ensures { IfOk result (λ error. error ≡ error_of call.now (head_by handle inode.now)) }
{
    if inode.kind == DIRECTORY {
        return Ok(Some(ISDIR));
    }
    if inode.kind == LINK {
        return Ok(Some(NXIO));
    }
    let head = head_of(alloc, handle, inode)?;
    if may(call, &head, Want::Read) {
        Ok(None)
    } else {
        Ok(Some(ACCES))
    }
}
