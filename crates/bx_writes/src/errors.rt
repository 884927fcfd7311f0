//! The errors of WRITE.

ghost use Rattle.std.specs.Prelude.{◌≡◌, ◌+◌, ◌≤◌, ◌<◌, ◌^◌, IfOk, IfNone, MatchOption, Ok, Err};
ghost use Rattle.bx_inodes.specs.Heads.{head_of as head_by};
ghost use Rattle.bx_model.specs.Writing.{write_errors};
ghost use Rattle.bx_tree_files.specs.Changes.{most_bytes};

use bx_base::OutOfMemory;
use bx_inodes::head_of;
use bx_layout::Inode;
use bx_model::{ACCES, Call, FBIG, ISDIR, NXIO, Want, may};
use bx_tree_files::{DIRECTORY, File, LINK};
use std::alloc::Global;

/// The most bytes that a file has.
const MOST_BYTES: u64 = 2147483647;

/// The first error of writing so many bytes from an offset on into the file with a handle, by its inode, where blocks enough are free: `ISDIR`, `NXIO` of a
/// link, `ACCES` or `FBIG`. No bytes meet no limit.
pub(crate) fn write_error(
    alloc: Global,
    call: &Call,
    handle: u64,
    inode: &Inode,
    offset: u32,
    count: usize,
) -> Result<Option<u32>, OutOfMemory>
    requires { count < 2 ^ 63 }
    ensures error { IfOk result (λ found. MatchOption found (write_errors call.now (head_by handle inode.now) offset count 8 ≡ Ok tt) (λ status. write_errors call.now (head_by handle inode.now) offset count 8 ≡ Err status)) }
    ensures fits { IfOk result (λ found. IfNone found (0 < count → offset + count ≤ most_bytes)) }
{
    let head = head_of(alloc, handle, inode)?;
    Ok(first_error(call, &head, offset, count))
}

/// The same, by what the inode says of the file.
fn first_error(call: &Call, head: &File, offset: u32, count: usize) -> Option<u32>
    requires { count < 2 ^ 63 }
    ensures error { MatchOption result (write_errors call.now head.now offset count 8 ≡ Ok tt) (λ status. write_errors call.now head.now offset count 8 ≡ Err status) }
    ensures fits { IfNone result (0 < count → offset + count ≤ most_bytes) }
{
    if head.kind == DIRECTORY {
        return Some(ISDIR);
    }
    if head.kind == LINK {
        return Some(NXIO);
    }
    if !may(call, head, Want::Write) {
        return Some(ACCES);
    }
    if 0 < count && u64::from(offset) + count as u64 > MOST_BYTES {
        return Some(FBIG);
    }
    None
}
