//! Who may look into a directory.

ghost use Rattle.std.specs.Prelude.{◌≡◌, IfOk};
ghost use Rattle.bx_reads.specs.bx_inodes.specs.Heads.{head_of as head_by};
ghost use Rattle.bx_directory_reads.specs.Lookups.{open_error};

use bx_base::OutOfMemory;
use bx_layout::Inode;
use bx_model::{ACCES, Call, NOTDIR, Want, may};
use bx_reads::inodes::head_of;
use bx_tree_files::DIRECTORY;
use std::alloc::Global;

/// The error that a caller meets who wants this of a directory, the file with a handle, by its inode; `None` exactly where there is none.
pub(crate) fn directory_error(
    alloc: Global,
    call: &Call,
    handle: u64,
    inode: &Inode,
    want: Want,
) -> Result<Option<u32>, OutOfMemory>
    ensures { IfOk result (λ error. error ≡ open_error want call.now (head_by handle inode.now)) }
{
    if inode.kind != DIRECTORY {
        return Ok(Some(NOTDIR));
    }
    let head = head_of(alloc, handle, inode)?;
    if may(call, &head, want) {
        Ok(None)
    } else {
        Ok(Some(ACCES))
    }
}
