//! What is told of a file that is made, or whose name is there.

ghost use Rattle.std.specs.Prelude.{◌≡◌, ◌<◌, ◌^◌, IfOk};
ghost use Rattle.bx_changes.specs.Procedures.{Tree};
ghost use Rattle.bx_inodes.specs.Inodes.{shown_size};
ghost use Rattle.bx_entries.specs.bx_making.specs.Made.{file_of};
ghost use Rattle.bx_model.specs.Reading.{handle_reply};
ghost use Rattle.bx_tree_files.specs.declared.file.Body.{Body};
ghost use Rattle.bx_tree_files.specs.Files.{size_of};

use bx_base::{OutOfMemory, Raw};
use bx_changes::reads::attributes_by;
use bx_layout::Inode;
use bx_model::Reply;
use bx_places::file_handle;
use std::alloc::Global;

/// The file handle and the attributes of the file with a handle, by its inode.
pub(crate) fn told_of(
    alloc: Global,
    volume: u64,
    handle: u64,
    inode: &Inode,
) -> Result<Reply, OutOfMemory>
    ensures { (tree : Tree) (body : Body) → tree.volume ≡ volume → size_of body ≡ shown_size inode.now → size_of body < 2 ^ 31
        → IfOk result (λ reply. reply ≡ handle_reply tree (file_of inode.now handle body)) }
{
    let words = attributes_by(alloc, volume, handle, inode)?;
    let bytes = Raw::of(alloc, file_handle(volume, handle).as_slice())?;
    Ok(Reply::Handle(bytes, words))
}
