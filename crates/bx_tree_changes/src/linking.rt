//! The procedure that gives a file one more name: LINK.

ghost use Rattle.std.specs.Prelude.{◌≡◌, IfOk, OnErr};
ghost use Rattle.bx_model.specs.Making.{link as link_of};
ghost use Rattle.bx_model.specs.Steps.{done};

use crate::places::{directory_for, entry_error, entry_of};
use bx_base::OutOfMemory;
use bx_model::{Call, DQUOT, EXIST, NFS_OK, PERM, Reply, STALE, Tree, Want};
use bx_tree_files::{DIRECTORY, Edit, Files};
use bx_tree_reads::named;

/// The most names of a file.
const MOST_LINKS: u32 = 32000;

/// LINK: one more name for a file.
pub fn link(
    tree: &mut Tree,
    call: &Call,
    from: &[u8],
    at: &[u8],
    name: &[u8],
    now: (u32, u32),
    spare: u32,
) -> Result<Reply, OutOfMemory>
    ensures ok { IfOk result (λ reply. done tree.old (link_of tree.old call.now from.now at.now name.now now spare) ≡ (reply, tree.new)) }
    ensures err { OnErr result (tree.new ≡ tree.old) }
{
    let Some(file) = named(tree, from) else {
        return Ok(Reply::Status(STALE));
    };
    let directory = match directory_for(tree, call, at, name, Want::Change) {
        Ok(directory) => directory,
        Err(status) => return Ok(Reply::Status(status)),
    };
    if file.kind == DIRECTORY {
        return Ok(Reply::Status(PERM));
    }
    if entry_of(directory, name).is_some() {
        return Ok(Reply::Status(EXIST));
    }
    if file.nlink >= MOST_LINKS {
        return Ok(Reply::Status(DQUOT));
    }
    if let Some(status) = entry_error(directory, spare) {
        return Ok(Reply::Status(status));
    }
    let (parent, handle) = (directory.handle, file.handle);
    tree.files.link(parent, name, handle, now)?;
    Ok(Reply::Status(NFS_OK))
}
