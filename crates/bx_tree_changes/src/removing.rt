//! The procedures that take entries out of directories: REMOVE and RMDIR.

ghost use Rattle.std.specs.Prelude.{◌≡◌, MatchResult, IfOk, Ok, Err};
ghost use Rattle.bx_tree_files.specs.Files.{IsFile};
ghost use Rattle.bx_model.specs.Removing.{file_to_remove as file_of_call, remove as remove_of, rmdir as rmdir_of, without_link};
ghost use Rattle.bx_model.specs.Steps.{done};

use crate::places::{directory_for, entry_of, has_entries};
use bx_model::{Call, ISDIR, NFS_OK, NOENT, NOTDIR, NOTEMPTY, Reply, STALE, Tree, Want};
use bx_tree_files::{DIRECTORY, Edit, File};

/// REMOVE: takes out the entry of a file that is no directory.
pub fn remove(tree: &mut Tree, call: &Call, at: &[u8], name: &[u8], now: (u32, u32)) -> Reply
    ensures { done tree.old (remove_of tree.old call.now at.now name.now now) ≡ (result, tree.new) }
{
    let (directory, file) = match file_to_remove(tree, call, at, name) {
        Ok(found) => found,
        Err(status) => return Reply::Status(status),
    };
    if file.kind == DIRECTORY {
        return Reply::Status(ISDIR);
    }
    let (from, handle, nlink) = (directory.handle, file.handle, file.nlink);
    tree.files.change(from, &Edit::TakenOut(name, false), now);
    unlink(tree, handle, nlink, now);
    Reply::Status(NFS_OK)
}

/// RMDIR: takes out the entry of an empty directory.
pub fn rmdir(tree: &mut Tree, call: &Call, at: &[u8], name: &[u8], now: (u32, u32)) -> Reply
    ensures { done tree.old (rmdir_of tree.old call.now at.now name.now now) ≡ (result, tree.new) }
{
    let (directory, file) = match file_to_remove(tree, call, at, name) {
        Ok(found) => found,
        Err(status) => return Reply::Status(status),
    };
    if file.kind != DIRECTORY {
        return Reply::Status(NOTDIR);
    }
    if has_entries(file) {
        return Reply::Status(NOTEMPTY);
    }
    let (from, handle) = (directory.handle, file.handle);
    tree.files.change(from, &Edit::TakenOut(name, true), now);
    tree.files.remove(handle);
    Reply::Status(NFS_OK)
}

/// Takes one name from a file that has so many; with its last one it leaves the tree.
pub fn unlink(tree: &mut Tree, handle: u64, nlink: u32, now: (u32, u32))
    ensures { tree.new ≡ without_link now tree.old handle nlink }
{
    if nlink <= 1 {
        tree.files.remove(handle);
    } else {
        tree.files.change(handle, &Edit::Unlinked, now);
    }
}

/// The directory whose entry is to go, and the file that the entry names; else the first error.
fn file_to_remove<'a>(
    tree: &'a Tree,
    call: &Call,
    at: &[u8],
    name: &[u8],
) -> Result<(&'a File, &'a File), u32>
    ensures found { MatchResult result
        (λ found. file_of_call tree.now call.now at.now name.now ≡ Ok (found.0.now, found.1.now))
        (λ status. file_of_call tree.now call.now at.now name.now ≡ Err status) }
    ensures is_file { IfOk result (λ found. IsFile found.1.now) }
{
    let directory = match directory_for(tree, call, at, name, Want::Change) {
        Ok(directory) => directory,
        Err(status) => return Err(status),
    };
    let Some(entry) = entry_of(directory, name) else {
        return Err(NOENT);
    };
    let Some(file) = tree.files.get(entry.handle) else {
        return Err(STALE);
    };
    Ok((directory, file))
}
