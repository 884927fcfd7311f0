//! The errors of a move: RENAME's, once its names are found.

ghost use Rattle.std.specs.Prelude.{◌≡◌, ◌<◌, MatchOption, None, Ok, Err};
ghost use Rattle.std.specs.Option.{option_copied};
ghost use Rattle.bx_model.specs.Moves.{way_errors};
ghost use Rattle.bx_tree_files.specs.Names.{next_of, parent_of as parent_of_body};
ghost use Rattle.bx_model.specs.Renaming.{changes_parent as changes_parent_of, move_errors, parent_at as parent_of_handle, replace_errors};

use bx_model::{ISDIR, NAMETOOLONG, NOTDIR, NOTEMPTY, PERM, Tree};
use bx_tree_changes::{entry_error, has_entries};
use bx_tree_files::{Body, DIRECTORY, File};

/// The most moves to a parent on the way from a directory to the root.
const MOST_MOVES: u32 = 512;

/// The first error of a move, in the place of another file where there is one.
pub(crate) fn move_error(
    tree: &Tree,
    source: &File,
    target: &File,
    moved: &File,
    other: Option<&File>,
    spare: u32,
) -> Option<u32>
    ensures found { MatchOption result
        (move_errors tree.now source.now target.now moved.now (option_copied other.entry) spare ≡ Ok tt)
        (λ status. move_errors tree.now source.now target.now moved.now (option_copied other.entry) spare ≡ Err status) }
    ensures number { result ≡ None → next_of target.now.body < 4294967295 }
{
    if changes_parent(source, target, moved) {
        let found = way_error(tree, target.handle, moved.handle);
        if found.is_some() {
            return found;
        }
    }
    let found = replace_error(moved, other);
    if found.is_some() {
        return found;
    }
    entry_error(target, spare)
}

/// The first error of a directory's move into another: that one is below it, or too deep.
fn way_error(tree: &Tree, directory: u64, handle: u64) -> Option<u32>
    ensures { MatchOption result
        (way_errors tree.now 512 directory handle ≡ Ok tt)
        (λ status. way_errors tree.now 512 directory handle ≡ Err status) }
{
    let mut at = directory;
    for _moves in 0..MOST_MOVES {
        if at == handle {
            return Some(PERM);
        }
        if at == tree.root {
            return None;
        }
        at = parent_at(tree, at);
    }
    end_error(tree, at, handle)
}

/// The first error of a way that ends at a directory.
fn end_error(tree: &Tree, directory: u64, handle: u64) -> Option<u32>
    ensures { MatchOption result
        (way_errors tree.now 0 directory handle ≡ Ok tt)
        (λ status. way_errors tree.now 0 directory handle ≡ Err status) }
{
    if directory == handle {
        Some(PERM)
    } else if directory == tree.root {
        None
    } else {
        Some(NAMETOOLONG)
    }
}

/// The parent of the directory with a handle; where there is none, that handle.
fn parent_at(tree: &Tree, handle: u64) -> u64
    ensures { result ≡ parent_of_handle tree.now.files handle }
{
    match tree.files.get(handle) {
        Some(file) => parent_of(file),
        None => handle,
    }
}

/// The parent of a directory; of another file 0.
fn parent_of(file: &File) -> u64
    ensures { result ≡ parent_of_body file.now.body }
{
    match &file.body {
        Body::Names(parent, _, _) => *parent,
        _ => 0,
    }
}

/// Whether a directory moves to another one.
pub(crate) fn changes_parent(source: &File, target: &File, moved: &File) -> bool
    ensures { result ≡ changes_parent_of source.now target.now moved.now }
{
    moved.kind == DIRECTORY && source.handle != target.handle
}

/// The first error of a file that takes the place of another one.
fn replace_error(moved: &File, other: Option<&File>) -> Option<u32>
    ensures { MatchOption result
        (replace_errors moved.now (option_copied other.entry) ≡ Ok tt)
        (λ status. replace_errors moved.now (option_copied other.entry) ≡ Err status) }
{
    let Some(other) = other else {
        return None;
    };
    let (comes, goes) = (moved.kind == DIRECTORY, other.kind == DIRECTORY);
    if comes && !goes {
        Some(NOTDIR)
    } else if !comes && goes {
        Some(ISDIR)
    } else if has_entries(other) {
        Some(NOTEMPTY)
    } else {
        None
    }
}
