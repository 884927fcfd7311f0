//! What makes files no file tree.

ghost use Rattle.std.specs.Prelude.{◌≡◌, ◌⊎◌, IfOk, IfNone, IfSome, IsTrue, IsFalse};
ghost use Rattle.bx_audit_links.specs.Children.{HasChildren, IsWrongIn};
ghost use Rattle.bx_audit_links.specs.Counted.{AreCounted};
ghost use Rattle.bx_audit_links.specs.InOrder.{IsInOrder};
ghost use Rattle.bx_audit_links.specs.Right.{IsOwnParent, IsToBlame, IsWrong, NamesItself};
ghost use Rattle.bx_model.specs.FileTrees.{IsFileTree};

use crate::children::wrong_child;
use crate::counts::{count_links, count_of};
use crate::reached::lost_in;
use crate::right::wrong_in;
use bx_base::OutOfMemory;
use bx_model::Tree;
use bx_tree_files::{Body, Files};
use std::alloc::Global;
use std::collections::BTreeMap;

/// The handle of a file because of which files are no file tree: the root, or else the first in the order of handles, or else the first
/// directory to which the root doesn't lead; where an entry of that file names no file, or a directory with another parent, what it names is answered in its
/// place. `None` exactly where they are one: the root is a directory, its own parent, and no
/// entry names it; entries name files that are there, of which a directory has theirs as its parent; links are counted; the root
/// leads to each directory. It is linear in the files and their entries, but for the logarithm of their count.
pub fn wrong_file(alloc: Global, tree: &Tree) -> Result<Option<u64>, OutOfMemory>
    requires { IsInOrder tree.now }
    ensures none { IfOk result (λ found. IfNone found (IsFileTree tree.now)) }
    ensures some { IfOk result (λ found. IfSome found (λ handle. IsFileTree tree.now → ⊥)) }
    ensures cause { IfOk result (λ found. IfSome found (IsToBlame tree.now)) }
{
    let counts = count_links(alloc, &tree.files)?;
    let Some(file) = wrong_handle(alloc, tree, &counts)? else {
        return Ok(None);
    };
    Ok(Some(blamed(&tree.files, file)))
}

/// What is to blame for a file that is wrong: what an entry of it names, that is no child of it, or else the file.
fn blamed(files: &Files, file: u64) -> u64
    ensures { IsWrongIn files.now file result ⊎ ((result ≡ file) × HasChildren files.now file) }
{
    match wrong_child(files, file) {
        Some(child) => child,
        None => file,
    }
}

/// The handle of such a file.
fn wrong_handle(
    alloc: Global,
    tree: &Tree,
    counts: &BTreeMap<u64, u64>,
) -> Result<Option<u64>, OutOfMemory>
    requires order { IsInOrder tree.now }
    requires counted { AreCounted tree.now.files counts.now }
    ensures none { IfOk result (λ found. IfNone found (IsFileTree tree.now)) }
    ensures some { IfOk result (λ found. IfSome found (λ handle. IsFileTree tree.now → ⊥)) }
    ensures cause { IfOk result (λ found. IfSome found (IsWrong tree.now)) }
{
    if !is_root(&tree.files, tree.root) || count_of(counts, tree.root) != 0 {
        return Ok(Some(tree.root));
    }
    if let Some(handle) = wrong_in(&tree.files, counts, tree.root) {
        return Ok(Some(handle));
    }
    let lost = lost_in(alloc, &tree.files, tree.root)?;
    Ok(lost)
}

/// Whether a handle is that of a directory that is its own parent.
fn is_root(files: &Files, root: u64) -> bool
    ensures yes { IsTrue result → IsOwnParent files.now root }
    ensures no { IsFalse result → IsOwnParent files.now root → ⊥ }
{
    match files.get(root) {
        None => false,
        Some(file) => is_own_parent(&file.body, root),
    }
}

fn is_own_parent(body: &Body, root: u64) -> bool
    ensures yes { IsTrue result → NamesItself body.now root }
    ensures no { IsFalse result → NamesItself body.now root → ⊥ }
{
    match body {
        Body::Names(parent, _, _) => *parent == root,
        Body::Bytes(_) | Body::Path(_) => false,
    }
}
