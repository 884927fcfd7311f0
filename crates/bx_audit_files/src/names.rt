//! The entries of directories.

ghost use Rattle.std.specs.Prelude.{◌≡◌, ◌↔◌, ◌++◌, ◌∷◌, [], ℕ, List, All, take, drop, Some, IfOk, IfSome, IfNone, IsTrue, IsFalse};
ghost use Rattle.bx_audit_files.specs.Names.{IsPaired, names_in};
ghost use Rattle.bx_audit_pages.specs.Trees.{tree_of};
ghost use Rattle.bx_page.specs.Contents.{value_of};
ghost use Rattle.bx_tree_files.specs.declared.file.Name.{Name};
ghost use Rattle.bx_truth.specs.Keys.{name_key, name_value, entry_key, entry_value};
ghost use Rattle.bx_truth.specs.PageTrees.{Chunks, IsTree, map_of};
ghost use Rattle.bx_truth.specs.Stored.{AreNames};

use crate::fields::{by_name, by_number};
use bx_audit_pages::ReadTree;
use bx_base::{OutOfMemory, Raw};
use bx_keys::{key_by_name, key_by_number, value_by_name, value_by_number};
use bx_page::{Entry, Page};
use bx_tree_files::Name;
use std::alloc::Global;

/// The entries of a directory, in the order of their numbers, off its tree, which has each by its number and by its name. `None` exactly
/// where that isn't what the tree has.
pub(crate) fn names_of(alloc: Global, tree: &ReadTree) -> Result<Option<Vec<Name>>, OutOfMemory>
    ensures some { (chunks : Chunks) (root : ℕ) → IsTree chunks root (tree_of tree.now) → IfOk result (λ found. IfSome found (λ names. AreNames (map_of (tree_of tree.now)) names.items)) }
    ensures none { (chunks : Chunks) (root : ℕ) → IsTree chunks root (tree_of tree.now) → IfOk result (λ found. IfNone found ((names : List Name) → AreNames (map_of (tree_of tree.now)) names → ⊥)) }
{
    let mut names = Vec::new(alloc);
    let leaves = tree.leaves();
    for leaf in leaves {
        if !put_names(alloc, tree, leaf.page(), &mut names)? {
            return Ok(None);
        }
    }
    Ok(Some(names))
}

/// Puts the names of a leaf behind others, and says whether each entry of the leaf has its other one in the tree.
fn put_names(
    alloc: Global,
    tree: &ReadTree,
    page: &Page,
    names: &mut Vec<Name>,
) -> Result<bool, OutOfMemory>
    ensures yes { (chunks : Chunks) (root : ℕ) → IsTree chunks root (tree_of tree.now) → IfOk result (λ good. IsTrue good → All (IsPaired (map_of (tree_of tree.now))) page.now.entries) }
    ensures no { (chunks : Chunks) (root : ℕ) → IsTree chunks root (tree_of tree.now) → IfOk result (λ good. IsFalse good → All (IsPaired (map_of (tree_of tree.now))) page.now.entries → ⊥) }
    ensures names { IfOk result (λ good. IsTrue good → names.new.items ≡ names.old.items ++ names_in page.now.entries) }
{
    for at in 0..page.len() {
        if !put_at(alloc, tree, page, at, names)? {
            return Ok(false);
        }
    }
    Ok(true)
}

/// The same of the entry at a place, if there is one.
fn put_at(
    alloc: Global,
    tree: &ReadTree,
    page: &Page,
    at: usize,
    names: &mut Vec<Name>,
) -> Result<bool, OutOfMemory>
    ensures yes { (chunks : Chunks) (root : ℕ) → IsTree chunks root (tree_of tree.now) → IfOk result (λ good. IsTrue good → All (IsPaired (map_of (tree_of tree.now))) (take 1 (drop at page.now.entries))) }
    ensures no { (chunks : Chunks) (root : ℕ) → IsTree chunks root (tree_of tree.now) → IfOk result (λ good. IsFalse good → All (IsPaired (map_of (tree_of tree.now))) (take 1 (drop at page.now.entries)) → ⊥) }
    ensures names { IfOk result (λ good. IsTrue good → names.new.items ≡ names.old.items ++ names_in (take 1 (drop at page.now.entries))) }
{
    match page.entry(at) {
        None => Ok(true),
        Some(entry) => put_name(alloc, tree, entry, names),
    }
}

/// Puts the name behind others of which an entry is the one by number, and says whether the entry has its other one in the tree.
fn put_name(
    alloc: Global,
    tree: &ReadTree,
    entry: &Entry,
    names: &mut Vec<Name>,
) -> Result<bool, OutOfMemory>
    ensures yes { (chunks : Chunks) (root : ℕ) → IsTree chunks root (tree_of tree.now) → IfOk result (λ good. IsTrue good → IsPaired (map_of (tree_of tree.now)) entry.now) }
    ensures no { (chunks : Chunks) (root : ℕ) → IsTree chunks root (tree_of tree.now) → IfOk result (λ good. IsFalse good → IsPaired (map_of (tree_of tree.now)) entry.now → ⊥) }
    ensures names { IfOk result (λ good. IsTrue good → names.new.items ≡ names.old.items ++ names_in (entry.now ∷ [])) }
{
    if let Some(name) = by_number(alloc, entry)? {
        if !is_named(alloc, tree, &name)? {
            return Ok(false);
        }
        names.push(name)?;
        return Ok(true);
    }
    match by_name(alloc, entry)? {
        None => Ok(false),
        Some(name) => is_numbered(alloc, tree, &name),
    }
}

/// Whether the tree has a name by its name.
fn is_named(alloc: Global, tree: &ReadTree, name: &Name) -> Result<bool, OutOfMemory>
    ensures { (chunks : Chunks) (root : ℕ) → IsTree chunks root (tree_of tree.now) → IfOk result (λ there. IsTrue there ↔ (value_of (map_of (tree_of tree.now)) (name_key name.now.name) ≡ Some (name_value name.now.number name.now.handle))) }
{
    let key = key_by_name(alloc, name.name.bytes())?;
    let value = value_by_name(alloc, name.number, name.handle)?;
    Ok(has(tree, &key, &value))
}

/// Whether the tree has a name by its number.
fn is_numbered(alloc: Global, tree: &ReadTree, name: &Name) -> Result<bool, OutOfMemory>
    ensures { (chunks : Chunks) (root : ℕ) → IsTree chunks root (tree_of tree.now) → IfOk result (λ there. IsTrue there ↔ (value_of (map_of (tree_of tree.now)) (entry_key name.now.number) ≡ Some (entry_value name.now.handle name.now.name))) }
{
    let key = key_by_number(alloc, name.number)?;
    let value = value_by_number(alloc, name.handle, name.name.bytes())?;
    Ok(has(tree, &key, &value))
}

/// Whether the tree has a value for a key.
fn has(tree: &ReadTree, key: &Raw, value: &Raw) -> bool
    ensures { (chunks : Chunks) (root : ℕ) → IsTree chunks root (tree_of tree.now) → (IsTrue result ↔ (value_of (map_of (tree_of tree.now)) key.now ≡ Some value.now)) }
{
    match tree.get(key.bytes()) {
        None => false,
        Some(found) => is_same(found, value),
    }
}

/// Whether bytes are these.
fn is_same(found: &[u8], wanted: &Raw) -> bool
    ensures { IsTrue result ↔ (found.now ≡ wanted.now) }
{
    found == wanted.bytes()
}
