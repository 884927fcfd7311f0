//! That the root leads to each directory.

ghost use Rattle.std.specs.Prelude.{◌≡◌, ◌≢◌, ◌+◌, ◌⊎◌, ◌++◌, ℕ, List, length, All, AllPairs, ◌<◌, Contains, true, false, IfOk, OnOk, IfNone, IfSome};
ghost use Rattle.std.specs.BTreeSet.{btree_set_len};
ghost use Rattle.bx_audit_links.specs.Reached.{AreBelow, AreDirectories, IsFirstLost, IsNamed, Reaches};
ghost use Rattle.bx_tree_files.specs.Files.{IsFile};
ghost use Rattle.bx_tree_files.specs.Names.{names_of};
ghost use Rattle.bx_model.specs.declared.tree.Tree.{Tree};
ghost use Rattle.bx_model.specs.FileTrees.{IsFileTree};
ghost use Rattle.bx_tree_laws.specs.Ways.{IsIn};

use bx_base::OutOfMemory;
use bx_tree_files::{Body, DIRECTORY, Files, NameList};
use std::alloc::Global;
use std::collections::BTreeSet;

/// The least handle of a directory to which no way from the root leads; `None` exactly where there is none.
pub(crate) fn lost_in(alloc: Global, files: &Files, root: u64) -> Result<Option<u64>, OutOfMemory>
    requires rise { AllPairs (λ file later. file.handle < later.handle) files.now }
    requires are { All IsFile files.now }
    ensures none { IfOk result (λ found. IfNone found (AreBelow files.now root)) }
    ensures some { (tree : Tree) → tree.files ≡ files.now → tree.root ≡ root → IfOk result (λ found. IfSome found (λ handle. IsFileTree tree → ⊥)) }
    ensures is { IfOk result (λ found. IfSome found (IsFirstLost files.now root)) }
{
    let mut unreached = directories_but(alloc, files, root)?;
    let mut reached = Vec::new(alloc);
    reached.push(root)?;
    let mut at = 0;
    while at < reached.len() {
        let directory = reached[at];
        reach_from(files, directory, &mut unreached, &mut reached)?;
        at += 1;
    }
    match unreached.first() {
        None => Ok(None),
        Some(handle) => Ok(Some(*handle)),
    }
}

/// The directories but the root.
fn directories_but(alloc: Global, files: &Files, root: u64) -> Result<BTreeSet<u64>, OutOfMemory>
    requires { AllPairs (λ file later. file.handle < later.handle) files.now }
    ensures { IfOk result (AreDirectories files.now root) }
{
    let mut directories = BTreeSet::new(alloc);
    for file in files.iter() {
        if file.kind == DIRECTORY && file.handle != root {
            directories.insert(file.handle)?;
        }
    }
    Ok(directories)
}

/// Puts the directories that one names, and that weren't reached, behind those that were.
fn reach_from(
    files: &Files,
    directory: u64,
    unreached: &mut BTreeSet<u64>,
    reached: &mut Vec<u64>,
) -> Result<(), OutOfMemory>
    ensures reaches { OnOk result (Reaches (IsIn files.now directory) unreached.old reached.old.items unreached.new reached.new.items) }
    ensures total { OnOk result (btree_set_len unreached.new + length reached.new.items ≡ btree_set_len unreached.old + length reached.old.items) }
{
    let Some(file) = files.get(directory) else {
        return Ok(());
    };
    reach_body(&file.body, unreached, reached)?;
    Ok(())
}

/// The same of those that a file names.
fn reach_body(
    body: &Body,
    unreached: &mut BTreeSet<u64>,
    reached: &mut Vec<u64>,
) -> Result<(), OutOfMemory>
    ensures reaches { OnOk result (Reaches (IsNamed (names_of body.now)) unreached.old reached.old.items unreached.new reached.new.items) }
    ensures total { OnOk result (btree_set_len unreached.new + length reached.new.items ≡ btree_set_len unreached.old + length reached.old.items) }
{
    match body {
        Body::Names(_, _, names) => reach_names(names, unreached, reached),
        Body::Bytes(_) | Body::Path(_) => Ok(()),
    }
}

/// The same of those that entries name.
fn reach_names(
    names: &NameList,
    unreached: &mut BTreeSet<u64>,
    reached: &mut Vec<u64>,
) -> Result<(), OutOfMemory>
    ensures reaches { OnOk result (Reaches (IsNamed names.now) unreached.old reached.old.items unreached.new reached.new.items) }
    ensures total { OnOk result (btree_set_len unreached.new + length reached.new.items ≡ btree_set_len unreached.old + length reached.old.items) }
{
    for entry in names.iter() {
        reach_one(entry.handle, unreached, reached)?;
    }
    Ok(())
}

/// The same of one.
fn reach_one(
    handle: u64,
    unreached: &mut BTreeSet<u64>,
    reached: &mut Vec<u64>,
) -> Result<(), OutOfMemory>
    ensures reaches { OnOk result (Reaches (λ named. handle ≡ named) unreached.old reached.old.items unreached.new reached.new.items) }
    ensures total { OnOk result (btree_set_len unreached.new + length reached.new.items ≡ btree_set_len unreached.old + length reached.old.items) }
{
    if unreached.remove(&handle) {
        reached.push(handle)?;
    }
    Ok(())
}
