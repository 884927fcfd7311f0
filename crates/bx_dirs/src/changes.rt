//! Entries added to directories, and taken out.

ghost use Rattle.std.specs.Prelude.{◌≡◌, ◌<◌, ◌≤◌, ℕ, List, length, Contains, Some, OnOk, OnErr};
ghost use Rattle.bx_model.specs.declared.tree.Tree.{Tree};
ghost use Rattle.bx_tree_files.specs.declared.file.File.{File};
ghost use Rattle.bx_tree_files.specs.declared.file.Name.{Name};
ghost use Rattle.bx_tree_files.specs.Entries.{entry_named, with_name, without_name};
ghost use Rattle.bx_truth.specs.Keys.{entry_key, name_key};
ghost use Rattle.bx_views.specs.Attempts.{IsHeldDraft};
ghost use Rattle.bx_views.specs.Truths.{Truth};
ghost use Rattle.bx_leaves.specs.Changes.{NeedsUnheld};
ghost use Rattle.bx_leaves.specs.Leaves.{RemovesAt};
ghost use Rattle.bx_dirs.specs.Changes.{AddsAt, AddsIn, OnAddPath, OnTakePath, PutsByName, PutsByNumber, TakesAt, TakesIn, entry_of};
ghost use Rattle.bx_dirs.specs.Edits.{EditsDirectory, IsDirectoryUnder};
ghost use Rattle.bx_dirs.specs.Entries.{HasEntries};

use bx_chunks::copy_of;
use bx_keys::{key_by_name, key_by_number, value_by_name, value_by_number};
use bx_leaves::blink::BlinkError;
use bx_leaves::{insert, remove};
use bx_records::Draft;
use bx_views::View;
use std::alloc::Global;

/// Adds an entry to the directory whose tree is under a root, by the root's handle. It changes two pages at most.
///
/// `Need` names a block that isn't held in that mode and is on the path of the walk to the leaf of the name's key, or of the number's, which are
/// to be held exclusively. `Present` comes exactly where an entry has the name (or the number), else `NoRoom` with a leaf's handle, or `Crowded`, as
/// they do of the two puts. `Stale` comes where what is held is no tree. On an error the draft is as it was.
pub fn add<V: View>(
    alloc: Global,
    draft: &mut Draft,
    view: &V,
    root: u64,
    number: u32,
    name: &[u8],
    handle: u64,
) -> Result<(), BlinkError>
    requires { length name.now ≤ 255 }
    ensures unchanged { OnErr result (draft.new ≡ draft.old) }
    ensures ends { AddsAt (V.held view.now) (V.hints view.now) draft.old draft.new root (entry_of number name.now handle) result }
    ensures list { (areas : ℕ) (truth : Truth) (names : List Name) → HasEntries areas (V.held view.now) (V.hints view.now) truth draft.old root names
        → ((other : Name) → Contains names other → other.number < number)
        → AddsIn areas (V.held view.now) (V.hints view.now) truth draft.old draft.new root names (entry_of number name.now handle) result }
    ensures tree { (areas : ℕ) (truth : Truth) (tree : Tree) (directory : ℕ) (file : File) (parent next : ℕ) (names : List Name)
        → IsDirectoryUnder areas (V.held view.now) (V.hints view.now) truth draft.old root tree directory file parent next names
        → ((other : Name) → Contains names other → other.number < number)
        → OnOk result (EditsDirectory areas (V.held view.now) (V.hints view.now) truth draft.old draft.new root tree directory file parent next (with_name names number name.now handle)) }
    ensures fair { NeedsUnheld (V.held view.now) (OnAddPath (V.held view.now) (V.hints view.now) draft.old root (entry_of number name.now handle)) result }
    ensures held { IsHeldDraft (V.held view.now) draft.old → OnOk result (IsHeldDraft (V.held view.now) draft.new) }
{
    add_entry(alloc, draft, view, root, name, (number, handle))
}

/// The same, by the two puts. The number and the handle of the entry are its place.
fn add_entry<V: View>(
    alloc: Global,
    draft: &mut Draft,
    view: &V,
    root: u64,
    name: &[u8],
    place: (u32, u64),
) -> Result<(), BlinkError>
    requires { length name.now ≤ 255 }
    ensures unchanged { OnErr result (draft.new ≡ draft.old) }
    ensures ends { AddsAt (V.held view.now) (V.hints view.now) draft.old draft.new root (entry_of place.0 name.now place.1) result }
{
    // for the proof: a draft has at most sixteen blocks, each once
    let _blocks = draft.blocks();
    let mut next = copy_of(alloc, draft)?;
    match put_by_name(alloc, &mut next, view, root, name, place) {
        Err(error) => return Err(error),
        Ok(()) => {}
    }
    match put_by_number(alloc, &mut next, view, root, name, place) {
        Err(error) => Err(error),
        Ok(()) => {
            *draft = next;
            Ok(())
        }
    }
}

/// Puts an entry under its name's key.
fn put_by_name<V: View>(
    alloc: Global,
    draft: &mut Draft,
    view: &V,
    root: u64,
    name: &[u8],
    place: (u32, u64),
) -> Result<(), BlinkError>
    requires { length name.now ≤ 255 }
    ensures unchanged { OnErr result (draft.new ≡ draft.old) }
    ensures ends { PutsByName (V.held view.now) (V.hints view.now) draft.old draft.new root (entry_of place.0 name.now place.1) result }
{
    let key = key_by_name(alloc, name)?;
    let value = value_by_name(alloc, place.0, place.1)?;
    insert(alloc, draft, view, root, key.bytes(), value.bytes())
}

/// Puts an entry under its number's key.
fn put_by_number<V: View>(
    alloc: Global,
    draft: &mut Draft,
    view: &V,
    root: u64,
    name: &[u8],
    place: (u32, u64),
) -> Result<(), BlinkError>
    requires { length name.now ≤ 255 }
    ensures unchanged { OnErr result (draft.new ≡ draft.old) }
    ensures ends { PutsByNumber (V.held view.now) (V.hints view.now) draft.old draft.new root (entry_of place.0 name.now place.1) result }
{
    let key = key_by_number(alloc, place.0)?;
    let value = value_by_number(alloc, place.1, name)?;
    insert(alloc, draft, view, root, key.bytes(), value.bytes())
}

/// Takes an entry out of the directory whose tree is under a root, by the root's handle: the entry with a name and its number, which `lookup`
/// tells. It changes two pages at most.
///
/// `Need` and `Stale` come as they do of `add`. `Absent` comes exactly where no entry has the name or the number, else `Crowded` as it does of
/// the two changes. On an error the draft is as it was.
pub fn take<V: View>(
    alloc: Global,
    draft: &mut Draft,
    view: &V,
    root: u64,
    number: u32,
    name: &[u8],
) -> Result<(), BlinkError>
    ensures unchanged { OnErr result (draft.new ≡ draft.old) }
    ensures ends { TakesAt (V.held view.now) (V.hints view.now) draft.old draft.new root number name.now result }
    ensures list { (areas : ℕ) (truth : Truth) (names : List Name) (entry : Name) → HasEntries areas (V.held view.now) (V.hints view.now) truth draft.old root names
        → entry_named names name.now ≡ Some entry → entry.number ≡ number
        → TakesIn areas (V.held view.now) (V.hints view.now) truth draft.old draft.new root names name.now result }
    ensures tree { (areas : ℕ) (truth : Truth) (tree : Tree) (directory : ℕ) (file : File) (parent next : ℕ) (names : List Name) (entry : Name)
        → IsDirectoryUnder areas (V.held view.now) (V.hints view.now) truth draft.old root tree directory file parent next names
        → entry_named names name.now ≡ Some entry → entry.number ≡ number
        → OnOk result (EditsDirectory areas (V.held view.now) (V.hints view.now) truth draft.old draft.new root tree directory file parent next (without_name names name.now)) }
    ensures fair { NeedsUnheld (V.held view.now) (OnTakePath (V.held view.now) (V.hints view.now) draft.old root number name.now) result }
    ensures held { IsHeldDraft (V.held view.now) draft.old → OnOk result (IsHeldDraft (V.held view.now) draft.new) }
{
    take_entry(alloc, draft, view, root, number, name)
}

/// The same, by the two changes.
fn take_entry<V: View>(
    alloc: Global,
    draft: &mut Draft,
    view: &V,
    root: u64,
    number: u32,
    name: &[u8],
) -> Result<(), BlinkError>
    ensures unchanged { OnErr result (draft.new ≡ draft.old) }
    ensures ends { TakesAt (V.held view.now) (V.hints view.now) draft.old draft.new root number name.now result }
{
    // for the proof: a draft has at most sixteen blocks, each once
    let _blocks = draft.blocks();
    let mut next = copy_of(alloc, draft)?;
    take_by_name(alloc, &mut next, view, root, name)?;
    take_by_number(alloc, &mut next, view, root, number)?;
    *draft = next;
    Ok(())
}

/// Takes out what is under a name's key.
fn take_by_name<V: View>(
    alloc: Global,
    draft: &mut Draft,
    view: &V,
    root: u64,
    name: &[u8],
) -> Result<(), BlinkError>
    ensures unchanged { OnErr result (draft.new ≡ draft.old) }
    ensures ends { RemovesAt (V.held view.now) (V.hints view.now) draft.old draft.new root (name_key name.now) result }
{
    let key = key_by_name(alloc, name)?;
    remove(alloc, draft, view, root, key.bytes())
}

/// Takes out what is under a number's key.
fn take_by_number<V: View>(
    alloc: Global,
    draft: &mut Draft,
    view: &V,
    root: u64,
    number: u32,
) -> Result<(), BlinkError>
    ensures unchanged { OnErr result (draft.new ≡ draft.old) }
    ensures ends { RemovesAt (V.held view.now) (V.hints view.now) draft.old draft.new root (entry_key number) result }
{
    let key = key_by_number(alloc, number)?;
    remove(alloc, draft, view, root, key.bytes())
}
