//! What a file tree asks of each file.

ghost use Rattle.std.specs.Prelude.{◌≡◌, ◌≢◌, ◌<◌, ◌≤◌, ℕ, List, All, AllPairs, Contains, true, IsTrue, IsFalse, IfNone, IfSome};
ghost use Rattle.bx_audit_links.specs.Counted.{AreCounted};
ghost use Rattle.bx_audit_links.specs.InOrder.{AreApart};
ghost use Rattle.bx_audit_links.specs.Right.{IsRight, IsWrongOf};
ghost use Rattle.bx_model.specs.FileTrees.{HasEntries, HasLinks, links_to};
ghost use Rattle.bx_tree_files.specs.declared.file.Body.TheVariants.{Names};
ghost use Rattle.bx_tree_files.specs.declared.file.File.{File as Kept};
ghost use Rattle.bx_tree_files.specs.declared.file.Name.{Name};
ghost use Rattle.bx_tree_files.specs.Files.{IsFile, is_directory as is_directory_file};

use crate::counts::count_of;
use crate::entries::{are_entries, directories_in};
use bx_tree_files::{Body, DIRECTORY, File, Files};
use std::collections::BTreeMap;

/// The handle of the first file, in the order of handles, that isn't as a file tree asks; `None` exactly where each file is.
pub(crate) fn wrong_in(files: &Files, counts: &BTreeMap<u64, u64>, root: u64) -> Option<u64>
    requires counted { AreCounted files.now counts.now }
    requires rise { AllPairs (λ file later. file.handle < later.handle) files.now }
    requires apart { (file : Kept) (parent next : ℕ) (names : List Name) → Contains files.now file → file.body ≡ Names parent next names → AreApart names }
    ensures none { IfNone result ((file : Kept) → Contains files.now file → IsRight files.now root file) }
    ensures some { IfSome result (IsWrongOf files.now root) }
    ensures are_files { All IsFile files.now }
{
    for file in files.iter() {
        if !is_right(files, counts, root, file) {
            return Some(file.handle);
        }
    }
    None
}

fn is_right(files: &Files, counts: &BTreeMap<u64, u64>, root: u64, file: &File) -> bool
    requires counted { AreCounted files.now counts.now }
    requires apart { (parent next : ℕ) (names : List Name) → file.now.body ≡ Names parent next names → AreApart names }
    ensures yes { IsTrue result → IsRight files.now root file.now }
    ensures no { IsFalse result → IsRight files.now root file.now → ⊥ }
{
    has_entries(files, file) && has_links(files, counts, file) && is_named(counts, root, file)
}

/// Whether the entries of a file are right; one that is no directory has none.
fn has_entries(files: &Files, file: &File) -> bool
    requires apart { (parent next : ℕ) (names : List Name) → file.now.body ≡ Names parent next names → AreApart names }
    ensures yes { IsTrue result → HasEntries files.now file.now.handle file.now.body }
    ensures no { IsFalse result → HasEntries files.now file.now.handle file.now.body → ⊥ }
{
    match &file.body {
        Body::Names(_, next, names) => are_entries(files, file.handle, *next, names),
        Body::Bytes(_) | Body::Path(_) => true,
    }
}

/// Whether the links of a file are counted.
fn has_links(files: &Files, counts: &BTreeMap<u64, u64>, file: &File) -> bool
    requires counted { AreCounted files.now counts.now }
    ensures yes { IsTrue result → HasLinks files.now file.now file.now.body }
    ensures no { IsFalse result → HasLinks files.now file.now file.now.body → ⊥ }
{
    let count = match &file.body {
        Body::Names(_, _, names) => directories_in(files, names).saturating_add(2),
        Body::Bytes(_) | Body::Path(_) => count_of(counts, file.handle),
    };
    count == u64::from(file.nlink)
}

/// Whether as many entries name a file as may: at least one unless it is the root, and at most one where it is a directory.
fn is_named(counts: &BTreeMap<u64, u64>, root: u64, file: &File) -> bool
    ensures yes { (files : List Kept) → AreCounted files counts.now → IsTrue result → file.now.handle ≢ root → 1 ≤ links_to files file.now.handle }
    ensures once { (files : List Kept) → AreCounted files counts.now → IsTrue result → is_directory_file file.now ≡ true → links_to files file.now.handle ≤ 1 }
    ensures no { (files : List Kept) → AreCounted files counts.now → IsFalse result → (file.now.handle ≢ root → 1 ≤ links_to files file.now.handle)
        → (is_directory_file file.now ≡ true → links_to files file.now.handle ≤ 1) → ⊥ }
{
    let count = count_of(counts, file.handle);
    (file.handle == root || count >= 1) && (file.kind != DIRECTORY || count <= 1)
}
