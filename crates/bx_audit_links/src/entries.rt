//! The entries of a directory.

ghost use Rattle.std.specs.Prelude.{◌≡◌, count_by, Contains, IsTrue, IsFalse};
ghost use Rattle.bx_audit_links.specs.Counted.{kept};
ghost use Rattle.bx_model.specs.FileTrees.{IsEntryOf, is_directory_at};
ghost use Rattle.bx_tree_files.specs.declared.file.Name.{Name as Named};

use crate::children::is_under;
use bx_tree_files::{DIRECTORY, Files, Name, NameList, is_bad};

/// The least number of an entry.
const FIRST: u32 = 3;

/// Whether the entries of the directory with a handle are as a file tree has them.
pub(crate) fn are_entries(files: &Files, directory: u64, next: u32, names: &NameList) -> bool
    ensures yes { IsTrue result → (entry : Named) → Contains names.now entry → IsEntryOf files.now directory next entry }
    ensures no { IsFalse result → ((entry : Named) → Contains names.now entry → IsEntryOf files.now directory next entry) → ⊥ }
{
    for entry in names.iter() {
        if !is_entry(files, directory, next, entry) {
            return false;
        }
    }
    true
}

fn is_entry(files: &Files, directory: u64, next: u32, entry: &Name) -> bool
    ensures yes { IsTrue result → IsEntryOf files.now directory next entry.now }
    ensures no { IsFalse result → IsEntryOf files.now directory next entry.now → ⊥ }
{
    if entry.number < FIRST || entry.number >= next || is_bad(entry.name.bytes()) {
        return false;
    }
    match files.get(entry.handle) {
        None => false,
        Some(file) => is_under(&file.body, directory),
    }
}

/// How many of the entries of a directory name directories.
pub(crate) fn directories_in(files: &Files, names: &NameList) -> u64
    ensures { result ≡ kept (count_by (λ entry. is_directory_at files.now entry.handle) names.now) }
{
    let mut count: u64 = 0;
    for entry in names.iter() {
        if is_directory(files, entry.handle) {
            count = count.saturating_add(1);
        }
    }
    count
}

/// Whether a handle is that of a directory.
pub(crate) fn is_directory(files: &Files, handle: u64) -> bool
    ensures { result ≡ is_directory_at files.now handle }
{
    match files.get(handle) {
        Some(file) => file.kind == DIRECTORY,
        None => false,
    }
}
