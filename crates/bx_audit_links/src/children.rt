//! The files that the entries of a directory name.

ghost use Rattle.std.specs.Prelude.{Contains, IfNone, IfSome, IsTrue, IsFalse};
ghost use Rattle.bx_audit_links.specs.Children.{HasChildren, HaveChildren, IsChildOf, IsUnder, IsWrongEntry, IsWrongIn};
ghost use Rattle.bx_tree_files.specs.Names.{names_of};

use bx_tree_files::{Body, Files, NameList};

/// The handle that the first entry names, of those of a directory that name no child of it: no file, or a directory with another parent.
/// `None` exactly where each names one.
pub(crate) fn wrong_child(files: &Files, directory: u64) -> Option<u64>
    ensures none { IfNone result (HasChildren files.now directory) }
    ensures some { IfSome result (IsWrongIn files.now directory) }
{
    match files.get(directory) {
        None => None,
        Some(file) => wrong_in_body(files, directory, &file.body),
    }
}

/// The same of the entries of a body.
fn wrong_in_body(files: &Files, directory: u64, body: &Body) -> Option<u64>
    ensures none { IfNone result (HaveChildren files.now directory (names_of body.now)) }
    ensures some { IfSome result (IsWrongEntry files.now directory (names_of body.now)) }
{
    match body {
        Body::Names(_, _, names) => wrong_among(files, directory, names),
        Body::Bytes(_) | Body::Path(_) => None,
    }
}

/// The same of some entries.
fn wrong_among(files: &Files, directory: u64, names: &NameList) -> Option<u64>
    ensures none { IfNone result (HaveChildren files.now directory names.now) }
    ensures some { IfSome result (IsWrongEntry files.now directory names.now) }
{
    for entry in names.iter() {
        if !is_child_of(files, directory, entry.handle) {
            return Some(entry.handle);
        }
    }
    None
}

/// Whether a handle is that of a file that may be in a directory.
fn is_child_of(files: &Files, directory: u64, handle: u64) -> bool
    ensures yes { IsTrue result → IsChildOf files.now directory handle }
    ensures no { IsFalse result → IsChildOf files.now directory handle → ⊥ }
{
    match files.get(handle) {
        None => false,
        Some(file) => is_under(&file.body, directory),
    }
}

/// Whether a file may be in a directory: a directory has it as its parent.
pub(crate) fn is_under(body: &Body, directory: u64) -> bool
    ensures yes { IsTrue result → IsUnder body.now directory }
    ensures no { IsFalse result → IsUnder body.now directory → ⊥ }
{
    match body {
        Body::Names(parent, _, _) => *parent == directory,
        Body::Bytes(_) | Body::Path(_) => true,
    }
}
