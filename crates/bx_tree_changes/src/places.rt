//! Directories whose entries calls change.

ghost use Rattle.std.specs.Prelude.{◌≡◌, ◌<◌, MatchResult, MatchOption, IfOk, Ok, Err, Some, None, nat_lt};
ghost use Rattle.std.specs.Option.{option_copied};
ghost use Rattle.bx_tree_files.specs.Entries.{entry_named};
ghost use Rattle.bx_tree_files.specs.Files.{IsFile, file_at};
ghost use Rattle.bx_model.specs.Making.{entry_errors};
ghost use Rattle.bx_tree_files.specs.Names.{names_of, next_of};
ghost use Rattle.bx_model.specs.Removing.{has_entries as has_any};
ghost use Rattle.bx_tree_changes.specs.Places.{directory_for as directory_of_call};

use crate::writing::is_full;
use bx_model::{ACCES, Call, DQUOT, NOSPC, NOTDIR, STALE, Tree, Want, may};
use bx_tree_files::{Body, DIRECTORY, File, Name, is_bad};
use bx_tree_reads::named;

/// The directory in which a call looks for a name, or whose entries it changes under one, as it wants to; else the first error.
pub fn directory_for<'a>(
    tree: &'a Tree,
    call: &Call,
    at: &[u8],
    name: &[u8],
    want: Want,
) -> Result<&'a File, u32>
    ensures found { MatchResult result
        (λ directory. directory_of_call tree.now call.now at.now name.now want ≡ Ok directory.now)
        (λ status. directory_of_call tree.now call.now at.now name.now want ≡ Err status) }
    ensures is_file { IfOk result (λ directory. IsFile directory.now) }
    ensures there { IfOk result (λ directory. file_at tree.now.files directory.now.handle ≡ Some directory.now) }
    ensures kind { IfOk result (λ directory. directory.now.kind ≡ 2) }
{
    let Some(directory) = named(tree, at) else {
        return Err(STALE);
    };
    if directory.kind != DIRECTORY {
        return Err(NOTDIR);
    }
    if is_bad(name) {
        return Err(ACCES);
    }
    if !may(call, directory, want) {
        return Err(ACCES);
    }
    Ok(directory)
}

/// The entry of a directory with a name.
pub fn entry_of<'a>(directory: &'a File, name: &[u8]) -> Option<&'a Name>
    ensures { option_copied result ≡ entry_named (names_of directory.now.body) name.now }
{
    match &directory.body {
        Body::Names(_, _, names) => names.named(name),
        _ => None,
    }
}

/// Whether a directory has entries.
pub fn has_entries(directory: &File) -> bool
    ensures { result ≡ has_any directory.now }
{
    match &directory.body {
        Body::Names(_, _, names) => !names.is_empty(),
        _ => false,
    }
}

/// The last errors of a procedure that makes an entry: no number is left for it, or no space.
pub fn entry_error(directory: &File, spare: u32) -> Option<u32>
    ensures found { MatchOption result (entry_errors directory.now spare ≡ Ok tt) (λ status. entry_errors directory.now spare ≡ Err status) }
    ensures number { result ≡ None → next_of directory.now.body < 4294967295 }
{
    if !has_number(directory) {
        return Some(DQUOT);
    }
    if is_full(spare) {
        return Some(NOSPC);
    }
    None
}

/// Whether a directory has a number left for an entry.
fn has_number(directory: &File) -> bool
    ensures { result ≡ nat_lt (next_of directory.now.body) 4294967295 }
{
    match &directory.body {
        Body::Names(_, next, _) => *next < u32::MAX,
        _ => true,
    }
}
