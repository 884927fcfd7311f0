//! The entries of a leaf, put on a page of a directory.

ghost use Rattle.std.specs.Prelude.{◌≡◌, ◌+◌, ◌≤◌, List, IfOk, length, map};
ghost use Rattle.bx_dirs.specs.Entries.{DoFit, by_number};
ghost use Rattle.bx_tree_files.specs.declared.file.Name.{Name};
ghost use Rattle.bx_directory_reads.specs.declared.filling.Put.TheVariants.{All};
ghost use Rattle.bx_directory_reads.specs.Pages.{PutsSo};

use bx_base::OutOfMemory;
use bx_call_parts::Page;
use bx_dirs::numbered_in;
use bx_page_bytes::Entries;
use std::alloc::Global;

/// How the entries of a leaf were put on a page.
#[derive(Drop)]
pub(crate) enum Put {
    /// All of them fit.
    All,
    /// Those before one that doesn't fit.
    Part,
    /// Those before one that is no entry of a directory.
    Stray,
}

/// Puts the entries of a leaf on a page until one doesn't fit.
pub(crate) fn put_leaf(
    page: &mut Page,
    alloc: Global,
    mut entries: Entries,
) -> Result<Put, OutOfMemory>
    ensures list { (names : List Name) → DoFit names → entries.entry ≡ map by_number names → IfOk result (PutsSo page.old names page.new) }
    ensures room { IfOk result (λ put. put ≡ All → page.new.room + length entries.entry ≤ page.old.room) }
{
    while let Some(entry) = entries.next() {
        match numbered_in(entry.key(), entry.value()) {
            None => return Ok(Put::Stray),
            Some((number, handle, name)) => {
                let fits = page.put(alloc, number, name, handle)?;
                if !fits {
                    return Ok(Put::Part);
                }
            }
        }
    }
    Ok(Put::All)
}
