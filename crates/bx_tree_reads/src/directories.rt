//! READDIR.

ghost use Rattle.std.specs.Prelude.{◌≡◌, ◌++◌, IfOk, map};
ghost use Rattle.bx_call_parts.specs.Pages.{dots, filled};
ghost use Rattle.bx_model.specs.Directories.{behind, end_of, listed as listed_of, numbered, page as page_of, readdir as readdir_of};
ghost use Rattle.bx_tree_files.specs.Names.{names_of, parent_of};
ghost use Rattle.bx_model.specs.Steps.{done};

use crate::reading::named;
use bx_base::OutOfMemory;
use bx_call_parts::{Page, end_word};
use bx_model::{ACCES, Call, NOTDIR, Reply, STALE, Tree, Want, may};
use bx_tree_files::{Body, File, NameList};
use std::alloc::Global;

/// READDIR: the entries of a directory behind a cookie that fit into so many bytes.
pub fn readdir(
    tree: &Tree,
    call: &Call,
    at: &[u8],
    cookie: u32,
    count: u32,
) -> Result<Reply, OutOfMemory>
    ensures { IfOk result (λ reply. done tree.now (readdir_of tree.now call.now at.now cookie count) ≡ (reply, tree.now)) }
{
    let Some(directory) = named(tree, at) else {
        return Ok(Reply::Status(STALE));
    };
    let Body::Names(parent, _, names) = &directory.body else {
        return Ok(Reply::Status(NOTDIR));
    };
    if !may(call, directory, Want::List) {
        return Ok(Reply::Status(ACCES));
    }
    page_behind(
        tree.files.allocator(),
        directory,
        *parent,
        names,
        cookie,
        count,
    )
}

/// The page of a directory behind a cookie.
fn page_behind(
    alloc: Global,
    directory: &File,
    parent: u64,
    names: &NameList,
    cookie: u32,
    count: u32,
) -> Result<Reply, OutOfMemory>
    requires parent { parent ≡ parent_of directory.now.body }
    requires names { names.now ≡ names_of directory.now.body }
    ensures { let entries = behind cookie (numbered directory.now) in IfOk result (λ reply. reply ≡ Reply.List (map listed_of (page_of entries count)) (end_of entries (page_of entries count))) }
{
    let mut page = Page::new(alloc, count);
    let is_end = fill(&mut page, alloc, directory.handle, parent, names, cookie)?;
    Ok(Reply::List(page.entries, end_word(is_end)))
}

/// Puts what a directory lists behind a cookie on a page until something doesn't fit; whether all fits.
fn fill(
    page: &mut Page,
    alloc: Global,
    directory: u64,
    parent: u64,
    names: &NameList,
    cookie: u32,
) -> Result<bool, OutOfMemory>
    ensures { IfOk result (λ all. (all, page.new) ≡ filled page.old (behind cookie (dots directory parent ++ names.now))) }
{
    let all_fit = page.put_dots(alloc, directory, parent, cookie)?;
    if !all_fit {
        return Ok(false);
    }
    put_names(page, alloc, names, cookie)
}

/// Puts the entries behind a cookie on a page until one doesn't fit; whether all fit.
fn put_names(
    page: &mut Page,
    alloc: Global,
    names: &NameList,
    cookie: u32,
) -> Result<bool, OutOfMemory>
    ensures { IfOk result (λ all. (all, page.new) ≡ filled page.old (behind cookie names.now)) }
{
    for (_, entry) in names.behind(cookie) {
        let fits = page.put(alloc, entry.number, entry.name.bytes(), entry.handle)?;
        if !fits {
            return Ok(false);
        }
    }
    Ok(true)
}
