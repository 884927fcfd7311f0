//! READDIR.

ghost use Rattle.std.specs.Prelude.{◌≤◌, ◌++◌, List, [], IfOk};
ghost use Rattle.bx_dirs.specs.Entries.{HasEntries};
ghost use Rattle.bx_reads.specs.bx_inodes.specs.Fitting.{HintsFitAll};
ghost use Rattle.bx_reads.specs.bx_inodes.specs.Stands.{Stands};
ghost use Rattle.bx_reads.specs.bx_inodes.specs.Stops.{NeedsOn, NeverInner};
ghost use Rattle.bx_reads.specs.bx_files.specs.Reads.{Tells};
ghost use Rattle.bx_model.specs.declared.tree.Tree.{Tree};
ghost use Rattle.bx_model.specs.Directories.{behind, readdir as readdir_of};
ghost use Rattle.bx_reads.specs.Answers.{IsOutcome};
ghost use Rattle.bx_tree_files.specs.declared.file.Name.{Name};
ghost use Rattle.bx_views.specs.Truths.{IsTruth, Truth};
ghost use Rattle.bx_call_parts.specs.Pages.{dots};
ghost use Rattle.bx_directory_reads.specs.Listings.{OnEntries, OnListing, listing};

use crate::entries::put_entries;
use crate::opening::directory_error;
use bx_call_parts::{Page, end_word};
use bx_layout::Inode;
use bx_model::{Call, Reply, Want};
use bx_reads::inodes::Stop;
use bx_reads::named_inode;
use bx_views::View;
use std::alloc::Global;

/// READDIR (RFC 1094, section 2.2.17), of a volume with at most 64 areas: the longest run of entries behind a cookie, of the directory that
/// a file handle of the volume names, that fits into `count` bytes and into 8192, with 1 where it ends with the last entry. It looks for
/// one entry more than fit, at most.
///
/// `Need` names a block that isn't held, shared: that of the directory's inode, or, where that is held, one on the path to the entries.
/// The status is `STALE`, exactly where the file handle names no file, else `NOTDIR` where that is no directory, and `ACCES` where the
/// caller may not list it.
pub fn readdir<V: View>(
    alloc: Global,
    volume: u64,
    areas: u16,
    call: &Call,
    at: &[u8],
    cookie: u32,
    count: u32,
    view: &V,
) -> Result<Reply, Stop>
    requires { areas ≤ 64 }
    ensures step { (truth : Truth) (tree : Tree) → IsTruth (V.held view.now) truth → Stands volume areas truth tree → HintsFitAll areas (V.hints view.now) truth
        → IsOutcome tree (readdir_of tree call.now at.now cookie count) result }
    ensures need { NeedsOn areas (V.held view.now) (OnListing (V.held view.now) (V.hints view.now) volume areas at.now cookie) result }
    ensures inner { NeverInner result }
{
    match named_inode(alloc, volume, areas, at, view) {
        Err(stop) => Err(stop),
        Ok((handle, inode)) => {
            if let Some(status) = directory_error(alloc, call, handle, &inode, Want::List)? {
                return Err(Stop::Status(status));
            }
            page_behind(alloc, areas, handle, &inode, cookie, count, view)
        }
    }
}

/// The page of the directory with a handle behind a cookie, by its inode.
///
/// `Need` names a block of the volume that isn't held and is on the path to the entries, shared. The status is `STALE`, where what is held
/// is no directory.
fn page_behind<V: View>(
    alloc: Global,
    areas: u16,
    handle: u64,
    inode: &Inode,
    cookie: u32,
    count: u32,
    view: &V,
) -> Result<Reply, Stop>
    ensures list { (truth : Truth) (names : List Name) → HasEntries areas (V.held view.now) (V.hints view.now) truth [] inode.now.tree names
        → Tells (listing (behind cookie (dots handle inode.now.parent ++ names)) count) result }
    ensures need { NeedsOn areas (V.held view.now) (OnEntries (V.held view.now) (V.hints view.now) inode.now.tree cookie) result }
    ensures inner { NeverInner result }
{
    let mut page = Page::new(alloc, count);
    let both_fit = page.put_dots(alloc, handle, inode.parent, cookie)?;
    if !both_fit {
        return Ok(Reply::List(page.entries, 0));
    }
    match put_entries(alloc, areas, inode.tree, cookie, &mut page, view) {
        Err(stop) => Err(stop),
        Ok(all_fit) => Ok(Reply::List(page.entries, end_word(all_fit))),
    }
}
