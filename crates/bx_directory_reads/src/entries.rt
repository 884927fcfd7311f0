//! Entries of a directory, one behind the other.

ghost use Rattle.std.specs.Prelude.{◌≡◌, ◌<◌, ℕ, List, [], IfOk, IfSome, length};
ghost use Rattle.bx_dirs.specs.bx_blink.specs.Hints.{Under};
ghost use Rattle.bx_dirs.specs.bx_blink.specs.Leaves.{BeginsAt};
ghost use Rattle.bx_dirs.specs.Entries.{HasEntries};
ghost use Rattle.bx_reads.specs.bx_inodes.specs.Stops.{NeedsOn, NeverInner};
ghost use Rattle.bx_page.specs.Contents.{from};
ghost use Rattle.bx_truth.specs.PageTrees.{PageTree};
ghost use Rattle.bx_tree_files.specs.declared.file.Name.{Name as Entry};
ghost use Rattle.bx_tree_files.specs.Entries.{above};
ghost use Rattle.bx_views.specs.Truths.{Truth};
ghost use Rattle.bx_directory_reads.specs.Listings.{FindsBehind, FollowsSo, LeadsTo, LeafSo, OnBehind, OnEntries, OnFrom};
ghost use Rattle.bx_directory_reads.specs.Pages.{Fills};

use crate::filling::{Put, put_leaf};
use bx_base::Raw;
use bx_call_parts::Page;
use bx_dirs::blink::{BlinkError, leaf_from};
use bx_dirs::key_behind;
use bx_model::STALE;
use bx_page_bytes::PageBytes;
use bx_reads::inodes::Stop;
use bx_reads::needed;
use bx_records::Draft;
use bx_tree_files::Name;
use bx_views::View;
use std::alloc::Global;

/// The entry behind a number in the directory whose tree is under a root, by the root's handle; `None` exactly where there is none.
///
/// `Need` names a block of the volume that isn't held and is on the path of the run for it, shared. The status is `STALE`, where what
/// is held is no directory.
pub fn entry_behind<V: View>(
    alloc: Global,
    areas: u16,
    root: u64,
    number: u32,
    view: &V,
) -> Result<Option<Name>, Stop>
    ensures list { (truth : Truth) (names : List Entry) → HasEntries areas (V.held view.now) (V.hints view.now) truth [] root names → FollowsSo names number result }
    ensures finds { IfOk result (λ found. IfSome found (FindsBehind (V.held view.now) (V.hints view.now) root number)) }
    ensures need { NeedsOn areas (V.held view.now) (OnBehind (V.held view.now) (V.hints view.now) root number) result }
    ensures inner { NeverInner result }
{
    match bx_dirs::after(alloc, view, root, number) {
        Ok(found) => Ok(found),
        Err(BlinkError::Need(at, _)) => Err(needed(areas, at)),
        Err(BlinkError::Stale) => Err(Stop::Status(STALE)),
        Err(BlinkError::OutOfMemory) => Err(Stop::OutOfMemory),
        // a search changes nothing, and is for no key
        Err(
            BlinkError::Absent
            | BlinkError::Full(_)
            | BlinkError::NoRoom(_)
            | BlinkError::Present
            | BlinkError::Crowded,
        ) => unreachable!(),
    }
}

/// The first leaf with an entry from a key on, with the key from which on its entries are wanted, from the page with a handle on; `None`
/// exactly where there is none. The draft is empty.
///
/// `Need` names a block of the volume that isn't held and is on the path of the run for it, shared. The status is `STALE`, where what
/// is held is no tree.
fn leaf_behind<'a, V: View>(
    alloc: Global,
    areas: u16,
    none: &'a Draft,
    view: &'a V,
    handle: u64,
    key: &[u8],
) -> Result<Option<(Raw, PageBytes<'a>)>, Stop>
    requires { none.now ≡ [] }
    ensures map { (truth : Truth) (root : ℕ) (tree : PageTree) → Under areas (V.held view.now) (V.hints view.now) truth [] root tree → BeginsAt root tree key.now handle → LeafSo tree key.now result }
    ensures finds { IfOk result (λ found. IfSome found (λ leaf. LeadsTo (V.held view.now) (V.hints view.now) handle key.now leaf.0 leaf.1)) }
    ensures some { IfOk result (λ found. IfSome found (λ leaf. 0 < length (from leaf.1.entries leaf.0))) }
    ensures need { NeedsOn areas (V.held view.now) (OnFrom (V.held view.now) (V.hints view.now) handle key.now) result }
    ensures inner { NeverInner result }
{
    match leaf_from(alloc, none, view, handle, key) {
        Ok(found) => Ok(found),
        Err(BlinkError::Need(at, _)) => Err(needed(areas, at)),
        Err(BlinkError::Stale) => Err(Stop::Status(STALE)),
        Err(BlinkError::OutOfMemory) => Err(Stop::OutOfMemory),
        // a search changes nothing, and is for no key
        Err(
            BlinkError::Absent
            | BlinkError::Full(_)
            | BlinkError::NoRoom(_)
            | BlinkError::Present
            | BlinkError::Crowded,
        ) => unreachable!(),
    }
}

/// Puts the entries behind a cookie on a page until one doesn't fit, from the directory whose tree is under a root; whether all fit. It
/// goes along the leaves that have them, and reads each page once.
///
/// `Need` names a block of the volume that isn't held and is on the path along these leaves, shared. The status is `STALE`, where what is
/// held is no directory.
pub(crate) fn put_entries<V: View>(
    alloc: Global,
    areas: u16,
    root: u64,
    cookie: u32,
    page: &mut Page,
    view: &V,
) -> Result<bool, Stop>
    ensures list { (truth : Truth) (names : List Entry) → HasEntries areas (V.held view.now) (V.hints view.now) truth [] root names → Fills page.old (above cookie names) page.new result }
    ensures need { NeedsOn areas (V.held view.now) (OnEntries (V.held view.now) (V.hints view.now) root cookie) result }
    ensures inner { NeverInner result }
{
    let none = Draft::new(alloc);
    let mut handle = root;
    let mut key = key_behind(alloc, cookie)?;
    'leaves: loop {
        match leaf_behind(alloc, areas, &none, view, handle, key.bytes()) {
            Err(stop) => return Err(stop),
            Ok(None) => return Ok(true),
            Ok(Some((from, leaf))) => match put_leaf(page, alloc, leaf.from(from.bytes()))? {
                Put::Stray => return Err(Stop::Status(STALE)),
                Put::Part => return Ok(false),
                Put::All => match leaf.high() {
                    None => return Ok(true),
                    Some(high) => {
                        key = Raw::of(alloc, high)?;
                        handle = leaf.right();
                    }
                },
            },
        }
    }
}
