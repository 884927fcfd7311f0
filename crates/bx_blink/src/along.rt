//! The leaves of a tree, from one to the next.

ghost use Rattle.std.specs.Prelude.{◌<◌, ℕ, IfOk, IfSome, length};
ghost use Rattle.bx_base.specs.declared.names.Mode.TheVariants.{Shared};
ghost use Rattle.bx_page.specs.Contents.{from as entries_from};
ghost use Rattle.bx_truth.specs.PageTrees.{PageTree};
ghost use Rattle.bx_truth.specs.bx_views.specs.Truths.{Truth};
ghost use Rattle.bx_blink.specs.Answers.{NeedsFairly};
ghost use Rattle.bx_blink.specs.Hints.{Under};
ghost use Rattle.bx_blink.specs.Leaves.{BeginsAt, LandsIn, LeafAt, LeafHas, LeafIn};
ghost use Rattle.bx_blink.specs.Runs.{Runs, OnRun};
ghost use Rattle.bx_blink.specs.Walks.{reads_with, Ends, OnPath, start, most};

use crate::error::BlinkError;
use crate::runs::{RunEnd, run};
use crate::steps::End;
use crate::walks::walk;
use bx_base::{Mode, Raw};
use bx_page_bytes::PageBytes;
use bx_truth::records::Draft;
use bx_truth::views::View;
use std::alloc::Global;

/// The first leaf that has an entry from a key on, with the key from which on its entries are wanted; `None` exactly where there is none.
/// The search begins at the page with a handle: at the root of a tree, or at the leaf on the right of one that was given, with the high key of that.
///
/// `Need` names a block that isn't held and is on the path of the search, and `Stale` comes where what is held is no tree: where the view
/// agrees with a tree it never comes.
pub fn leaf_from<'a, V: View>(
    alloc: Global,
    draft: &'a Draft,
    view: &'a V,
    from: u64,
    not_below: &[u8],
) -> Result<Option<(Raw, PageBytes<'a>)>, BlinkError>
    ensures ends { LeafAt (Runs (reads_with (V.held view.now) (V.hints view.now) draft.now) most not_below.now (start from Shared)) result }
    ensures map { (areas : ℕ) (truth : Truth) (root : ℕ) (tree : PageTree) → Under areas (V.held view.now) (V.hints view.now) truth draft.now root tree → BeginsAt root tree not_below.now from
        → LeafIn tree not_below.now result }
    ensures some { IfOk result (λ found. IfSome found (λ leaf. 0 < length (entries_from leaf.1.entries leaf.0))) }
    ensures fair { NeedsFairly (reads_with (V.held view.now) (V.hints view.now) draft.now).held (OnRun (reads_with (V.held view.now) (V.hints view.now) draft.now) most not_below.now (start from Shared)) result }
{
    leaf_on(alloc, draft, view, from, not_below)
}

/// The same, by how the run ends.
fn leaf_on<'a, V: View>(
    alloc: Global,
    draft: &'a Draft,
    view: &'a V,
    from: u64,
    not_below: &[u8],
) -> Result<Option<(Raw, PageBytes<'a>)>, BlinkError>
    ensures { LeafAt (Runs (reads_with (V.held view.now) (V.hints view.now) draft.now) most not_below.now (start from Shared)) result }
{
    match run(alloc, draft, view, from, not_below)? {
        RunEnd::Wants(at, mode) => Err(BlinkError::Need(at, mode)),
        RunEnd::Broken => Err(BlinkError::Stale),
        RunEnd::First(key, leaf, _) => Ok(Some((key, leaf))),
        RunEnd::Nothing => Ok(None),
    }
}

/// The leaf of a key in the tree under a root, by the root's handle.
///
/// `Need` names a block that isn't held and is on the path of the search for the key, and `Stale` comes where what is held is no tree: where the
/// view agrees with a tree it never comes.
pub fn leaf_at<'a, V: View>(
    draft: &'a Draft,
    view: &'a V,
    root: u64,
    key: &[u8],
) -> Result<PageBytes<'a>, BlinkError>
    ensures ends { LandsIn (Ends (reads_with (V.held view.now) (V.hints view.now) draft.now) 0 Shared key.now most (start root Shared)) result }
    ensures map { (areas : ℕ) (truth : Truth) (tree : PageTree) → Under areas (V.held view.now) (V.hints view.now) truth draft.now root tree → LeafHas tree key.now result }
    ensures fair { NeedsFairly (reads_with (V.held view.now) (V.hints view.now) draft.now).held (OnPath (reads_with (V.held view.now) (V.hints view.now) draft.now) 0 Shared key.now most (start root Shared)) result }
{
    leaf_where(draft, view, root, key)
}

/// The same, by how the walk ends.
fn leaf_where<'a, V: View>(
    draft: &'a Draft,
    view: &'a V,
    root: u64,
    key: &[u8],
) -> Result<PageBytes<'a>, BlinkError>
    ensures { LandsIn (Ends (reads_with (V.held view.now) (V.hints view.now) draft.now) 0 Shared key.now most (start root Shared)) result }
{
    match walk(draft, view, root, key, 0, Mode::Shared) {
        End::Needs(at, mode) => Err(BlinkError::Need(at, mode)),
        End::Lost => Err(BlinkError::Stale),
        End::Lands(_, page) => Ok(page),
    }
}
