//! The calls that change nothing.

ghost use Rattle.std.specs.Prelude.{ℕ, []};
ghost use Rattle.bx_base.specs.declared.names.Mode.TheVariants.{Shared};
ghost use Rattle.bx_truth.specs.PageTrees.{PageTree, map_of};
ghost use Rattle.bx_blink.specs.Walks.{reads_with, Ends, start, most, OnPath};
ghost use Rattle.bx_truth.specs.bx_views.specs.Truths.{Truth};
ghost use Rattle.bx_blink.specs.Hints.{Under};
ghost use Rattle.bx_blink.specs.Answers.{FindsAt, FindsIn, NeedsFairly};
ghost use Rattle.bx_blink.specs.Runs.{Runs, OnRun, NextAt, NextIn};

use crate::error::BlinkError;
use crate::runs::{RunEnd, run};
use crate::steps::End;
use crate::walks::walk;
use bx_base::{Mode, Raw};
use bx_truth::records::Draft;
use bx_truth::views::View;
use std::alloc::Global;

/// The value of a key in the tree under a root, by the root's handle.
///
/// `Need` names a block that isn't held and is on the path of the search, `Absent` comes where the page of the key hasn't got
/// it, and `Stale` where what is held is no tree: where the view agrees with a tree it never comes.
pub fn find<V: View>(alloc: Global, view: &V, root: u64, key: &[u8]) -> Result<Raw, BlinkError>
    ensures ends { FindsAt (Ends (reads_with (V.held view.now) (V.hints view.now) []) 0 Shared key.now most (start root Shared)) key.now result }
    ensures map { (areas : ℕ) (truth : Truth) (tree : PageTree) → Under areas (V.held view.now) (V.hints view.now) truth [] root tree → FindsIn (map_of tree) key.now result }
    ensures fair { NeedsFairly (V.held view.now) (OnPath (reads_with (V.held view.now) (V.hints view.now) []) 0 Shared key.now most (start root Shared)) result }
{
    search(alloc, view, root, key)
}

/// The same, by how the walk ends.
fn search<V: View>(alloc: Global, view: &V, root: u64, key: &[u8]) -> Result<Raw, BlinkError>
    ensures { FindsAt (Ends (reads_with (V.held view.now) (V.hints view.now) []) 0 Shared key.now most (start root Shared)) key.now result }
{
    let draft = Draft::new(alloc);
    match walk(&draft, view, root, key, 0, Mode::Shared) {
        End::Needs(at, mode) => Err(BlinkError::Need(at, mode)),
        End::Lost => Err(BlinkError::Stale),
        End::Lands(_, page) => match page.get(key) {
            None => Err(BlinkError::Absent),
            Some(value) => {
                let value = Raw::of(alloc, value)?;
                Ok(value)
            }
        },
    }
}

/// The entry with the least key that isn't below a key, in the tree under a root; `None` exactly where there is none.
///
/// `Need` and `Stale` come as they do of `find`.
pub fn next<V: View>(
    alloc: Global,
    view: &V,
    root: u64,
    not_below: &[u8],
) -> Result<Option<(Raw, Raw)>, BlinkError>
    ensures ends { NextAt (Runs (reads_with (V.held view.now) (V.hints view.now) []) most not_below.now (start root Shared)) result }
    ensures map { (areas : ℕ) (truth : Truth) (tree : PageTree) → Under areas (V.held view.now) (V.hints view.now) truth [] root tree → NextIn (map_of tree) not_below.now result }
    ensures fair { NeedsFairly (V.held view.now) (OnRun (reads_with (V.held view.now) (V.hints view.now) []) most not_below.now (start root Shared)) result }
{
    run_on(alloc, view, root, not_below)
}

/// The same, by how the run ends.
fn run_on<V: View>(
    alloc: Global,
    view: &V,
    root: u64,
    not_below: &[u8],
) -> Result<Option<(Raw, Raw)>, BlinkError>
    ensures { NextAt (Runs (reads_with (V.held view.now) (V.hints view.now) []) most not_below.now (start root Shared)) result }
{
    let draft = Draft::new(alloc);
    match run(alloc, &draft, view, root, not_below)? {
        RunEnd::Wants(at, mode) => Err(BlinkError::Need(at, mode)),
        RunEnd::Broken => Err(BlinkError::Stale),
        RunEnd::First(_key, _leaf, entry) => {
            let key = Raw::of(alloc, entry.key())?;
            let value = Raw::of(alloc, entry.value())?;
            Ok(Some((key, value)))
        }
        RunEnd::Nothing => Ok(None),
    }
}
