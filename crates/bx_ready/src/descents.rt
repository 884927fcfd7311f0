//! Descents: how a key is looked for over what is held alone, where no page may be passed.

ghost use Rattle.bx_ready.specs.Descents.{DescendsTo, FindsPage, StepsAt};

use bx_base::Mode;
use bx_blink::{block_at, child_of, page_of, passes};
use bx_page_bytes::PageBytes;
use bx_views::View;

/// How many pages a descent may come to, and one.
const MOST: u64 = 61_441;

/// What is held under a handle.
#[derive(Drop)]
pub(crate) enum Found<'a> {
    /// No block is held there.
    Missing,
    /// A block is held that is none of the handle's pages.
    Strange,
    /// A page is held.
    Held(PageBytes<'a>),
}

/// How a descent ends.
#[derive(Clone, Copy)]
pub(crate) enum Descent {
    /// It needs a block, held shared.
    Needs(u64),
    /// What is held is no tree.
    Lost,
    /// It was led to the page with this handle, whose keys are all below the key.
    Short(u64),
    /// Each page led to the one in whose range the key is.
    Arrives,
}

/// What follows a step of it.
#[derive(Clone, Copy)]
pub(crate) enum Step {
    /// It goes on at a handle.
    Goes(u64),
    /// It ends.
    Stops(Descent),
}

/// The page under a handle.
fn page_at<'a, V: View>(view: &'a V, handle: u64) -> Found<'a>
    ensures { FindsPage (V.held view.now) handle result }
{
    match view.block(block_at(handle), Mode::Shared) {
        None => Found::Missing,
        Some(block) => {
            if block.handle != handle {
                return Found::Strange;
            }
            match page_of(block) {
                None => Found::Strange,
                Some(page) => Found::Held(page),
            }
        }
    }
}

/// One step of a descent.
fn step_at<V: View>(view: &V, handle: u64, key: &[u8]) -> Step
    ensures { StepsAt (V.held view.now) handle key.now result }
{
    match page_at(view, handle) {
        Found::Missing => Step::Stops(Descent::Needs(block_at(handle))),
        Found::Strange => Step::Stops(Descent::Lost),
        Found::Held(page) => {
            if passes(&page, key) {
                return Step::Stops(Descent::Short(handle));
            }
            if page.level() == 0 {
                return Step::Stops(Descent::Arrives);
            }
            Step::Goes(child_of(&page, key))
        }
    }
}

/// Looks for a key from a tree's root down to its leaf, over what is held alone, and never to the right.
pub(crate) fn descend<V: View>(view: &V, root: u64, key: &[u8]) -> Descent
    ensures { DescendsTo (V.held view.now) root key.now result }
{
    let mut handle = root;
    for step in 0..MOST {
        match step_at(view, handle, key) {
            Step::Goes(next) => handle = next,
            Step::Stops(end) => return end,
        }
    }
    Descent::Lost
}
