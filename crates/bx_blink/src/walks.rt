//! Walks: how a key is looked for.

ghost use Rattle.std.specs.Prelude.{◌-◌};
ghost use Rattle.bx_blink.specs.Walks.{reads_with, Ends, start, most};

use crate::steps::{End, Out, Spot, decide, look};
use bx_base::Mode;
use bx_truth::records::Draft;
use bx_truth::views::View;

/// How many pages a walk may pass, and one.
pub(crate) const MOST: u64 = 61_441;

/// Looks for a key from a tree's root, down to its page of a level, which is to be held in a mode. It reads each page that it
/// passes once, and takes no memory.
pub fn walk<'a, V: View>(
    draft: &'a Draft,
    view: &'a V,
    root: u64,
    key: &[u8],
    target: u16,
    asked: Mode,
) -> End<'a>
    ensures { Ends (reads_with (V.held view.now) (V.hints view.now) draft.now) target asked key.now most (start root asked) result }
{
    let mut spot = Spot {
        handle: root,
        via: None,
        mode: asked,
    };
    for step in 0..MOST {
        let found = look(draft, view, &spot, target);
        match decide(found, &spot, key, target, asked) {
            Out::Goes(next) => spot = next,
            Out::Stops(end) => return end,
        }
    }
    End::Lost
}
