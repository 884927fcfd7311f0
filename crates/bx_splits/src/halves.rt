//! A page that is given up for its two halves.

ghost use Rattle.std.specs.Prelude.{◌≡◌, ◌≤◌, length};
ghost use Rattle.bx_splits.specs.Halves.{HalvesAt, half_in};

use crate::cutting::cut;
use crate::raising::raise;
use bx_blink::BlinkError;
use bx_page::Page;
use bx_records::Draft;
use bx_views::View;
use std::alloc::Global;

/// The two halves of a page, each with its handle.
#[derive(Drop)]
pub struct Halves {
    /// The handle of the first half.
    pub left: u64,
    /// The half with the lesser keys, which leads to the other one.
    pub first: Page,
    /// The handle of the other half.
    pub right: u64,
    /// The half with the greater keys.
    pub other: Page,
}

impl Halves {
    /// The half in whose range a key of the page is, with its handle.
    pub fn half_for(self, key: &[u8]) -> (u64, Page)
        ensures { result ≡ half_in self key.now }
    {
        let is_behind = match self.first.high() {
            None => false,
            Some(middle) => !key.cmp(middle).is_lt(),
        };
        let Halves {
            left,
            first,
            right,
            other,
        } = self;
        if is_behind {
            (right, other)
        } else {
            (left, first)
        }
    }
}

/// Puts the halves of a page, held under a handle of the tree under a root, into a draft: the other half under a new handle, and the
/// first half in the page's place, or, where the page is the root, under a new handle too. It answers as `split` does, but on an error
/// blocks may have been put: it is for a draft that is thrown away then.
pub fn put_halves<V: View>(
    alloc: Global,
    draft: &mut Draft,
    view: &V,
    root: u64,
    handle: u64,
    page: Page,
    near: (u16, u16),
) -> Result<Halves, BlinkError>
    requires { 2 ≤ length page.entries }
    ensures { HalvesAt (V.held view.now) draft.old draft.new root handle page near.0 near.1 result }
{
    if handle == root {
        raise(alloc, draft, view, root, page, near)
    } else {
        cut(alloc, draft, view, handle, page, near)
    }
}
