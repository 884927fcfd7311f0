//! The leaf of a key, to be changed.

ghost use Rattle.bx_blink.specs.Walks.{reads_with};
ghost use Rattle.bx_leaves.specs.Leaves.{LeafOf};

use bx_base::Mode;
use bx_blink::page_bytes::PageBytes;
use bx_blink::views::View;
use bx_blink::{BlinkError, End, block_at, seen, walk};
use bx_records::Draft;

/// The leaf of a key with its handle, held exclusively.
pub fn leaf_of<'a, V: View>(
    draft: &'a Draft,
    view: &'a V,
    root: u64,
    key: &[u8],
) -> Result<(u64, PageBytes<'a>), BlinkError>
    ensures { LeafOf (reads_with (V.held view.now) (V.hints view.now) draft.now) root key.now result }
{
    match walk(draft, view, root, key, 0, Mode::Exclusive) {
        End::Needs(at, mode) => Err(BlinkError::Need(at, mode)),
        End::Lost => Err(BlinkError::Stale),
        End::Lands(handle, page) => {
            let at = block_at(handle);
            match seen(draft, view, at, Mode::Exclusive) {
                None => Err(BlinkError::Need(at, Mode::Exclusive)),
                Some(_) => Ok((handle, page)),
            }
        }
    }
}
