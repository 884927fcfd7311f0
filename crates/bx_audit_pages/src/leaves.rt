//! The leaf where a key is.

ghost use Rattle.std.specs.Prelude.{All, IfSome, IfNone};
ghost use Rattle.bx_page.specs.Keys.{IsBelow};
ghost use Rattle.bx_audit_pages.specs.Leaves.{IsLeafFor};
ghost use Rattle.bx_audit_pages.specs.Pages.{BeginningsRise};

use crate::pages::TreePage;

/// The last page whose range doesn't begin above a key; `None` exactly where all do.
pub(crate) fn leaf_for<'a>(pages: &'a [TreePage], key: &[u8]) -> Option<&'a TreePage>
    requires { BeginningsRise pages.now }
    ensures some { IfSome result (λ page. IsLeafFor pages.now key.now page.now) }
    ensures none { IfNone result (All (λ node. IsBelow key.now node.begins) pages.now) }
{
    match pages.binary_search_by(|page| page.begins.bytes().cmp(key)) {
        Ok(at) => Some(&pages[at]),
        Err(0) => None,
        Err(at) => Some(&pages[at - 1]),
    }
}
