//! Whether the entries of interior pages name the pages of the level below.

ghost use Rattle.std.specs.Prelude.{◌≡◌, ◌↔◌, ℕ, All, Some, slice_get, IfSome, IfNone, IsTrue, IsErrOf, OnOk, length};
ghost use Rattle.std.specs.Int.{w64, from_be_bytes};
ghost use Rattle.bx_page.specs.declared.entry.Entry.{Entry};
ghost use Rattle.bx_truth.specs.PageTrees.{Chunks, IsIn, IsInterior, NamesChild, Node};
ghost use Rattle.bx_audit_pages.specs.declared.error.AuditError.TheVariants.{Fault as DiskFailed};
ghost use Rattle.bx_audit_pages.specs.Errors.{IfTorn};
ghost use Rattle.bx_audit_pages.specs.Leading.{AreLedTo, IsLedTo};
ghost use Rattle.bx_audit_pages.specs.Pages.{BeginningsRise};
ghost use Rattle.bx_audit_pages.specs.Torn.{IsAstray};

use crate::error::AuditError;
use crate::pages::{TreePage, torn_at};
use bx_page::{Entry, Page};
use byteorder::{BigEndian, ByteOrder};

/// How many bytes the number of a handle has.
const HANDLE: usize = 8;

/// Whether the pages of a level lead down to those of the level below; torn exactly where they don't: of one that doesn't.
pub(crate) fn lead_down(above: &[TreePage], below: &[TreePage]) -> Result<(), AuditError>
    requires { BeginningsRise below.now }
    ensures ok { OnOk result ((node : Node) → IsIn node above.now → IsInterior below.now node) }
    ensures torn { IfTorn result (λ at found wanted. ((node : Node) → IsIn node above.now → IsInterior below.now node) → ⊥) }
    ensures led { (chunks : Chunks) (root : ℕ) → AreLedTo chunks root above.now → IfTorn result (λ at found wanted. IsLedTo chunks root wanted) }
    ensures astray { IfTorn result (λ at found wanted. IsAstray above.now below.now wanted) }
    ensures no_fault { IsErrOf result DiskFailed → ⊥ }
{
    for page in above {
        if !is_interior(page, below) {
            return Err(torn_at(page.handle));
        }
    }
    Ok(())
}

/// Whether a page's first key is that where its range begins, and each of its entries names a page.
fn is_interior(page: &TreePage, below: &[TreePage]) -> bool
    requires { BeginningsRise below.now }
    ensures { IsTrue result ↔ IsInterior below.now page.now }
{
    match page.page.entry(0) {
        None => false,
        Some(first) => first.key.bytes() == page.begins.bytes() && name_pages(&page.page, below),
    }
}

/// Whether each entry of a page names one of some pages.
fn name_pages(page: &Page, below: &[TreePage]) -> bool
    requires { BeginningsRise below.now }
    ensures { IsTrue result ↔ All (NamesChild below.now) page.now.entries }
{
    for at in 0..page.len() {
        if !names_at(page, at, below) {
            return false;
        }
    }
    true
}

/// Whether the entry at a place, if there is one, names a page.
fn names_at(page: &Page, at: usize, below: &[TreePage]) -> bool
    requires { BeginningsRise below.now }
    ensures { IsTrue result ↔ ((entry : Entry) → slice_get page.now.entries at ≡ Some entry → NamesChild below.now entry) }
{
    match page.entry(at) {
        None => true,
        Some(entry) => names_page(entry, below),
    }
}

/// Whether an entry names a page, whose range begins at its key.
fn names_page(entry: &Entry, below: &[TreePage]) -> bool
    requires { BeginningsRise below.now }
    ensures { IsTrue result ↔ NamesChild below.now entry.now }
{
    match page_from(below, entry.key.bytes()) {
        None => false,
        Some(page) => has_handle(entry, page.handle),
    }
}

/// Whether the value of an entry is a handle.
fn has_handle(entry: &Entry, handle: u64) -> bool
    ensures { IsTrue result ↔ ((length entry.now.value ≡ 8) × (from_be_bytes w64 entry.now.value ≡ handle)) }
{
    match handle_in(entry) {
        None => false,
        Some(found) => found == handle,
    }
}

/// The handle that the value of an entry is; `None` exactly where it hasn't got eight bytes.
pub(crate) fn handle_in(entry: &Entry) -> Option<u64>
    ensures some { IfSome result (λ handle. (length entry.now.value ≡ 8) × (from_be_bytes w64 entry.now.value ≡ handle)) }
    ensures none { IfNone result (length entry.now.value ≡ 8 → ⊥) }
{
    let value = entry.value.bytes();
    if value.len() != HANDLE {
        return None;
    }
    Some(BigEndian::read_u64(value))
}

/// The page whose range begins at a key.
fn page_from<'a>(pages: &'a [TreePage], key: &[u8]) -> Option<&'a TreePage>
    requires { BeginningsRise pages.now }
    ensures some { IfSome result (λ page. IsIn page.now pages.now × (page.now.begins ≡ key.now)) }
    ensures none { IfNone result ((node : Node) → IsIn node pages.now → node.begins ≡ key.now → ⊥) }
{
    match pages.binary_search_by(|page| page.begins.bytes().cmp(key)) {
        Err(_) => None,
        Ok(place) => Some(&pages[place]),
    }
}
