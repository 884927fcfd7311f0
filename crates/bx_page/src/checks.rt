//! What the parts of a page have to be.

ghost use Rattle.std.specs.Prelude.{◌≡◌, ◌↔◌, length, IsTrue, All};
ghost use Rattle.bx_page.specs.Keys.{IsBelow};
ghost use Rattle.bx_page.specs.Contents.{Rises, IsInOrder};
ghost use Rattle.bx_page.specs.Parts.{seen, AreFit};

use crate::entry::Entry;
use crate::reading::Parts;

/// How many bytes the handle of a child has.
const HANDLE: usize = 8;

/// Whether the entries are in order, and above the leaves each value is the handle of a child.
pub(crate) fn are_fit(parts: &Parts) -> bool
    ensures { IsTrue result ↔ AreFit (seen parts.now) }
{
    is_in_order(parts) && (parts.level == 0 || are_children(&parts.entries))
}

/// Whether the keys rise, and stay below the high key.
fn is_in_order(parts: &Parts) -> bool
    ensures { IsTrue result ↔ IsInOrder (seen parts.now) }
{
    if !rise(&parts.entries) {
        return false;
    }
    match &parts.high {
        None => true,
        Some(high) => stay_below(&parts.entries, high.bytes()),
    }
}

/// Whether each key is below the next.
fn rise(entries: &[Entry]) -> bool
    ensures { IsTrue result ↔ Rises entries.now }
{
    for i in 1..entries.len() {
        let (one, next) = (&entries[i - 1], &entries[i]);
        if !one.key.bytes().cmp(next.key.bytes()).is_lt() {
            return false;
        }
    }
    true
}

/// Whether the last key, where there is one, is below a high key.
fn stay_below(entries: &[Entry], high: &[u8]) -> bool
    requires { Rises entries.now }
    ensures { IsTrue result ↔ All (λ entry. IsBelow entry.key high.now) entries.now }
{
    match entries.last() {
        None => true,
        Some(entry) => entry.key.bytes().cmp(high).is_lt(),
    }
}

/// Whether each value has as many bytes as the handle of a child.
fn are_children(entries: &[Entry]) -> bool
    ensures { IsTrue result ↔ All (λ entry. length entry.value ≡ 8) entries.now }
{
    entries
        .iter()
        .all(|entry| entry.value.bytes().len() == HANDLE)
}
