//! How many entries name each file.

ghost use Rattle.std.specs.Prelude.{◌≡◌, ◌+◌, ◌==◌, ℕ, count_by, if◌then◌else◌, IfOk, OnOk};
ghost use Rattle.bx_audit_links.specs.Counted.{AreCounted, count_in, kept};
ghost use Rattle.bx_tree_files.specs.Names.{names_of};

use bx_base::OutOfMemory;
use bx_tree_files::{Body, Files, NameList};
use std::alloc::Global;
use std::collections::BTreeMap;

/// How many entries of directories name each handle.
pub(crate) fn count_links(alloc: Global, files: &Files) -> Result<BTreeMap<u64, u64>, OutOfMemory>
    ensures { IfOk result (AreCounted files.now) }
{
    let mut counts = BTreeMap::new(alloc);
    for file in files.iter() {
        count_body(&mut counts, &file.body)?;
    }
    Ok(counts)
}

/// Counts the entries of a directory.
fn count_body(counts: &mut BTreeMap<u64, u64>, body: &Body) -> Result<(), OutOfMemory>
    ensures { (handle before : ℕ) → count_in counts.old handle ≡ kept before
        → OnOk result (count_in counts.new handle ≡ kept (before + count_by (λ entry. entry.handle == handle) (names_of body.now))) }
{
    match body {
        Body::Names(_, _, names) => count_names(counts, names),
        Body::Bytes(_) | Body::Path(_) => Ok(()),
    }
}

fn count_names(counts: &mut BTreeMap<u64, u64>, names: &NameList) -> Result<(), OutOfMemory>
    ensures { (handle before : ℕ) → count_in counts.old handle ≡ kept before
        → OnOk result (count_in counts.new handle ≡ kept (before + count_by (λ entry. entry.handle == handle) names.now)) }
{
    for entry in names.iter() {
        count_one(counts, entry.handle)?;
    }
    Ok(())
}

/// One more entry names a handle.
fn count_one(counts: &mut BTreeMap<u64, u64>, handle: u64) -> Result<(), OutOfMemory>
    ensures { (other before : ℕ) → count_in counts.old other ≡ kept before
        → OnOk result (count_in counts.new other ≡ kept (before + (if handle == other then 1 else 0))) }
{
    let count = count_of(counts, handle);
    counts.insert(handle, count.saturating_add(1))?;
    Ok(())
}

/// The count of a handle.
pub(crate) fn count_of(counts: &BTreeMap<u64, u64>, handle: u64) -> u64
    ensures { result ≡ count_in counts.now handle }
{
    match counts.get(&handle) {
        Some(count) => *count,
        None => 0,
    }
}
