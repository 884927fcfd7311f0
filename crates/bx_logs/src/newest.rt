//! The newest blocks of a log, by their numbers.

ghost use Rattle.std.specs.Prelude.{◌≡◌, ◌↔◌, ℕ, length, reverse, IfOk, IfSome, IfNone, OnOk, IsTrue};
ghost use Rattle.bx_records.specs.Drafts.{block_in};
ghost use Rattle.bx_homes.specs.bx_volume.specs.Records.{newest_in, or_older};
ghost use Rattle.bx_logs.specs.Newest.{Agree, AreAgreed, AreNewest, Differ, IsClash, newest_at};

use crate::record::Record;
use bx_base::{List, OutOfMemory, Raw};
use bx_layout::Block;
use std::alloc::Global;
use std::collections::BTreeMap;

/// The newest block of each number that a log has.
pub type Newest = BTreeMap<u64, Block>;

/// The newest blocks of the records of a log, the oldest of which comes first.
pub fn newest_of(alloc: Global, records: &[Record]) -> Result<Newest, OutOfMemory>
    ensures { IfOk result (λ newest. (at : ℕ) → newest_at newest at ≡ newest_in (reverse records.now) at) }
{
    let mut newest = Newest::new(alloc);
    for record in records {
        lay_over(&mut newest, alloc, record.changed())?;
    }
    Ok(newest)
}

/// Puts the blocks of a newer record over those that are there.
fn lay_over(newest: &mut Newest, alloc: Global, changed: &[(u64, Block)]) -> Result<(), OutOfMemory>
    ensures { OnOk result ((at : ℕ) → newest_at newest.new at ≡ or_older (block_in changed.now at) (newest_at newest.old at)) }
{
    // From the last on, so that of two with one number the first would count.
    if let [(at, block), behind @ ..] = changed {
        lay_over(newest, alloc, behind)?;
        newest.insert(*at, copy_of(alloc, block)?)?;
    }
    Ok(())
}

/// The first number with which two logs have different blocks, and the handle in the header of the second log's.
fn clash_between(one: &Newest, other: &Newest) -> Option<(u64, u64)>
    ensures none { IfNone result (Agree one.now other.now) }
    ensures some { IfSome result (λ clash. Differ one.now other.now clash.0 clash.1) }
{
    for (at, block) in other {
        if let Some(own) = one.get(at) {
            if !are_same(own, block) {
                return Some((*at, block.handle));
            }
        }
    }
    None
}

/// A copy of a block.
pub fn copy_of(alloc: Global, block: &Block) -> Result<Block, OutOfMemory>
    ensures { IfOk result (λ copy. copy ≡ block.now) }
{
    Ok(Block {
        handle: block.handle,
        kind: block.kind,
        payload: Raw::of(alloc, block.payload.bytes())?,
    })
}

/// Whether two blocks are the same.
fn are_same(one: &Block, other: &Block) -> bool
    ensures { IsTrue result ↔ (one.now ≡ other.now) }
{
    one.handle == other.handle
        && one.kind == other.kind
        && one.payload.bytes() == other.payload.bytes()
}

/// The newest blocks of each log, slot by slot.
pub fn newest_of_all(alloc: Global, logs: &[List<Record>]) -> Result<List<Newest>, OutOfMemory>
    ensures { IfOk result (AreNewest logs.now) }
{
    let mut newest = List::new(alloc);
    for records in logs {
        newest.push(newest_of(alloc, records.items())?)?;
    }
    Ok(newest)
}

/// A number with which two logs have different blocks, and the handle in the header of the later slot's. `None` exactly where any two
/// logs have the same block where both have one.
pub fn clash_in(logs: &[Newest]) -> Option<(u64, u64)>
    ensures none { IfNone result (AreAgreed logs.now (length logs.now)) }
    ensures some { IfSome result (λ clash. IsClash logs.now clash.0 clash.1) }
{
    for later in 0..logs.len() {
        for slot in 0..later {
            if let Some(clash) = clash_between(&logs[slot], &logs[later]) {
                return Some(clash);
            }
        }
    }
    None
}
