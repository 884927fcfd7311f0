//! The parts of a store: what a new one has, copies of runs, and which members are down.

ghost use Rattle.std.specs.Prelude.{◌≡◌, ◌≢◌, ℕ, ◌<◌, None, Some, IfOk, IsSome, is_some, length, slice_get};
ghost use Rattle.bx_plain_store.specs.Out.{at};

use bx_base::{List, OutOfMemory, Raw};
use bx_records::{Run, Runs};
use std::alloc::Global;

/// Nothing for each of so many nodes.
pub(crate) fn nothing<T>(alloc: Global, count: u32) -> Result<Vec<Option<T>>, OutOfMemory>
where
    T: Drop,
    ensures long { IfOk result (λ all. length all.items ≡ count) }
    ensures none { (node : ℕ) → IfOk result (λ all. at all.items node ≡ None) }
{
    let mut all = Vec::new(alloc);
    for _ in 0..count {
        all.push(None)?;
    }
    Ok(all)
}

/// The session that a node has.
pub(crate) fn session_at(owns: &[Option<u64>], place: usize) -> u64
    requires place { place < length owns.now }
    requires some { IsSome (at owns.now place) }
    ensures { at owns.now place ≡ Some result }
{
    owns[place].unwrap()
}

/// A copy of runs.
pub(crate) fn copied(alloc: Global, runs: &Runs) -> Result<List<Run>, OutOfMemory>
    ensures { IfOk result (λ copy. copy ≡ runs.now.1) }
{
    let mut copy = List::new(alloc);
    for i in 0..runs.len() {
        let Some(run) = runs.get(i) else {
            return Ok(copy);
        };
        copy.push(Run {
            device: run.device,
            place: run.place,
            bytes: Raw::of(alloc, run.bytes.bytes())?,
        })?;
    }
    Ok(copy)
}

/// Notes whether a member is down, where there is such a member.
pub(crate) fn put_down(down: &mut Vec<bool>, member: u32, is_down: bool)
    ensures here { member < length down.old.items → slice_get down.new.items member ≡ Some is_down }
    ensures others { (other : ℕ) → other ≢ member → slice_get down.new.items other ≡ slice_get down.old.items other }
    ensures long { length down.new.items ≡ length down.old.items }
{
    let place = member as usize;
    if place < down.len() {
        down[place] = is_down;
    }
}

/// Whether something is there for a node.
pub(crate) fn is_there<T>(all: &[Option<T>], place: usize) -> bool
    ensures { result ≡ is_some (at all.now place) }
{
    if place >= all.len() {
        return false;
    }
    all[place].is_some()
}

/// The session of a node, where it has one.
pub(crate) fn find_session(owns: &[Option<u64>], place: usize) -> Option<u64>
    ensures { result ≡ at owns.now place }
{
    if place >= owns.len() {
        return None;
    }
    owns[place]
}
