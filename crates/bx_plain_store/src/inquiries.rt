//! Reads that are out, or whose answers weren't taken yet.

ghost use Rattle.std.specs.Prelude.{◌≡◌, ℕ, ◌<◌, length, None, Some, OnOk, IsErrOf, IsNone, IsSome};
ghost use Rattle.bx_disk.specs.Counts.{NoneRose};
ghost use Rattle.bx_disk.specs.Kept.{Counted};
ghost use Rattle.bx_disk.specs.Disks.{IsImage};
ghost use Rattle.bx_calls.specs.Calls.{LeavesOnly};
ghost use Rattle.bx_facts.specs.Writes.{Asked};
ghost use Rattle.bx_facts.specs.declared.input.FactError.TheVariants.{Disk as DiskFails, OutOfMemory as MemoryFails};
ghost use Rattle.bx_plain_store.specs.Out.{at};
ghost use Rattle.bx_plain_store.specs.declared.inquiries.Inquiry.{Inquiry};
ghost use Rattle.bx_plain_store.specs.Parts.{IsAnswered, IsReadable, answer_at, answer_in, asked_at, asked_in};

use crate::reads::{Ask, answer};
use bx_base::Raw;
use bx_disk::Rack;
use bx_facts::FactError;
use bx_global::GlobalState;
use std::alloc::Global;

/// A node's read that is out, or whose answer wasn't taken yet.
#[derive(Drop)]
pub struct Inquiry {
    /// What is read.
    pub ask: Ask,
    /// The bytes, once they were read.
    pub answer: Option<Raw>,
}

/// Answers a read that has no answer yet, where its device is there.
fn answer_one<R: Rack>(
    alloc: Global,
    rack: &mut R,
    known: &GlobalState,
    slot: &mut Option<Inquiry>,
) -> Result<(), FactError>
    requires fit { (inquiry : Inquiry) → slot.old ≡ Some inquiry → IsReadable (R.state rack.old).sizes inquiry.ask }
    ensures answered { R.tells rack.old → IsAnswered (R.state rack.old) known.now slot.old slot.new }
    ensures asks { asked_in slot.new ≡ asked_in slot.old }
    ensures there { (asks : Asked) → asked_in slot.old ≡ Some asks → asks.device < length known.now.devices → OnOk result (IsSome (answer_in slot.new)) }
    ensures stays { R.tells rack.old → R.state rack.new ≡ R.state rack.old }
    ensures any_moment { R.tells rack.old → LeavesOnly (R.moment rack.old) (R.moment rack.new) (R.left_since rack.old) (R.left_since rack.new) (IsImage (R.state rack.old)) }
    ensures memory { IsErrOf result MemoryFails → NoneRose (R.faults rack.old) (R.faults rack.new) (R.faults_of rack.old) (R.faults_of rack.new) }
    ensures rack { Counted R.Rack rack.old rack.new result DiskFails }
{
    let Some(inquiry) = slot else {
        return Ok(());
    };
    if inquiry.answer.is_some() {
        return Ok(());
    }
    inquiry.answer = answer(alloc, rack, known, inquiry.ask)?;
    Ok(())
}

/// Answers each read that has no answer yet, where its device is there.
pub(crate) fn answer_all<R: Rack>(
    alloc: Global,
    rack: &mut R,
    known: &GlobalState,
    inquiries: &mut Vec<Option<Inquiry>>,
) -> Result<(), FactError>
    requires fit { (node : ℕ) (inquiry : Inquiry) → at inquiries.old.items node ≡ Some inquiry → IsReadable (R.state rack.old).sizes inquiry.ask }
    ensures answered { (node : ℕ) → R.tells rack.old → IsAnswered (R.state rack.old) known.now (at inquiries.old.items node) (at inquiries.new.items node) }
    ensures asks { (node : ℕ) → asked_at inquiries.new.items node ≡ asked_at inquiries.old.items node }
    ensures there { (node : ℕ) (asks : Asked) → asked_at inquiries.old.items node ≡ Some asks → asks.device < length known.now.devices → OnOk result (IsSome (answer_at inquiries.new.items node)) }
    ensures long { length inquiries.new.items ≡ length inquiries.old.items }
    ensures stays { R.tells rack.old → R.state rack.new ≡ R.state rack.old }
    ensures any_moment { R.tells rack.old → LeavesOnly (R.moment rack.old) (R.moment rack.new) (R.left_since rack.old) (R.left_since rack.new) (IsImage (R.state rack.old)) }
    ensures memory { IsErrOf result MemoryFails → NoneRose (R.faults rack.old) (R.faults rack.new) (R.faults_of rack.old) (R.faults_of rack.new) }
    ensures rack { Counted R.Rack rack.old rack.new result DiskFails }
{
    for i in 0..inquiries.len() {
        answer_one(alloc, rack, known, &mut inquiries[i])?;
    }
    Ok(())
}

/// The answer to a read, where there is one: the read is over then.
pub(crate) fn take_answer(slot: &mut Option<Inquiry>) -> Option<Raw>
    ensures answer { result ≡ answer_in slot.old }
    ensures taken { IsSome result → slot.new ≡ None }
    ensures not_yet { IsNone result → (asked_in slot.new ≡ asked_in slot.old) × (answer_in slot.new ≡ None) }
{
    let Some(inquiry) = slot else {
        return None;
    };
    if inquiry.answer.is_none() {
        return None;
    }
    let answer = inquiry.answer.take();
    *slot = None;
    answer
}
