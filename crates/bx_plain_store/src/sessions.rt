//! Nodes' sessions.

ghost use Rattle.std.specs.Prelude.{◌≡◌, ◌≢◌, ◌⊎◌, ℕ, ◌<◌, None, IfOk, length};
ghost use Rattle.bx_facts.specs.Chains.{any_session_of};
ghost use Rattle.bx_plain_store.specs.Out.{at};
ghost use Rattle.bx_plain_store.specs.Fits.{HasSessionsOf};

use crate::inquiries::Inquiry;
use crate::writes::Write;
use bx_base::OutOfMemory;
use bx_global::GlobalState;
use std::alloc::Global;

/// The live session of a node, whatever its boot.
pub(crate) fn any_session(known: &GlobalState, node: u32) -> Option<u64>
    ensures { result ≡ any_session_of known.now node }
{
    let row = known
        .sessions
        .items()
        .iter()
        .find(|row| row.node == node && row.dead == 0)?;
    Some(row.number)
}

/// The sessions of so many nodes.
pub(crate) fn sessions_of(
    alloc: Global,
    known: &GlobalState,
    nodes: u32,
) -> Result<Vec<Option<u64>>, OutOfMemory>
    ensures { IfOk result (λ owns. HasSessionsOf known.now nodes owns.items) }
{
    let mut owns = Vec::new(alloc);
    for node in 0..nodes {
        owns.push(any_session(known, node))?;
    }
    Ok(owns)
}

/// Gives a node another session, or none. What it had out is forgotten.
pub(crate) fn put_session(
    place: usize,
    session: Option<u64>,
    owns: &mut Vec<Option<u64>>,
    slots: &mut Vec<Option<Write>>,
    inquiries: &mut Vec<Option<Inquiry>>,
)
    requires slots { length slots.old.items ≡ length owns.old.items }
    requires inquiries { length inquiries.old.items ≡ length owns.old.items }
    ensures own { place < length owns.old.items → at owns.new.items place ≡ session }
    ensures own_or { (at owns.new.items place ≡ session) ⊎ (at owns.new.items place ≡ None) }
    ensures out { at slots.new.items place ≡ None }
    ensures asked { at inquiries.new.items place ≡ None }
    ensures others { (other : ℕ) → other ≢ place → (at owns.new.items other ≡ at owns.old.items other) × (at slots.new.items other ≡ at slots.old.items other) × (at inquiries.new.items other ≡ at inquiries.old.items other) }
    ensures long { (length owns.new.items ≡ length owns.old.items) × (length slots.new.items ≡ length slots.old.items) × (length inquiries.new.items ≡ length inquiries.old.items) }
{
    if place < owns.len() {
        owns[place] = session;
        slots[place] = None;
        inquiries[place] = None;
    }
}

/// Gives a node a session. Where it is another than it had, what it had out is forgotten.
pub(crate) fn meet_session(
    place: usize,
    session: Option<u64>,
    owns: &mut Vec<Option<u64>>,
    slots: &mut Vec<Option<Write>>,
    inquiries: &mut Vec<Option<Inquiry>>,
)
    requires place { place < length owns.old.items }
    requires slots { length slots.old.items ≡ length owns.old.items }
    requires inquiries { length inquiries.old.items ≡ length owns.old.items }
    ensures own { at owns.new.items place ≡ session }
    ensures another { at owns.old.items place ≢ session → (at slots.new.items place ≡ None) × (at inquiries.new.items place ≡ None) }
    ensures same { at owns.old.items place ≡ session → (at slots.new.items place ≡ at slots.old.items place) × (at inquiries.new.items place ≡ at inquiries.old.items place) }
    ensures others { (other : ℕ) → other ≢ place → (at owns.new.items other ≡ at owns.old.items other) × (at slots.new.items other ≡ at slots.old.items other) × (at inquiries.new.items other ≡ at inquiries.old.items other) }
    ensures long { (length owns.new.items ≡ length owns.old.items) × (length slots.new.items ≡ length slots.old.items) × (length inquiries.new.items ≡ length inquiries.old.items) }
{
    if owns[place] == session {
        return;
    }
    put_session(place, session, owns, slots, inquiries);
}
