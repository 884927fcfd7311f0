//! The places that each block has in the line of those that are asked back.

ghost use Rattle.std.specs.Prelude.{◌≡◌, ◌==◌, ℕ, OnErr, OnOk, if◌then◌else◌};
ghost use Rattle.std.specs.List.{list_any};
ghost use Rattle.bx_clerk.specs.Places.{place_in, places_at, put_place};

use bx_base::OutOfMemory;
use std::alloc::Global;
use std::collections::BTreeMap;

/// A place in the line: the session that asks, and a turn.
pub(crate) type Place = (u64, u64);

/// The places of each block, in their order. Few sessions ask for one block.
pub(crate) type Blocks = BTreeMap<u64, Vec<Place>>;

/// Whether one of the places is of a session.
fn has_session(places: &[Place], asking: u64) -> bool
    ensures { result ≡ list_any (λ place. place.0 == asking) places.now }
{
    places.iter().any(|place| place.0 == asking)
}

/// Whether a session asks a block back.
pub(crate) fn is_asked_at(blocks: &Blocks, block: u64, asking: u64) -> bool
    ensures { result ≡ list_any (λ place. place.0 == asking) (places_at blocks.now block) }
{
    match blocks.get(&block) {
        None => false,
        Some(places) => has_session(places, asking),
    }
}

/// Where the first place of a higher session stands.
fn index_for(places: &[Place], asking: u64) -> usize
    ensures { result ≡ place_in asking places.now }
{
    for index in 0..places.len() {
        if asking < places[index].0 {
            return index;
        }
    }
    places.len()
}

/// Puts a place behind those of its session and of lower ones.
fn put_place(places: &mut Vec<Place>, place: Place) -> Result<(), OutOfMemory>
    ensures ok { OnOk result (places.new.items ≡ put_place place places.old.items) }
    ensures err { OnErr result (places.new.items ≡ places.old.items) }
{
    let index = index_for(places, place.0);
    places.insert(index, place)?;
    Ok(())
}

/// Puts a place to those of a block. Where memory runs out, nothing changes.
pub(crate) fn put_at(
    alloc: Global,
    blocks: &mut Blocks,
    block: u64,
    place: Place,
) -> Result<(), OutOfMemory>
    ensures ok { OnOk result ((b : ℕ) → places_at blocks.new b ≡ (if b == block then put_place place (places_at blocks.old b) else places_at blocks.old b)) }
    ensures err { OnErr result ((b : ℕ) → places_at blocks.new b ≡ places_at blocks.old b) }
{
    if let Some(places) = blocks.get_mut(&block) {
        return put_place(places, place);
    }
    let places = vec![in alloc; place]?;
    blocks.insert(block, places)?;
    Ok(())
}
