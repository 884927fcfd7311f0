//! Blocks that are asked back, each with the session that asks.

ghost use Rattle.std.specs.Prelude.{◌≡◌, [], OnErr, OnOk};
ghost use Rattle.std.specs.BTreeMap.{IsOrdered};
ghost use Rattle.bx_facts.specs.Holds.{first_of, without_block};
ghost use Rattle.bx_clerk.specs.Places.{asks_of, key_cmp, without_places};
ghost use Rattle.bx_clerk.specs.Requests.{held_asks, is_asked, with_ask};

use crate::places::{Blocks, Place, is_asked_at, put_at};
use crate::requests::{Requests, is_held};
use bx_base::OutOfMemory;
use std::alloc::Global;
use std::collections::BTreeMap;
use std::marker::Model;

/// Blocks that are asked back. Contracts see them with the sessions that ask, in the order of those sessions, and within one in the order
/// in which they came. Whether one comes or goes, no other is looked at.
#[derive(Drop)]
pub(crate) struct Asks {
    alloc: Global,
    next: u64,
    line: BTreeMap<Place, u64>,
    blocks: Blocks,
}

impl Model for Asks {
    ghost use Rattle.std.specs.Prelude.{ℕ, List};
    ghost use Rattle.bx_clerk.specs.Places.{AreAsks, asks_of};

    ghost Value = { List (ℕ × ℕ) };

    ghost view = { λ asks. asks_of asks.line.entries };

    ghost invariant = { λ asks. AreAsks asks.next asks.line asks.blocks };
}

impl Asks {
    /// Nothing is asked back yet. It takes no memory.
    pub(crate) fn new(alloc: Global) -> Asks
        ensures { result ≡ [] }
    {
        Asks {
            alloc,
            next: 0,
            line: BTreeMap::new(alloc),
            blocks: BTreeMap::new(alloc),
        }
    }

    /// Whether a session asks a block back already.
    fn is_asked(&self, block: u64, asking: u64) -> bool
        ensures { result ≡ is_asked (block, asking) self.now }
    {
        is_asked_at(&self.blocks, block, asking)
    }

    /// Notes that a session asks a block back. Where memory runs out, nothing changes.
    pub(crate) fn put(&mut self, block: u64, asking: u64) -> Result<(), OutOfMemory>
        ensures ok { OnOk result (self.new ≡ with_ask (block, asking) self.old) }
        ensures err { OnErr result (self.new ≡ self.old) }
    {
        if self.is_asked(block, asking) {
            return Ok(());
        }
        // Turns run out as memory does.
        let Some(next) = self.next.checked_add(1) else {
            return Err(OutOfMemory);
        };
        let place = (asking, self.next);
        self.line.insert(place, block)?;
        if put_at(self.alloc, &mut self.blocks, block, place).is_err() {
            self.line.remove(&place);
            return Err(OutOfMemory);
        }
        self.next = next;
        Ok(())
    }

    /// Forgets that a block is asked back.
    pub(crate) fn drop_block(&mut self, block: u64)
        ensures { self.new ≡ without_block block self.old }
    {
        if let Some(places) = self.blocks.remove(&block) {
            take_each(&mut self.line, places.as_slice());
        }
    }

    /// Forgets all.
    pub(crate) fn clear(&mut self)
        ensures { self.new ≡ [] }
    {
        self.line.clear();
        self.blocks.clear();
    }

    /// The first of those whose block is held.
    pub(crate) fn first_held(&self, requests: &Requests) -> Option<(u64, u64)>
        ensures { result ≡ first_of (held_asks requests.now self.now) }
    {
        first_held_in(&self.line, requests)
    }
}

/// Takes what stands in each of these places out of a line.
fn take_each(line: &mut BTreeMap<Place, u64>, places: &[Place])
    requires { IsOrdered key_cmp line.old }
    ensures entries { line.new.entries ≡ without_places places.now line.old.entries }
    ensures ordered { IsOrdered key_cmp line.new }
{
    for place in places {
        line.remove(place);
    }
}

/// The first in a line whose block is held.
fn first_held_in(line: &BTreeMap<Place, u64>, requests: &Requests) -> Option<(u64, u64)>
    ensures { result ≡ first_of (held_asks requests.now (asks_of line.now.entries)) }
{
    for (place, block) in line.iter() {
        if is_held(&requests.get(*block)) {
            return Some((*block, place.0));
        }
    }
    None
}
