//! What a node asked for, by block.

ghost use Rattle.std.specs.Prelude.{◌≡◌, [], OnErr, OnOk};
ghost use Rattle.std.specs.BTreeMap.{get};
ghost use Rattle.std.specs.Ordering.{nat_cmp};
ghost use Rattle.bx_clerk.specs.Requests.{fits, hold_as, hold_of, is_held, request_in, wish_as, wish_of, with_request, without_request};
ghost use Rattle.bx_clerk.specs.Turns.{asking_of};

use bx_base::{Mode, OutOfMemory};
use std::alloc::Global;
use std::collections::BTreeMap;
use std::collections::btree_map::Values;
use std::marker::Model;

/// The latest request for a block: it is out, or held.
#[derive(Clone, Copy)]
pub struct Asking {
    /// How the block is wanted, or held.
    pub mode: Mode,
    /// The number.
    pub number: u64,
    /// The index of the state that a reader is to know, where it is held.
    pub held: Option<u64>,
}

/// The latest requests, by block. Contracts see them as the list of their entries, in the order in which the blocks came. Whether one comes
/// or goes, no other is moved.
#[derive(Drop)]
pub(crate) struct Requests {
    next: u64,
    line: BTreeMap<u64, (u64, Asking)>,
    turns: BTreeMap<u64, u64>,
}

impl Model for Requests {
    ghost use Rattle.std.specs.Prelude.{ℕ, List};
    ghost use Rattle.std.specs.BTreeMap.{values};
    ghost use Rattle.bx_clerk.specs.declared.requests.Asking.{Asking};
    ghost use Rattle.bx_clerk.specs.Turns.{AreKept};

    ghost Value = { List (ℕ × Asking) };

    ghost view = { λ requests. values requests.line };

    ghost invariant = { λ requests. AreKept requests.next requests.line requests.turns };
}

impl Requests {
    /// No requests yet. It takes no memory.
    pub(crate) fn new(alloc: Global) -> Requests
        ensures { result ≡ [] }
    {
        Requests {
            next: 0,
            line: BTreeMap::new(alloc),
            turns: BTreeMap::new(alloc),
        }
    }

    /// Each with its block, in their order.
    pub(crate) fn iter(&self) -> Values<'_, u64, (u64, Asking)>
        ensures { result ≡ self.now }
    {
        self.line.values()
    }

    /// The request for a block.
    pub(crate) fn get(&self, block: u64) -> Option<Asking>
        ensures { result ≡ request_in self.now block }
    {
        match self.turns.get(&block) {
            None => None,
            Some(turn) => asking_at(&self.line, *turn),
        }
    }

    /// Puts a request in the place of that of its block, or at the end. Where memory runs out, nothing changes.
    pub(crate) fn put(&mut self, block: u64, asking: Asking) -> Result<(), OutOfMemory>
        ensures ok { OnOk result (self.new ≡ with_request self.old block asking) }
        ensures err { OnErr result (self.new ≡ self.old) }
    {
        if let Some(turn) = self.turns.get(&block).copied() {
            self.line.insert(turn, (block, asking))?;
            return Ok(());
        }
        // Turns run out as memory does.
        let Some(next) = self.next.checked_add(1) else {
            return Err(OutOfMemory);
        };
        self.turns.insert(block, self.next)?;
        if self.line.insert(self.next, (block, asking)).is_err() {
            self.turns.remove(&block);
            return Err(OutOfMemory);
        }
        self.next = next;
        Ok(())
    }

    /// Takes out the request for a block.
    pub(crate) fn take_out(&mut self, block: u64)
        ensures { self.new ≡ without_request self.old block }
    {
        let Some(turn) = self.turns.get(&block).copied() else {
            return;
        };
        self.turns.remove(&block);
        self.line.remove(&turn);
    }

    /// Takes out all.
    pub(crate) fn clear(&mut self)
        ensures { self.new ≡ [] }
    {
        self.line.clear();
        self.turns.clear();
    }
}

/// The request of a turn.
fn asking_at(line: &BTreeMap<u64, (u64, Asking)>, turn: u64) -> Option<Asking>
    ensures { result ≡ asking_of (get nat_cmp line.now turn) }
{
    let (_, asking) = line.get(&turn)?;
    Some(*asking)
}

/// How a request holds its block; `None` exactly where it doesn't.
pub(crate) fn hold_of(request: &Option<Asking>) -> Option<(Mode, u64)>
    ensures { result ≡ hold_of request.now }
{
    let Some(request) = request else {
        return None;
    };
    match request.held {
        None => None,
        Some(index) => Some((request.mode, index)),
    }
}

/// How a request wants its block; `None` exactly where it is none, or is held.
pub(crate) fn wish_of(request: &Option<Asking>) -> Option<Mode>
    ensures { result ≡ wish_of request.now }
{
    let Some(request) = request else {
        return None;
    };
    match request.held {
        None => Some(request.mode),
        Some(_) => None,
    }
}

/// Whether a request is held.
pub(crate) fn is_held(request: &Option<Asking>) -> bool
    ensures { result ≡ is_held request.now }
{
    match request {
        None => false,
        Some(request) => request.held.is_some(),
    }
}

/// Whether a request has this number.
pub(crate) fn has_number(request: &Option<Asking>, number: u64) -> bool
    ensures { result ≡ fits request.now number }
{
    match request {
        None => false,
        Some(request) => request.number == number,
    }
}
