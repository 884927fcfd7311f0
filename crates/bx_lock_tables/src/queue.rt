//! Wants that wait, in the order in which they came.

ghost use Rattle.std.specs.Prelude.{◌≡◌, ◌++◌, ◌∷◌, [], IfOk, OnOk, if◌then◌else◌};
ghost use Rattle.std.specs.BTreeMap.{values};
ghost use Rattle.bx_lock_tables.specs.Queue.{AreOnce, has_newer, queued, still_waiting, wants_at, without};
ghost use Rattle.bx_lock_tables.specs.Rows.{lives};

use crate::turns::{Blocks, find_turn, is_newer_at, put_turn, take_turn, wants_in};
use crate::verdict::is_live;
use bx_base::OutOfMemory;
use bx_global::GlobalState;
use bx_lock_words::Want;
use std::alloc::Global;
use std::collections::BTreeMap;
use std::marker::Model;

/// Wants that wait. Contracts see them in the order in which they came; a session waits for a block once. What waits for a block is
/// found without a look at the others.
#[derive(Drop)]
pub struct Queue {
    alloc: Global,
    next: u64,
    line: BTreeMap<u64, Want>,
    blocks: Blocks,
}

impl Model for Queue {
    ghost use Rattle.std.specs.Prelude.{List};
    ghost use Rattle.std.specs.BTreeMap.{values};
    ghost use Rattle.bx_lock_words.specs.declared.words.Want.{Want};
    ghost use Rattle.bx_lock_tables.specs.Queue.{IsQueue};

    ghost Value = { List Want };

    ghost view = { λ queue. values queue.line };

    ghost invariant = { λ queue. IsQueue queue.next queue.line queue.blocks };
}

impl Queue {
    /// Nothing waits yet. It takes no memory.
    pub fn new(alloc: Global) -> Queue
        ensures { result ≡ [] }
    {
        Queue {
            alloc,
            next: 0,
            line: BTreeMap::new(alloc),
            blocks: BTreeMap::new(alloc),
        }
    }

    /// All that wait.
    pub fn all(&self) -> Result<Vec<Want>, OutOfMemory>
        ensures is { IfOk result (λ wants. wants.items ≡ self.now) }
        ensures once { AreOnce self.now }
    {
        all_in(self.alloc, &self.line)
    }

    /// Those that wait for a block.
    pub fn at_block(&self, block: u64) -> Result<Vec<Want>, OutOfMemory>
        ensures is { IfOk result (λ wants. wants.items ≡ wants_at block self.now) }
        ensures once { AreOnce self.now }
    {
        wants_in(self.alloc, &self.blocks, block)
    }

    /// Drops the want of a session and a block.
    pub fn drop_request(&mut self, want: &Want)
        ensures { self.new ≡ without want.now self.old }
    {
        let Some(turn) = find_turn(&self.blocks, want) else {
            return;
        };
        self.line.remove(&turn);
        take_turn(&mut self.blocks, want);
    }

    /// Whether a want of the same session and block waits whose number isn't lower.
    fn is_newer_waiting(&self, want: &Want) -> bool
        ensures { result ≡ has_newer want.now self.now }
    {
        is_newer_at(&self.blocks, want)
    }

    /// Puts a want behind those that wait. One that waits already, with this number or a higher one, keeps its place; a lower one of
    /// the same session and block goes.
    pub fn enqueue(&mut self, want: &Want) -> Result<(), OutOfMemory>
        ensures { OnOk result (self.new ≡ queued want.now self.old) }
    {
        if self.is_newer_waiting(want) {
            return Ok(());
        }
        self.drop_request(want);
        self.push(want)
    }

    /// Puts a want behind those that wait, where none of its session and block does.
    fn push(&mut self, want: &Want) -> Result<(), OutOfMemory>
        requires { without want.now self.old ≡ self.old }
        ensures { OnOk result (self.new ≡ self.old ++ want.now ∷ []) }
    {
        // Turns run out as memory does.
        let Some(next) = self.next.checked_add(1) else {
            return Err(OutOfMemory);
        };
        put_turn(self.alloc, &mut self.blocks, self.next, want)?;
        if self.line.insert(self.next, *want).is_err() {
            take_turn(&mut self.blocks, want);
            return Err(OutOfMemory);
        }
        self.next = next;
        Ok(())
    }

    /// Drops a want where its session doesn't live.
    fn drop_dead(&mut self, known: &GlobalState, want: &Want)
        ensures { self.new ≡ (if lives known.now want.now.session then self.old else without want.now self.old) }
    {
        if !is_live(known, want.session) {
            self.drop_request(want);
        }
    }

    /// Drops the wants of sessions that don't live.
    pub fn keep_live(&mut self, known: &GlobalState) -> Result<(), OutOfMemory>
        ensures { OnOk result (self.new ≡ still_waiting known.now self.old) }
    {
        let wants = self.all()?;
        for want in &wants {
            self.drop_dead(known, want);
        }
        Ok(())
    }

    /// Drops all. It takes no memory.
    pub fn clear(&mut self)
        ensures { self.new ≡ [] }
    {
        self.line.clear();
        self.blocks.clear();
    }
}

/// The wants of a line.
fn all_in(alloc: Global, line: &BTreeMap<u64, Want>) -> Result<Vec<Want>, OutOfMemory>
    ensures { IfOk result (λ wants. wants.items ≡ values line.now) }
{
    let mut wants = Vec::new(alloc);
    for want in line.values() {
        wants.push(*want)?;
    }
    Ok(wants)
}
