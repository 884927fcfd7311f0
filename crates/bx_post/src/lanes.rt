//! Pending packets in lanes: one for each sender, receiver and kind.

ghost use Rattle.std.specs.Prelude.{◌≡◌, ◌+◌, ◌^◌, ◌<◌, ◌≤◌, ◌++◌, List, length, map, OnErr, OnOk, IfOk};
ghost use Rattle.std.specs.List.{AllByRecursion};
ghost use Rattle.bx_post.specs.Lanes.{AreLanes, Rises, filed, first_on, is_on, lane_anew, lane_for, lane_to, lane_with, lane_without, place_in, sooner, soonest};
ghost use Rattle.bx_post.specs.Posts.{Posted, fresh};
ghost use Rattle.bx_post.specs.Rising.{IsRising};

use crate::packets::Letter;
use crate::passes::Passes;
use crate::search::{place_above, stands_at};
use bx_base::{Actor, OutOfMemory};
use std::alloc::Global;
use std::collections::VecDeque;
use std::marker::Model;

/// The numbers of pending packets of one kind from one machine to another, in their order.
#[derive(Drop)]
pub(crate) struct Lane {
    from: Actor,
    to: Actor,
    kind: u8,
    numbers: VecDeque<u64>,
}

impl Model for Lane {
    ghost use Rattle.bx_post.specs.Lanes.{Laned};

    ghost Value = { Laned };

    ghost view = { λ lane. record { from = lane.from; to = lane.to; kind = lane.kind; numbers = lane.numbers.items } };
}

impl Lane {
    /// A lane of its own for a letter with its number.
    fn of(alloc: Global, letter: &Letter, number: u64) -> Result<Lane, OutOfMemory>
        ensures { IfOk result (λ lane. lane ≡ lane_for letter.now number) }
    {
        let mut numbers = VecDeque::new(alloc);
        numbers.push_back(number)?;
        Ok(Lane {
            from: letter.from,
            to: letter.to,
            kind: letter.kind,
            numbers,
        })
    }

    /// Whether a letter goes on it.
    fn has(&self, letter: &Letter) -> bool
        ensures { result ≡ is_on self.now letter.now }
    {
        self.from == letter.from && self.to == letter.to && self.kind == letter.kind
    }

    /// Puts a number at the end. Where memory runs out, nothing changes.
    fn push(&mut self, number: u64) -> Result<(), OutOfMemory>
        ensures ok { OnOk result (self.new ≡ lane_with number self.old) }
        ensures err { OnErr result (self.new ≡ self.old) }
    {
        self.numbers.push_back(number)?;
        Ok(())
    }

    /// Drops a number.
    fn take_out(&mut self, number: u64)
        requires rises { IsRising self.old.numbers }
        requires some { 1 ≤ number }
        ensures { self.new ≡ lane_without number self.old }
    {
        let place = place_above(&self.numbers, number - 1);
        if stands_at(&self.numbers, place, number) {
            self.numbers.remove(place);
        }
    }

    /// Drops the numbers above a bound.
    fn cut(&mut self, bound: u64)
        ensures { self.new ≡ lane_to bound self.old }
    {
        self.numbers.retain(|number| *number <= bound);
    }

    /// Puts the place of each number among those of all pending packets in its place.
    fn number_anew(&mut self, waiting: &VecDeque<u64>)
        requires rises { IsRising waiting.now.items }
        ensures { self.new ≡ lane_anew waiting.now.items self.old }
    {
        for at in 0..self.numbers.len() {
            self.numbers[at] = place_of(waiting, self.numbers[at]);
        }
    }

    /// The least number on it, where it passes.
    fn first<P: Passes>(&self, gate: &P) -> Option<u64>
        ensures { result ≡ first_on (P.passes gate.now) self.now }
    {
        if gate.passes(self.from, self.to, self.kind) {
            self.numbers.front().copied()
        } else {
            None
        }
    }
}

/// The place of a number among those that rise, from 1 on.
fn place_of(waiting: &VecDeque<u64>, number: u64) -> u64
    requires rises { IsRising waiting.now.items }
    ensures { result ≡ place_in waiting.now.items number }
{
    place_above(waiting, number.saturating_sub(1)) as u64 + 1
}

/// Files a letter with its number. Where memory runs out, nothing changes.
fn file(
    alloc: Global,
    lanes: &mut Vec<Lane>,
    letter: &Letter,
    number: u64,
) -> Result<(), OutOfMemory>
    ensures ok { OnOk result (lanes.new.items ≡ filed letter.now number lanes.old.items) }
    ensures err { OnErr result (lanes.new.items ≡ lanes.old.items) }
{
    for at in 0..lanes.len() {
        if lanes[at].has(letter) {
            return lanes[at].push(number);
        }
    }
    lanes.push(Lane::of(alloc, letter, number)?)?;
    Ok(())
}

/// Files letters behind so many packets. Where memory runs out, `cut_back` leaves the lanes of those packets.
pub(crate) fn file_all(
    alloc: Global,
    lanes: &mut Vec<Lane>,
    letters: &[Letter],
    count: usize,
) -> Result<(), OutOfMemory>
    requires { count + length letters.now < 2 ^ 64 }
    ensures ok { (all : List Posted) → length all ≡ count → AreLanes all lanes.old.items → OnOk result (AreLanes (all ++ map fresh letters.now) lanes.new.items) }
    ensures back { (all : List Posted) → length all ≡ count → AreLanes all lanes.old.items → AreLanes all (map (lane_to count) lanes.new.items) }
{
    let mut number = count as u64;
    for letter in letters {
        number += 1;
        file(alloc, lanes, letter, number)?;
    }
    Ok(())
}

/// Drops the numbers above a bound.
pub(crate) fn cut_back(lanes: &mut Vec<Lane>, bound: u64)
    ensures { lanes.new.items ≡ map (lane_to bound) lanes.old.items }
{
    for at in 0..lanes.len() {
        lanes[at].cut(bound);
    }
}

/// Drops a number.
pub(crate) fn drop_number(lanes: &mut Vec<Lane>, number: u64)
    requires rise { AllByRecursion Rises lanes.old.items }
    requires some { 1 ≤ number }
    ensures { lanes.new.items ≡ map (lane_without number) lanes.old.items }
{
    for at in 0..lanes.len() {
        lanes[at].take_out(number);
    }
}

/// Puts the place of each number among those of all pending packets in its place.
pub(crate) fn number_lanes(lanes: &mut Vec<Lane>, waiting: &VecDeque<u64>)
    requires rises { IsRising waiting.now.items }
    ensures { lanes.new.items ≡ map (lane_anew waiting.now.items) lanes.old.items }
{
    for at in 0..lanes.len() {
        lanes[at].number_anew(waiting);
    }
}

/// The lesser of two numbers, where they are.
fn sooner(one: Option<u64>, other: Option<u64>) -> Option<u64>
    ensures { result ≡ sooner one other }
{
    match (one, other) {
        (Some(n), Some(m)) => Some(n.min(m)),
        (found, None) | (None, found) => found,
    }
}

/// The least number on lanes that pass.
pub(crate) fn soonest<P: Passes>(lanes: &[Lane], gate: &P) -> Option<u64>
    ensures { result ≡ soonest (P.passes gate.now) lanes.now }
{
    let mut best = None;
    for lane in lanes {
        best = sooner(best, lane.first(gate));
    }
    best
}
