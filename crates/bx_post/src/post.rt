//! The list of all packets of a run.

ghost use Rattle.std.specs.Prelude.{◌≡◌, ◌≢◌, true, false, slice_get, ◌++◌, [], map, filter, length, OnOk, OnErr};
ghost use Rattle.std.specs.Option.{option_copied};
ghost use Rattle.bx_post.specs.Lanes.{AreLanes, IsWhole, lane_to};
ghost use Rattle.bx_post.specs.Posts.{fresh, is_waiting, next_from, packet_from, passing_from, settled_from};
ghost use Rattle.bx_post.specs.Slots.{AreNumbered, IsKept, count_from, posted, slot_waits};

use crate::lanes::{Lane, cut_back, drop_number, file_all, number_lanes, soonest};
use crate::packets::{Letter, Outbox, Packet};
use crate::passes::Passes;
use crate::search::{place_above, stands_at};
use bx_base::OutOfMemory;
use std::alloc::Global;
use std::collections::VecDeque;
use std::marker::Model;

/// A packet, and whether it is pending.
#[derive(Drop)]
pub(crate) struct Slot {
    pub(crate) packet: Packet,
    pub(crate) waits: bool,
}

/// All packets of a run, numbered from 1 in the order of sending, each pending or not. Contracts see it as the list of the
/// letters, each with whether it is pending: a packet's number is its place in that list, counted from 1.
#[derive(Drop)]
pub struct Post {
    slots: Vec<Slot>,
    waiting: VecDeque<u64>,
    lanes: Vec<Lane>,
}

impl Model for Post {
    ghost use Rattle.std.specs.Prelude.{List};
    ghost use Rattle.bx_post.specs.Posts.{Posted};
    ghost use Rattle.bx_post.specs.Lanes.{IsWhole};
    ghost use Rattle.bx_post.specs.Slots.{posted};

    ghost Value = { List Posted };

    ghost view = { λ post. posted post.slots.items };

    ghost invariant = { λ post. IsWhole post.slots.items post.waiting.items post.lanes.items };
}

impl Post {
    /// No packets yet. It takes no memory.
    pub fn new(alloc: Global) -> Post
        ensures { result ≡ [] }
    {
        Post {
            slots: Vec::new(alloc),
            waiting: VecDeque::new(alloc),
            lanes: Vec::new(alloc),
        }
    }

    /// Puts the letters at the end, all pending, in their order. Where memory runs out, nothing changes.
    pub fn send(&mut self, alloc: Global, out: Outbox) -> Result<(), OutOfMemory>
        ensures ok { OnOk result (self.new ≡ self.old ++ map fresh out) }
        ensures err { OnErr result (self.new ≡ self.old) }
    {
        let count = self.slots.len() as u64;
        let sent = file_and_put(
            alloc,
            &mut self.slots,
            &mut self.waiting,
            &mut self.lanes,
            out.into_letters(),
        );
        if sent.is_err() {
            cut_back(&mut self.lanes, count);
            return Err(OutOfMemory);
        }
        Ok(())
    }

    /// The packet with a number; `None` exactly where no packet has it.
    pub fn packet(&self, number: u64) -> Option<&Packet>
        ensures { option_copied result ≡ packet_from 1 number self.now }
    {
        if number == 0 {
            return None;
        }
        match slot_at(&self.slots, (number - 1) as usize) {
            Some(slot) => Some(&slot.packet),
            None => None,
        }
    }

    /// Makes a packet not pending. It takes no memory.
    pub fn settle(&mut self, number: u64)
        ensures { self.new ≡ settled_from 1 number self.old }
    {
        cross_out(&mut self.slots, &mut self.waiting, number);
        if number > 0 {
            drop_number(&mut self.lanes, number);
        }
    }

    /// Drops the packets that aren't pending, and numbers the others from 1 in their order. It takes no memory.
    pub fn forget(&mut self)
        ensures { self.new ≡ filter is_waiting self.old }
    {
        number_lanes(&mut self.lanes, &self.waiting);
        close_up(&mut self.slots, &mut self.waiting);
    }

    /// The least number above a bound whose packet is pending; `None` exactly where there is none. It takes as many steps as
    /// the count of pending packets has binary digits, and no memory.
    pub fn pending(&self, after: u64) -> Option<u64>
        ensures { result ≡ next_from 1 after self.now }
    {
        let place = place_above(&self.waiting, after);
        number_at(&self.waiting, place)
    }

    /// The least number whose packet is pending and passes; `None` exactly where there is none. Where the least that is pending passes it takes
    /// one step, and else one for each sender, receiver and kind that ever was, however many packets are pending. It takes no memory.
    pub fn next<P: Passes>(&self, gate: &P) -> Option<u64>
        ensures { result ≡ passing_from (P.passes gate.now) 1 self.now }
    {
        if first_passes(&self.slots, &self.waiting, gate) {
            return number_at(&self.waiting, 0);
        }
        soonest(self.lanes.as_slice(), gate)
    }
}

/// The slot at a place, counted from 0.
fn slot_at(slots: &Vec<Slot>, at: usize) -> Option<&Slot>
    ensures { option_copied result ≡ slice_get slots.now.items at }
{
    slots.get(at)
}

/// Whether the least number that is pending is that of a packet which passes.
fn first_passes<P: Passes>(slots: &Vec<Slot>, waiting: &VecDeque<u64>, gate: &P) -> bool
    requires { IsKept slots.now.items waiting.now.items }
    ensures { result ≡ true → slice_get waiting.now.items 0 ≡ passing_from (P.passes gate.now) 1 (posted slots.now.items) }
{
    let Some(number) = number_at(waiting, 0) else {
        return false;
    };
    let packet = &slots[(number - 1) as usize].packet;
    gate.passes(packet.from, packet.to, packet.kind)
}

/// Puts letters behind the packets that are there, and on their lanes. Where memory runs out, `cut_back` leaves the lanes of the packets.
fn file_and_put(
    alloc: Global,
    slots: &mut Vec<Slot>,
    waiting: &mut VecDeque<u64>,
    lanes: &mut Vec<Lane>,
    letters: Vec<Letter>,
) -> Result<(), OutOfMemory>
    requires { IsWhole slots.old.items waiting.old.items lanes.old.items }
    ensures kept { IsKept slots.new.items waiting.new.items }
    ensures ok { OnOk result (posted slots.new.items ≡ posted slots.old.items ++ map fresh letters.items) }
    ensures lanes { OnOk result (AreLanes (posted slots.new.items) lanes.new.items) }
    ensures err { OnErr result (posted slots.new.items ≡ posted slots.old.items) }
    ensures back { OnErr result (AreLanes (posted slots.old.items) (map (lane_to (length slots.old.items)) lanes.new.items)) }
{
    file_all(alloc, lanes, letters.as_slice(), slots.len())?;
    put_behind(alloc, slots, waiting, letters)
}

/// Puts letters behind the packets that are there.
fn put_behind(
    alloc: Global,
    slots: &mut Vec<Slot>,
    waiting: &mut VecDeque<u64>,
    letters: Vec<Letter>,
) -> Result<(), OutOfMemory>
    requires { IsKept slots.old.items waiting.old.items }
    ensures kept { IsKept slots.new.items waiting.new.items }
    ensures ok { OnOk result (posted slots.new.items ≡ posted slots.old.items ++ map fresh letters.items) }
    ensures err { OnErr result (posted slots.new.items ≡ posted slots.old.items) }
{
    let mut added = Vec::new(alloc);
    let mut numbers = VecDeque::new(alloc);
    let mut number = slots.len() as u64;
    for letter in letters {
        number += 1;
        let packet = Packet {
            number,
            from: letter.from,
            to: letter.to,
            kind: letter.kind,
            body: letter.body,
        };
        added.push(Slot {
            packet,
            waits: true,
        })?;
        numbers.push_back(number)?;
    }
    waiting.reserve(numbers.len())?;
    slots.append(&mut added)?;
    waiting.append(&mut numbers)?;
    Ok(())
}

/// Makes a packet not pending.
fn cross_out(slots: &mut Vec<Slot>, waiting: &mut VecDeque<u64>, number: u64)
    requires { IsKept slots.old.items waiting.old.items }
    ensures kept { IsKept slots.new.items waiting.new.items }
    ensures settled { posted slots.new.items ≡ settled_from 1 number (posted slots.old.items) }
{
    if number == 0 {
        return;
    }
    let place = place_above(waiting, number - 1);
    if stands_at(waiting, place, number) {
        waiting.remove(place);
        slots[(number - 1) as usize].waits = false;
    }
}

/// The number at a place, counted from 0.
fn number_at(numbers: &VecDeque<u64>, place: usize) -> Option<u64>
    ensures { result ≡ slice_get numbers.now.items place }
{
    numbers.get(place).copied()
}

/// Drops the packets that aren't pending, and numbers the others anew.
fn close_up(slots: &mut Vec<Slot>, waiting: &mut VecDeque<u64>)
    requires { IsKept slots.old.items waiting.old.items }
    ensures kept { IsKept slots.new.items waiting.new.items }
    ensures left { posted slots.new.items ≡ filter is_waiting (posted slots.old.items) }
{
    keep_waiting(slots);
    number_anew(slots);
    count_up(waiting);
}

/// Drops the packets that aren't pending.
fn keep_waiting(slots: &mut Vec<Slot>)
    ensures { slots.new.items ≡ filter slot_waits slots.old.items }
{
    slots.retain(|slot| slot.waits);
}

/// Numbers packets from 1.
fn number_anew(slots: &mut Vec<Slot>)
    ensures numbers { AreNumbered 1 slots.new.items }
    ensures same { posted slots.new.items ≡ posted slots.old.items }
{
    for place in 0..slots.len() {
        slots[place].packet.number = place as u64 + 1;
    }
}

/// Puts 1, 2, 3 and so on in the place of numbers.
fn count_up(numbers: &mut VecDeque<u64>)
    ensures { numbers.new.items ≡ count_from 1 (length numbers.old.items) }
{
    for place in 0..numbers.len() {
        numbers[place] = place as u64 + 1;
    }
}
