//! Replicas on disks, and steps that they take, for tables of cases.

ghost use Rattle.std.specs.Prelude.{◌≤◌, IsTrue, slice_index};
ghost use Rattle.bx_places.specs.Places.{replica_sectors};

use crate::states::{STATE, first_state};
use bx_acceptor::{Acceptor, Origin, first_value};
use bx_base::{Actor, OutOfMemory, Raw};
use bx_cell::format;
use bx_disk::Rack;
use bx_facts::{FactError, Input, Letter, Outbox, Packet};
use bx_memory_rack::MemRack;
use bx_packets::Message;
use std::alloc::Global;

/// What came out of a packet: nothing, a fault, or a letter. A ballot goes by its round and its actor.
#[derive(Clone, Copy, PartialEq, Eq)]
pub(crate) enum Told {
    Nothing,
    Fault,
    NoMemory,
    Malformed,
    Decided(u64),
    Promise(u64, u32, u64, u32),
    Accepted(u64, u32, u64),
    Refused(u64, u64, u32),
}

/// A packet: its kind, the round and the actor of its ballot, where it has one, and the index of its state, where it has
/// one.
#[derive(Clone, Copy)]
pub(crate) struct Sent(
    pub(crate) u8,
    pub(crate) u64,
    pub(crate) u32,
    pub(crate) u64,
);

/// What a replica does, and the outcome.
#[derive(Clone, Copy)]
pub(crate) enum Step {
    /// It starts.
    Starts,
    /// A packet comes, and it answers this.
    Answers(Sent, Told),
    /// It knows the state of this index.
    Knows(u64),
}

/// What replica 0 does, with a cell that came to be so.
#[derive(Clone, Copy)]
pub(crate) struct Life(pub(crate) Origin, pub(crate) &'static [Step]);

/// What a disk has: nothing, the cell of a new volume, or such a cell whose number is the greatest.
#[derive(Clone, Copy)]
pub(crate) enum Disk {
    Blank,
    Made,
    Last,
}

/// The acceptor of replica 0, whose cell came to be so.
fn replica(alloc: Global, origin: Origin) -> Option<Acceptor> {
    let state = first_state(alloc)?;
    Acceptor::new(alloc, 0, &state, origin).ok()
}

/// The value of its cell to begin with.
fn value(alloc: Global) -> Option<Raw> {
    let state = first_state(alloc)?;
    first_value(alloc, &state).ok()
}

/// Writes a half of a cell whose number is the greatest, and says whether that went well.
fn writes_last(rack: &mut MemRack, value: &[u8]) -> bool {
    let mut half = [0; 5120];
    if value.len() > 4096 || rack.disks() != 1 || rack.sectors(0) != 21 {
        return false;
    }
    half[..8].copy_from_slice(b"BXGATE01");
    half[512..520].copy_from_slice(&u64::MAX.to_be_bytes());
    half[520..524].copy_from_slice(&(value.len() as u32).to_be_bytes());
    half[1024..1024 + value.len()].copy_from_slice(value);
    rack.write(0, 1, &half).is_ok()
}

/// Writes what a disk is to have, and says whether that went well.
fn writes(rack: &mut MemRack, disk: Disk, value: &[u8]) -> bool {
    match disk {
        Disk::Blank => true,
        Disk::Made => {
            rack.disks() == 1
                && rack.sectors(0) == 21
                && value.len() <= 4096
                && format(rack, 0, 1, value).is_ok()
        }
        Disk::Last => writes_last(rack, value),
    }
}

/// A rack with the disk of replica 0.
pub(crate) fn rack_of(alloc: Global, disk: Disk) -> Option<MemRack> {
    let value = value(alloc)?;
    let mut rack = MemRack::new(alloc, &[21], &[]).ok()?;
    let written = writes(&mut rack, disk, value.bytes());
    if written { Some(rack) } else { None }
}

/// Whether a rack has the disk of a replica.
fn has_room<R: Rack>(rack: &R, acceptor: &Acceptor) -> bool
    ensures { IsTrue result → replica_sectors ≤ slice_index (R.state rack.now).sizes acceptor.now.replica }
{
    let disk = acceptor.replica();
    disk < rack.disks() && rack.sectors(disk) >= 21
}

/// Starts an acceptor, and says whether that went well.
fn starts<R: Rack>(rack: &mut R, acceptor: &mut Acceptor) -> bool {
    has_room(rack, acceptor) && acceptor.restart(rack).is_ok()
}

/// The bytes of a ballot and a state.
fn proposal_text(round: u64, actor: u32, index: u64) -> [u8; 100] {
    let mut bytes = [0; 100];
    bytes[..8].copy_from_slice(&round.to_be_bytes());
    bytes[8..12].copy_from_slice(&actor.to_be_bytes());
    bytes[20..].copy_from_slice(&STATE);
    bytes[20..28].copy_from_slice(&index.to_be_bytes());
    bytes
}

/// The body of a packet: its ballot, and its state.
fn body_of(alloc: Global, sent: Sent) -> Result<Raw, OutOfMemory> {
    let Sent(kind, round, actor, index) = sent;
    let bytes = proposal_text(round, actor, index);
    match kind {
        1 => Raw::of(alloc, &[]),
        3 | 5 => Raw::of(alloc, &bytes),
        _ => Raw::of(alloc, &bytes[20..]),
    }
}

/// The packet from server 0 to replica 0.
fn packet_of(alloc: Global, sent: Sent) -> Option<Packet> {
    let body = body_of(alloc, sent).ok()?;
    Some(Packet {
        number: 1,
        from: Actor::Server(0),
        to: Actor::Replica(0),
        kind: sent.0,
        body,
    })
}

/// What an acceptor answers to a packet.
fn answer<R: Rack>(alloc: Global, rack: &mut R, acceptor: &mut Acceptor, sent: Sent) -> Told {
    if !has_room(rack, acceptor) {
        return Told::Fault;
    }
    let Some(packet) = packet_of(alloc, sent) else {
        return Told::NoMemory;
    };
    let mut out = Outbox::new(alloc);
    match acceptor.take(rack, &Input::Packet(&packet, 0), &mut out) {
        Ok(()) => in_letters(alloc, out.letters()),
        Err(FactError::Disk) => Told::Fault,
        Err(FactError::OutOfMemory) => Told::NoMemory,
    }
}

/// What one letter of replica 0 to server 0 says.
fn in_letters(alloc: Global, letters: &[Letter]) -> Told {
    let Some(letter) = letters.first() else {
        return Told::Nothing;
    };
    let is_alone = letters.len() == 1;
    if !is_alone || letter.from != Actor::Replica(0) || letter.to != Actor::Server(0) {
        return Told::Malformed;
    }
    match Message::read(alloc, letter.kind, letter.body.bytes(), 1) {
        Ok(Some(message)) => said(&message),
        Ok(None) => Told::Malformed,
        Err(_) => Told::NoMemory,
    }
}

/// What a message says.
fn said(message: &Message) -> Told {
    match message {
        Message::Decided(state) => Told::Decided(state.index),
        Message::Promise(p) => Told::Promise(p.ballot.round, p.ballot.actor, p.index, p.flag),
        Message::Accepted(ballot, index) => Told::Accepted(ballot.round, ballot.actor, *index),
        Message::Refused(index, ballot) => Told::Refused(*index, ballot.round, ballot.actor),
        Message::Ask | Message::Prepare(_, _) | Message::Accept(_, _) => Told::Malformed,
    }
}

/// Whether a step of a replica comes out so.
fn does<R: Rack>(alloc: Global, rack: &mut R, acceptor: &mut Acceptor, step: Step) -> bool {
    match step {
        Step::Starts => starts(rack, acceptor),
        Step::Answers(sent, told) => answer(alloc, rack, acceptor, sent) == told,
        Step::Knows(index) => acceptor.known().index == index,
    }
}

/// Whether each step of a life comes out so.
pub(crate) fn lives<R: Rack>(alloc: Global, rack: &mut R, life: Life) -> bool {
    let Life(origin, steps) = life;
    let Some(mut acceptor) = replica(alloc, origin) else {
        return false;
    };
    let mut right = true;
    for step in steps {
        right = right && does(alloc, rack, &mut acceptor, *step);
    }
    right
}
