//! A register, owners and a store over a rack, and steps that machines take with them, for tables of cases. The store is for volume 7 with two
//! nodes, one device and one area.

ghost use Rattle.std.specs.Prelude.{◌≡◌, ◌≤◌, IfOk};
ghost use Rattle.bx_facts.specs.Disks.{NeedsNoMore};
ghost use Rattle.bx_facts.specs.Machines.{IsMachine};
ghost use Rattle.bx_facts.specs.Writes.{AreRuns};
ghost use Rattle.bx_tests_stores.specs.Benches.{IsBench, IsShared, made};

use crate::toy::hear;
use bx_base::{Actor, Mode, OutOfMemory, Raw};
use bx_disk::Rack;
use bx_facts::{Input, Outbox, Owners, Register, Store};
use bx_memory_rack::MemRack;
use bx_plain::{PlainOwners, PlainRegister, endless};
use bx_plain_store::PlainStore;
use bx_records::{Run, Runs};
use std::alloc::Global;

/// The block that nodes want.
const BLOCK: u64 = 7;

/// One run of one sector, all of whose bytes are this one.
fn one_run(alloc: Global, place: u64, byte: u8) -> Result<Runs, OutOfMemory>
    requires least { 1 ≤ place }
    requires most { place ≤ 100 }
    ensures { IfOk result (λ runs. AreRuns made runs.1) }
{
    let mut runs = Runs::new(alloc, 14);
    runs.push(Run {
        device: 0,
        place,
        bytes: Raw::of(alloc, &[byte; 512])?,
    })?;
    Ok(runs)
}

/// A write of a node: a sector all of whose bytes are this one, which members take up to a reading.
#[derive(Clone, Copy)]
pub(crate) struct Write {
    pub(crate) node: u32,
    pub(crate) place: u64,
    pub(crate) byte: u8,
    pub(crate) until: u64,
}

/// Sends a write of one sector, if nothing of the node is out, and says whether that went well.
pub(crate) fn writes<S: Store>(store: &mut S, alloc: Global, write: Write, out: &mut Outbox) -> bool
    requires { S.made store.old ≡ made }
    ensures made { S.made store.new ≡ made }
    ensures needs { NeedsNoMore (S.needs store.old) (S.needs store.new) }
{
    let Write {
        node,
        place,
        byte,
        until,
    } = write;
    if place < 1 || place > 100 || !store.done(node) || store.session(node).is_none() {
        return false;
    }
    let Ok(runs) = one_run(alloc, place, byte) else {
        return false;
    };
    store.write(node, &runs, until, out).is_ok()
}

/// Sends a read of one sector, if none of the node is out, and says whether that went well.
pub(crate) fn reads<S: Store>(store: &mut S, node: u32, place: u64, out: &mut Outbox) -> bool
    requires { S.made store.old ≡ made }
    ensures made { S.made store.new ≡ made }
    ensures needs { NeedsNoMore (S.needs store.old) (S.needs store.new) }
{
    if place < 1 || place > 100 || store.is_reading(node) || store.session(node).is_none() {
        return false;
    }
    store.read(node, 0, place, 1, out).is_ok()
}

/// Takes the answer to a node's read, and says whether it is this: nothing, or a sector all of whose bytes are this one.
pub(crate) fn brings<S: Store>(store: &mut S, node: u32, wanted: Option<u8>) -> bool
    requires { S.made store.old ≡ made }
    ensures made { S.made store.new ≡ made }
    ensures needs { NeedsNoMore (S.needs store.old) (S.needs store.new) }
{
    match store.arrived(node) {
        Some(bytes) => is_sector(bytes.bytes(), wanted),
        None => wanted.is_none(),
    }
}

/// Whether these are the bytes of a sector, all of them this one.
fn is_sector(bytes: &[u8], wanted: Option<u8>) -> bool {
    bytes.len() == 512 && bytes.iter().all(|got| Some(*got) == wanted)
}

/// Whether a sector is there, and all of its bytes are this one.
pub(crate) fn has<R: Rack>(rack: &mut R, disk: u32, sector: u64, byte: u8) -> bool
    ensures { (R.state rack.new).sizes ≡ (R.state rack.old).sizes }
{
    let mut into = [!byte; 512];
    disk < rack.disks()
        && sector < rack.sectors(disk)
        && rack.read(disk, sector, &mut into).is_ok()
        && is_sector(&into, Some(byte))
}

/// A member starts again, and says whether that went well.
fn starts_member<S: Store, R: Rack>(store: &mut S, rack: &mut R, member: u32) -> bool
    requires bench { IsBench (S.made store.old) (S.needs store.old) (R.state rack.old).sizes }
    ensures bench { IsBench (S.made store.new) (S.needs store.new) (R.state rack.new).sizes }
    ensures sizes { (R.state rack.new).sizes ≡ (R.state rack.old).sizes }
{
    member < 2
        && 3 + member < rack.disks()
        && rack.sectors(3 + member) >= 17994
        && store.restart(rack, Actor::Member(member), 1, 1000).is_ok()
}

/// Wants the block, where no request of the node is out, and says whether that went well.
fn wants<O: Owners>(owners: &mut O, alloc: Global, node: u32) -> bool
    ensures { O.nodes owners.new ≡ O.nodes owners.old }
{
    if owners.session(node).is_none() || owners.wanted(node, BLOCK).is_some() {
        return false;
    }
    let mut out = Outbox::new(alloc);
    owners.want(node, BLOCK, Mode::Exclusive, &mut out).is_ok()
}

/// Gives the block up at an index, where the node holds it, and says whether that went well.
fn gives_up<O: Owners>(owners: &mut O, alloc: Global, node: u32, index: u64) -> bool
    ensures { O.nodes owners.new ≡ O.nodes owners.old }
{
    let mut out = Outbox::new(alloc);
    owners.holds(node, BLOCK).is_some() && owners.give_up(node, BLOCK, index, &mut out).is_ok()
}

/// The session that asks for the block, where it is asked back.
fn asks<O: Owners>(owners: &O, node: u32) -> Option<u64> {
    match owners.asked(node) {
        Some((BLOCK, session)) => Some(session),
        _ => None,
    }
}

/// A step, and its outcome.
#[derive(Clone, Copy)]
pub(crate) enum Step {
    /// A node's clock reads one second.
    Ticks(u32),
    /// A member's disk finishes a sync, which goes well, or fails.
    Syncs(u32, bool),
    /// A node writes a sector with a byte.
    Writes(u32, u64, u8),
    /// A node has a write out, or has none.
    IsDone(u32, bool),
    /// A node reads a sector.
    Reads(u32, u64),
    /// A node's answer is nothing, or a sector of this byte.
    Brings(u32, Option<u8>),
    /// A member owes an answer to a sync, or doesn't.
    Waits(u32, bool),
    /// All bytes of a sector of a disk are this byte.
    Has(u32, u64, u8),
    /// A node wants the block exclusively.
    Wants(u32),
    /// A node holds the block exclusively, or doesn't.
    Holds(u32, bool),
    /// A node is asked to give the block back to this session, or isn't asked.
    IsAsked(u32, Option<u64>),
    /// A node gives the block up.
    GivesUp(u32),
    /// A machine stops.
    Stops(Actor),
    /// A machine starts again.
    Starts(Actor),
}

/// What machines use together, over a rack.
#[derive(Drop)]
struct Desk<G, O, S, R> {
    alloc: Global,
    register: G,
    owners: O,
    store: S,
    rack: R,
}

impl<G: Register, O: Owners, S: Store, R: Rack> Desk<G, O, S, R> {
    /// A machine's event, and whether it went well.
    fn hears(&mut self, at: Actor, input: &Input) -> bool
        requires shared { IsShared (G.nodes self.old.register) (O.nodes self.old.owners) (S.made self.old.store) (G.needs self.old.register) (S.needs self.old.store) (R.state self.old.rack).sizes }
        requires there { IsMachine 2 at }
        ensures { IsShared (G.nodes self.new.register) (O.nodes self.new.owners) (S.made self.new.store) (G.needs self.new.register) (S.needs self.new.store) (R.state self.new.rack).sizes }
    {
        let mut out = Outbox::new(self.alloc);
        hear(
            &mut self.register,
            &mut self.owners,
            &mut self.store,
            &mut self.rack,
            at,
            input,
            &mut out,
        )
        .is_ok()
    }

    /// A node starts again, and says whether that went well.
    fn starts_node(&mut self, node: u32) -> bool
        requires shared { IsShared (G.nodes self.old.register) (O.nodes self.old.owners) (S.made self.old.store) (G.needs self.old.register) (S.needs self.old.store) (R.state self.old.rack).sizes }
        requires there { IsMachine 2 (Actor.Node node) }
        ensures { IsShared (G.nodes self.new.register) (O.nodes self.new.owners) (S.made self.new.store) (G.needs self.new.register) (S.needs self.new.store) (R.state self.new.rack).sizes }
    {
        let at = Actor::Node(node);
        let mut out = Outbox::new(self.alloc);
        if self
            .register
            .restart(&mut self.rack, at, 1, &mut out)
            .is_err()
        {
            return false;
        }
        self.owners.restart(at, 1, 1000);
        self.store.restart(&mut self.rack, at, 1, 1000).is_ok()
    }

    /// Takes a step, and says whether it came out so.
    fn goes(&mut self, step: Step) -> bool
        requires { IsShared (G.nodes self.old.register) (O.nodes self.old.owners) (S.made self.old.store) (G.needs self.old.register) (S.needs self.old.store) (R.state self.old.rack).sizes }
        ensures { IsShared (G.nodes self.new.register) (O.nodes self.new.owners) (S.made self.new.store) (G.needs self.new.register) (S.needs self.new.store) (R.state self.new.rack).sizes }
    {
        let alloc = self.alloc;
        let mut out = Outbox::new(alloc);
        match step {
            Step::Ticks(node) => node < 2 && self.hears(Actor::Node(node), &Input::Tick(1000)),
            Step::Syncs(member, well) => {
                member < 2 && self.hears(Actor::Member(member), &Input::Synced) == well
            }
            Step::Writes(node, place, byte) => {
                let write = Write {
                    node,
                    place,
                    byte,
                    until: 5000,
                };
                writes(&mut self.store, alloc, write, &mut out)
            }
            Step::IsDone(node, wanted) => self.store.done(node) == wanted,
            Step::Reads(node, place) => reads(&mut self.store, node, place, &mut out),
            Step::Brings(node, wanted) => brings(&mut self.store, node, wanted),
            Step::Waits(member, wanted) => self.store.waiting(Actor::Member(member)) == wanted,
            Step::Has(disk, sector, byte) => has(&mut self.rack, disk, sector, byte),
            Step::Wants(node) => wants(&mut self.owners, alloc, node),
            Step::Holds(node, wanted) => {
                matches!(self.owners.holds(node, BLOCK), Some((Mode::Exclusive, _))) == wanted
            }
            Step::IsAsked(node, wanted) => asks(&self.owners, node) == wanted,
            Step::GivesUp(node) => {
                let at = Actor::Node(node);
                node < 2 && gives_up(&mut self.owners, alloc, node, self.register.known(at).index)
            }
            Step::Stops(who) => {
                self.register.crash(who);
                self.owners.crash(who);
                self.store.crash(who);
                true
            }
            Step::Starts(Actor::Node(node)) => node < 2 && self.starts_node(node),
            Step::Starts(Actor::Member(n)) => starts_member(&mut self.store, &mut self.rack, n),
            Step::Starts(Actor::Replica(_) | Actor::Server(_)) => false,
        }
    }

    /// Takes all steps, and says whether each came out so.
    fn all_go(&mut self, steps: &[Step]) -> bool
        requires { IsShared (G.nodes self.old.register) (O.nodes self.old.owners) (S.made self.old.store) (G.needs self.old.register) (S.needs self.old.store) (R.state self.old.rack).sizes }
        ensures { IsShared (G.nodes self.new.register) (O.nodes self.new.owners) (S.made self.new.store) (G.needs self.new.register) (S.needs self.new.store) (R.state self.new.rack).sizes }
    {
        let mut right = true;
        for step in steps {
            right = right && self.goes(*step);
        }
        right
    }
}

/// Whether machines go through all steps, and then through others, over a rack in memory of which these calls fail.
pub(crate) fn runs(
    alloc: Global,
    faults: &[u64],
    steps: [&[Step]; 2],
) -> Result<bool, OutOfMemory> {
    let known = endless(alloc, 2, 1)?;
    let rack = MemRack::new(alloc, &[1, 1, 1, 17994, 17994], faults)?;
    let store = PlainStore::new(alloc, 7, 2, 1, 1, &known)?;
    let mut desk = Desk {
        alloc,
        register: PlainRegister::new(alloc, 2, known),
        owners: PlainOwners::new(alloc, 2),
        store,
        rack,
    };
    Ok(desk.all_go(steps[0]) && desk.all_go(steps[1]))
}
