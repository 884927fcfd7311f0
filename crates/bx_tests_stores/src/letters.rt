//! Mirrored devices, whose machines speak by letters, and steps that they take, for tables of cases. They are for volume 7 with two nodes, one device
//! and one area.

ghost use Rattle.std.specs.Prelude.{◌≡◌, ◌<◌, true, IfOk};
ghost use Rattle.bx_facts.specs.Machines.{IsMachine};
ghost use Rattle.bx_global.specs.Allowed.{IsAllowed};
ghost use Rattle.bx_tests_stores.specs.Benches.{IsBench, IsDesk};

use crate::bench::{Write, brings, has, reads, writes};
use bx_base::{Actor, List, OutOfMemory};
use bx_devices::Devices;
use bx_disk::{CrashRack, Noise, Rack};
use bx_facts::{Input, Outbox, Store};
use bx_global::{Change, GlobalState};
use bx_layout::Label;
use bx_memory_rack::MemRack;
use bx_plain::endless;
use bx_post::Post;
use bx_rows::DeviceRow;
use std::alloc::Global;

pub(crate) const N0: Actor = Actor::Node(0);

pub(crate) const N1: Actor = Actor::Node(1);

pub(crate) const A: Actor = Actor::Member(0);

pub(crate) const B: Actor = Actor::Member(1);

/// A change of the device's mode: its epoch so far, the mode, and B's boot (`true`) or A's.
#[derive(Clone, Copy, PartialEq, Eq)]
pub(crate) struct Shift(
    pub(crate) u64,
    pub(crate) u32,
    pub(crate) bool,
    pub(crate) u64,
);

/// One of the letters under way from one machine to another.
#[derive(Clone, Copy, PartialEq, Eq)]
pub(crate) enum Which {
    Oldest,
    Newest,
}

/// What an event comes to.
#[derive(Clone, Copy, PartialEq, Eq)]
pub(crate) enum Told {
    /// It goes well, and nothing is to be proposed.
    Nothing,
    /// This is to be proposed.
    Asks(Shift),
    /// It doesn't go well, or something else is to be proposed.
    Fails,
}

/// What is looked at.
#[derive(Clone, Copy)]
pub(crate) enum Look {
    /// A node's answer is nothing, or a sector of this byte.
    Brings(u32, Option<u8>),
    /// All bytes of a sector of a disk are this byte.
    Has(u32, u64, u8),
    /// A node has no write out, or has one.
    IsDone(u32, bool),
    /// The disk is labelled as one of this volume.
    IsLabelled(u32, u64),
    /// The newest letter from one machine to another has so many bytes.
    IsLong(Actor, Actor, usize),
    /// So many letters are under way from one machine to another.
    UnderWay(Actor, Actor, usize),
    /// A member owes an answer to a sync, or doesn't.
    Waits(Actor, bool),
}

/// A step. Where it says nothing else, an event goes well, and nothing is to be proposed.
#[derive(Clone, Copy)]
pub(crate) enum Step {
    /// The oldest letter from one machine to another comes at the reading 1000.
    Comes(Actor, Actor),
    /// A letter from one machine to another comes at a reading.
    ComesAt(Which, Actor, Actor, u64),
    /// A copy of it comes at a reading, and it stays under way. This is what comes of that.
    Repeats(Which, Actor, Actor, u64, Told),
    /// A disk crashes.
    Crashes(u32, Noise),
    /// From here on machines are handed a state in which the device has this mode, this epoch, and these boots of A and B.
    Knows(u32, u64, u64, u64),
    /// A disk gets the label of this volume.
    Labels(u32, u64),
    /// A node reads a sector.
    Reads(u32, u64),
    /// It comes out so.
    Shows(Look),
    /// A machine that stopped starts again in a boot, at the reading 1000.
    Starts(Actor, u64),
    /// A machine stops.
    Stops(Actor),
    /// A machine's disk has finished a sync. To a node this is an event that says nothing but the state.
    Syncs(Actor),
    /// A clock reads this. This is what comes of that.
    Ticks(Actor, u64, Told),
    /// A node writes a sector with a byte, until a reading.
    Writes(u32, u64, u8, u64),
}

/// Steps, and how often they come one behind the other.
#[derive(Clone, Copy)]
pub(crate) struct Part(pub(crate) u32, pub(crate) &'static [Step]);

/// A store and its rack, the state that machines are handed, and what is under way.
#[derive(Drop)]
struct Desk<S, R> {
    alloc: Global,
    known: GlobalState,
    store: S,
    rack: R,
    post: Post,
}

/// Whether it is a machine of a cluster of two nodes.
fn is_machine(at: Actor) -> bool
    ensures { result ≡ true → IsMachine 2 at }
{
    match at {
        Actor::Node(node) => node < 2,
        Actor::Member(member) => member < 2,
        Actor::Replica(_) | Actor::Server(_) => false,
    }
}

/// What a change says of the device.
fn told_of(change: Option<Change>) -> Told {
    match change {
        None => Told::Nothing,
        Some(
            Change::Shift {
                device: 0,
                epoch,
                mode,
                second,
                boot,
            },
        ) => Told::Asks(Shift(epoch, mode, second, boot)),
        Some(_) => Told::Fails,
    }
}

/// An event of a machine.
fn hears<S: Store, R: Rack>(
    store: &mut S,
    rack: &mut R,
    known: &GlobalState,
    at: Actor,
    input: &Input,
    out: &mut Outbox,
) -> Told
    requires bench { IsBench (S.made store.old) (S.needs store.old) (R.state rack.old).sizes }
    requires known { IsAllowed known.now }
    ensures { IsBench (S.made store.new) (S.needs store.new) (R.state rack.new).sizes }
{
    if !is_machine(at) {
        return Told::Fails;
    }
    match store.take(rack, known, at, input, out) {
        Ok(change) => told_of(change),
        Err(_) => Told::Fails,
    }
}

/// A machine starts again, and says whether that went well.
fn starts<S: Store, R: Rack>(store: &mut S, rack: &mut R, who: Actor, boot: u64) -> bool
    requires bench { IsBench (S.made store.old) (S.needs store.old) (R.state rack.old).sizes }
    ensures { IsBench (S.made store.new) (S.needs store.new) (R.state rack.new).sizes }
{
    let has_room = match who {
        Actor::Member(member) => 3 + u64::from(member) < u64::from(rack.disks())
            && rack.sectors(3 + member) >= 17994,
        _ => true,
    };
    is_machine(who) && has_room && store.restart(rack, who, boot, 1000).is_ok()
}

/// The state with another row of its only device.
fn state_with(
    alloc: Global,
    state: &GlobalState,
    row: DeviceRow,
) -> Result<GlobalState, OutOfMemory>
    requires state { IsAllowed state.now }
    requires mode { row.mode < 5 }
    ensures { IfOk result IsAllowed }
{
    let copy = state.copy(alloc)?;
    Ok(GlobalState {
        devices: List::of(alloc, &[row])?,
        ..copy
    })
}

/// The text of a label of a disk.
fn label_text(disk: u32, volume: u64) -> [u8; 512] {
    let label = Label {
        volume,
        disk,
        devices: 1,
        areas: 1,
    };
    let mut text = [0; 512];
    label.write(&mut text);
    text
}

/// Whether a disk is labelled as one of a volume.
fn is_labelled<R: Rack>(rack: &mut R, disk: u32, volume: u64) -> bool
    ensures { (R.state rack.new).sizes ≡ (R.state rack.old).sizes }
{
    let mut into = [0; 512];
    disk < rack.disks()
        && rack.sectors(disk) > 0
        && rack.read(disk, 0, &mut into).is_ok()
        && into == label_text(disk, volume)
}

/// Writes a label, and says whether that went well.
fn labels<R: Rack>(rack: &mut R, disk: u32, volume: u64) -> bool
    ensures { (R.state rack.new).sizes ≡ (R.state rack.old).sizes }
{
    disk < rack.disks()
        && rack.sectors(disk) > 0
        && rack.write(disk, 0, &label_text(disk, volume)).is_ok()
        && rack.sync(disk).is_ok()
}

/// A disk crashes, and says whether that went well.
fn crashes<R: CrashRack>(rack: &mut R, disk: u32, how: Noise) -> bool
    ensures { (R.state rack.new).sizes ≡ (R.state rack.old).sizes }
{
    disk < rack.disks() && rack.crash(disk, how).is_ok()
}

/// The numbers of the letters under way from one machine to another, the oldest first.
fn between(alloc: Global, post: &Post, from: Actor, to: Actor) -> Result<Vec<u64>, OutOfMemory> {
    let mut found = Vec::new(alloc);
    let mut last = 0;
    for _ in 0..1000 {
        let Some(number) = post.pending(last) else {
            break;
        };
        if let Some(packet) = post.packet(number)
            && packet.from == from
            && packet.to == to
        {
            found.push(number)?;
        }
        last = number;
    }
    Ok(found)
}

/// The number of one of them.
fn number_of(alloc: Global, post: &Post, which: Which, from: Actor, to: Actor) -> Option<u64> {
    let found = between(alloc, post, from, to).ok()?;
    match which {
        Which::Oldest => found.first().copied(),
        Which::Newest => found.last().copied(),
    }
}

impl<S: Store, R: CrashRack> Desk<S, R> {
    /// One of the letters from one machine to another comes at a reading. It is under way no more, unless it stays: then a copy came.
    fn comes(
        &mut self,
        lane: (Which, Actor, Actor),
        reading: u64,
        stays: bool,
        out: &mut Outbox,
    ) -> Told
        requires { IsDesk (S.made self.old.store) (S.needs self.old.store) (R.state self.old.rack).sizes self.old.known }
        ensures { IsDesk (S.made self.new.store) (S.needs self.new.store) (R.state self.new.rack).sizes self.new.known }
    {
        let (which, from, to) = lane;
        let Some(number) = number_of(self.alloc, &self.post, which, from, to) else {
            return Told::Fails;
        };
        let Some(packet) = self.post.packet(number) else {
            return Told::Fails;
        };
        let input = Input::Packet(packet, reading);
        let told = hears(
            &mut self.store,
            &mut self.rack,
            &self.known,
            to,
            &input,
            out,
        );
        if !stays {
            self.post.settle(number);
        }
        told
    }

    /// An event without a letter.
    fn ticks(&mut self, at: Actor, input: &Input, out: &mut Outbox) -> Told
        requires { IsDesk (S.made self.old.store) (S.needs self.old.store) (R.state self.old.rack).sizes self.old.known }
        ensures { IsDesk (S.made self.new.store) (S.needs self.new.store) (R.state self.new.rack).sizes self.new.known }
    {
        hears(&mut self.store, &mut self.rack, &self.known, at, input, out)
    }

    /// Machines are handed another row of the device from here on. Says whether that went well.
    fn knows(&mut self, row: DeviceRow) -> bool
        requires { IsDesk (S.made self.old.store) (S.needs self.old.store) (R.state self.old.rack).sizes self.old.known }
        ensures { IsDesk (S.made self.new.store) (S.needs self.new.store) (R.state self.new.rack).sizes self.new.known }
    {
        if row.mode >= 5 {
            return false;
        }
        let Ok(state) = state_with(self.alloc, &self.known, row) else {
            return false;
        };
        self.known = state;
        true
    }

    /// How many letters are under way from one machine to another, and how long the newest is.
    fn letters(&self, from: Actor, to: Actor) -> Option<(usize, usize)> {
        let found = between(self.alloc, &self.post, from, to).ok()?;
        let long = match found.last() {
            Some(number) => self.post.packet(*number)?.body.bytes().len(),
            None => 0,
        };
        Some((found.len(), long))
    }

    /// Whether it comes out so.
    fn shows(&mut self, look: Look) -> bool
        requires { IsDesk (S.made self.old.store) (S.needs self.old.store) (R.state self.old.rack).sizes self.old.known }
        ensures { IsDesk (S.made self.new.store) (S.needs self.new.store) (R.state self.new.rack).sizes self.new.known }
    {
        match look {
            Look::Brings(node, wanted) => brings(&mut self.store, node, wanted),
            Look::Has(disk, sector, byte) => has(&mut self.rack, disk, sector, byte),
            Look::IsDone(node, wanted) => self.store.done(node) == wanted,
            Look::IsLabelled(disk, volume) => is_labelled(&mut self.rack, disk, volume),
            Look::IsLong(from, to, wanted) => {
                matches!(self.letters(from, to), Some((_, long)) if long == wanted)
            }
            Look::UnderWay(from, to, wanted) => {
                matches!(self.letters(from, to), Some((count, _)) if count == wanted)
            }
            Look::Waits(at, wanted) => self.store.waiting(at) == wanted,
        }
    }

    /// An event comes to a machine, or a node writes or reads: says whether it came out so.
    fn acts(&mut self, step: Step, out: &mut Outbox) -> bool
        requires { IsDesk (S.made self.old.store) (S.needs self.old.store) (R.state self.old.rack).sizes self.old.known }
        ensures { IsDesk (S.made self.new.store) (S.needs self.new.store) (R.state self.new.rack).sizes self.new.known }
    {
        match step {
            Step::Comes(from, to) => {
                self.comes((Which::Oldest, from, to), 1000, false, out) == Told::Nothing
            }
            Step::ComesAt(which, from, to, reading) => {
                self.comes((which, from, to), reading, false, out) == Told::Nothing
            }
            Step::Repeats(which, from, to, reading, wanted) => {
                self.comes((which, from, to), reading, true, out) == wanted
            }
            Step::Syncs(at) => self.ticks(at, &Input::Synced, out) == Told::Nothing,
            Step::Ticks(at, reading, wanted) => {
                self.ticks(at, &Input::Tick(reading), out) == wanted
            }
            Step::Reads(node, place) => reads(&mut self.store, node, place, out),
            Step::Writes(node, place, byte, until) => {
                let write = Write {
                    node,
                    place,
                    byte,
                    until,
                };
                writes(&mut self.store, self.alloc, write, out)
            }
            _ => self.changes(step),
        }
    }

    /// Something befalls a machine, a disk or the state; or it is looked at. Says whether it came out so.
    fn changes(&mut self, step: Step) -> bool
        requires { IsDesk (S.made self.old.store) (S.needs self.old.store) (R.state self.old.rack).sizes self.old.known }
        ensures { IsDesk (S.made self.new.store) (S.needs self.new.store) (R.state self.new.rack).sizes self.new.known }
    {
        match step {
            Step::Crashes(disk, how) => crashes(&mut self.rack, disk, how),
            Step::Knows(mode, epoch, boot_a, boot_b) => self.knows(DeviceRow {
                mode,
                epoch,
                boot_a,
                boot_b,
            }),
            Step::Labels(disk, volume) => labels(&mut self.rack, disk, volume),
            Step::Shows(look) => self.shows(look),
            Step::Starts(who, boot) => starts(&mut self.store, &mut self.rack, who, boot),
            Step::Stops(at) => {
                self.store.crash(at);
                true
            }
            _ => false,
        }
    }

    /// Takes a step, and says whether it came out so.
    fn goes(&mut self, step: Step) -> bool
        requires { IsDesk (S.made self.old.store) (S.needs self.old.store) (R.state self.old.rack).sizes self.old.known }
        ensures { IsDesk (S.made self.new.store) (S.needs self.new.store) (R.state self.new.rack).sizes self.new.known }
    {
        let mut out = Outbox::new(self.alloc);
        self.acts(step, &mut out) && self.post.send(self.alloc, out).is_ok()
    }

    /// Takes steps, up to the first that doesn't come out so: how many do, and whether all do.
    fn all_go(&mut self, steps: &[Step]) -> (u32, bool)
        requires { IsDesk (S.made self.old.store) (S.needs self.old.store) (R.state self.old.rack).sizes self.old.known }
        ensures { IsDesk (S.made self.new.store) (S.needs self.new.store) (R.state self.new.rack).sizes self.new.known }
    {
        let mut gone = 0u32;
        for step in steps {
            if !self.goes(*step) {
                return (gone, false);
            }
            gone = gone.saturating_add(1);
        }
        (gone, true)
    }

    /// Takes all parts, and says how many steps come out so up to the first that doesn't; nothing where all do.
    fn first_wrong(&mut self, parts: &[Part]) -> Option<u32>
        requires { IsDesk (S.made self.old.store) (S.needs self.old.store) (R.state self.old.rack).sizes self.old.known }
        ensures { IsDesk (S.made self.new.store) (S.needs self.new.store) (R.state self.new.rack).sizes self.new.known }
    {
        let mut before = 0u32;
        for part in parts {
            for _ in 0..part.0 {
                let (gone, all) = self.all_go(part.1);
                before = before.saturating_add(gone);
                if !all {
                    return Some(before);
                }
            }
        }
        None
    }
}

/// The steps of parts over a rack in memory, of which these calls fail: nothing where all come out so, else how many come before the first that doesn't.
pub(crate) fn runs(
    alloc: Global,
    faults: &[u64],
    parts: &[Part],
) -> Result<Option<u32>, OutOfMemory> {
    let known = endless(alloc, 2, 1)?;
    let rack = MemRack::new(alloc, &[1, 1, 1, 17994, 17994], faults)?;
    let store = Devices::new(alloc, 7, 2, 1, 1, &known)?;
    let mut desk = Desk {
        alloc,
        known,
        store,
        rack,
        post: Post::new(alloc),
    };
    Ok(desk.first_wrong(parts))
}
