//! The register of a cluster of one node over three disks in memory, and the packets that are under way.

use crate::states::first_state;
use bx_base::Actor;
use bx_disk::{CrashRack, Noise, Rack};
use bx_facts::{Input, Outbox, ProposeError};
use bx_global::Change;
use bx_memory_rack::MemRack;
use bx_paxos_cluster::{Paxos, has_disks};
use bx_post::{Passes, Post};
use std::alloc::Global;

/// The machines that propose.
pub(crate) const NODE: Actor = Actor::Node(0);

pub(crate) const SERVER: Actor = Actor::Server(0);

/// The machines whose states are looked at.
const LOOKED_AT: [Actor; 5] = [
    NODE,
    SERVER,
    Actor::Replica(0),
    Actor::Replica(1),
    Actor::Replica(2),
];

/// What a register answers to a change.
#[derive(Clone, Copy, PartialEq, Eq)]
pub(crate) enum Told {
    Taken,
    NotLegal,
    Busy,
    Failed,
}

/// What a state is known by: its index, and the boot that device 0's row names.
#[derive(Clone, Copy, PartialEq, Eq)]
pub(crate) struct Mark(pub(crate) u64, pub(crate) u64);

/// The first state.
pub(crate) const FIRST: Mark = Mark(1, 0);

/// The mode of a device that only its member A serves.
const ONLY_A: u32 = 1;

/// A change that only the first of its kind makes: device 0 leaves this epoch, and its row names this boot.
pub(crate) fn shift(epoch: u64, boot: u64) -> Change {
    Change::Shift {
        device: 0,
        epoch,
        mode: ONLY_A,
        second: false,
        boot,
    }
}

/// The packets from one machine to another.
#[derive(Clone, Copy)]
struct Between {
    from: Actor,
    to: Actor,
}

impl Passes for Between {
    ghost use Rattle.std.specs.Prelude.{◌&&◌};
    ghost use Rattle.bx_post.specs.Machines.{is_same};

    ghost passes = { λ between from to kind. is_same between.from from && is_same between.to to };

    fn passes(&self, from: Actor, to: Actor, _kind: u8) -> bool {
        self.from == from && self.to == to
    }
}

/// A register, the disks of its replicas, and the packets that are under way.
#[derive(Drop)]
pub(crate) struct Cluster {
    alloc: Global,
    paxos: Paxos,
    rack: MemRack,
    post: Post,
    boot: u64,
    reading: u64,
}

/// A packet under way comes to the machine that it is for. Says whether that went well.
fn hears(
    paxos: &mut Paxos,
    rack: &mut MemRack,
    post: &Post,
    number: u64,
    out: &mut Outbox,
) -> bool {
    match post.packet(number) {
        Some(packet) => {
            let input = Input::Packet(packet, 0);
            paxos.has(packet.to)
                && has_disks(rack)
                && paxos.take(rack, packet.to, &input, out).is_ok()
        }
        None => false,
    }
}

impl Cluster {
    /// A cluster whose volume was just made, and whose machines are up.
    pub(crate) fn new(alloc: Global) -> Option<Cluster> {
        let state = first_state(alloc)?;
        let Ok(mut rack) = MemRack::new(alloc, &[21, 21, 21], &[]) else {
            return None;
        };
        let Ok(mut paxos) = Paxos::new(alloc, 1, state) else {
            return None;
        };
        if !has_disks(&rack) || paxos.format(&mut rack).is_err() {
            return None;
        }
        Some(Cluster {
            alloc,
            paxos,
            rack,
            post: Post::new(alloc),
            boot: 0,
            reading: 0,
        })
    }

    /// Hands a change to a machine.
    pub(crate) fn propose(&mut self, who: Actor, change: &Change) -> Told {
        let mut out = Outbox::new(self.alloc);
        if !self.paxos.has(who) {
            return Told::Failed;
        }
        match self.paxos.propose(who, change, &mut out) {
            Ok(()) => {}
            Err(ProposeError::NotLegal) => return Told::NotLegal,
            Err(ProposeError::Busy) => return Told::Busy,
            Err(ProposeError::OutOfMemory) => return Told::Failed,
        }
        match self.post.send(self.alloc, out) {
            Ok(()) => Told::Taken,
            Err(_) => Told::Failed,
        }
    }

    /// The number of the oldest packet under way from one machine to another.
    fn oldest(&self, from: Actor, to: Actor) -> Option<u64> {
        self.post.next(&Between { from, to })
    }

    /// A packet under way comes. Says whether that went well.
    fn comes(&mut self, number: u64) -> bool {
        let mut out = Outbox::new(self.alloc);
        let went = hears(
            &mut self.paxos,
            &mut self.rack,
            &self.post,
            number,
            &mut out,
        );
        self.post.settle(number);
        went && self.post.send(self.alloc, out).is_ok()
    }

    /// The oldest packet from one machine to another comes. Says whether there was one, and all went well.
    pub(crate) fn passes(&mut self, from: Actor, to: Actor) -> bool {
        match self.oldest(from, to) {
            Some(number) => self.comes(number),
            None => false,
        }
    }

    /// A replica stops, its disk with it, and starts again. Says whether that went well.
    pub(crate) fn starts_again(&mut self, replica: u32) -> bool {
        let who = Actor::Replica(replica);
        self.paxos.crash(who);
        if replica >= 3 || replica >= self.rack.disks() {
            return false;
        }
        let crashed = self.rack.crash(replica, Noise::Drop).is_ok();
        let mut out = Outbox::new(self.alloc);
        self.boot = self.boot.saturating_add(1);
        crashed
            && self.paxos.has(who)
            && has_disks(&self.rack)
            && self
                .paxos
                .restart(&mut self.rack, who, self.boot, &mut out)
                .is_ok()
            && self.post.send(self.alloc, out).is_ok()
    }

    /// A machine's clock ticks. Says whether that went well.
    fn ticks(&mut self, who: Actor) -> bool {
        let mut out = Outbox::new(self.alloc);
        let input = Input::Tick(self.reading);
        self.paxos.has(who)
            && has_disks(&self.rack)
            && self
                .paxos
                .take(&mut self.rack, who, &input, &mut out)
                .is_ok()
            && self.post.send(self.alloc, out).is_ok()
    }

    /// The oldest packet under way comes; where none is, the clocks tick. Says whether that went well.
    pub(crate) fn goes_on(&mut self) -> bool {
        match self.post.pending(0) {
            Some(number) => self.comes(number),
            None => {
                self.reading = self.reading.saturating_add(1_100);
                self.ticks(NODE) && self.ticks(SERVER)
            }
        }
    }

    /// What a machine knows.
    fn known(&self, who: Actor) -> Option<Mark> {
        if !self.paxos.has(who) {
            return None;
        }
        let state = self.paxos.known(who);
        let row = state.devices.get(0)?;
        Some(Mark(state.index, row.boot_a))
    }

    /// Whether each machine knows one of these states.
    pub(crate) fn all_know(&self, marks: &[Mark]) -> bool {
        for who in LOOKED_AT {
            match self.known(who) {
                Some(mark) if marks.contains(&mark) => {}
                _ => return false,
            }
        }
        true
    }
}
