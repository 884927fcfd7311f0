//! A lock server and the clerks of two nodes, which want one block, and the letters that are under way.

use bx_base::{Actor, Mode};
use bx_clerk::Clerk;
use bx_facts::{Input, Outbox};
use bx_global::{Change, GlobalState};
use bx_master::Master;
use bx_post::{Packet, Post};
use std::alloc::Global;

/// The lock server, and the nodes.
pub(crate) const L0: Actor = Actor::Server(0);

pub(crate) const N0: Actor = Actor::Node(0);

pub(crate) const N1: Actor = Actor::Node(1);

/// The block that nodes want.
const BLOCK: u64 = 7;

/// What is done, or looked at, next.
#[derive(Clone, Copy)]
pub(crate) enum Step {
    /// Clocks read this from now on, in milliseconds.
    Reads(u64),
    /// A node wants the block.
    Wants(u32, Mode),
    /// A node wants the block, and its letter comes.
    Asks(u32, Mode),
    /// It does, and the server's letter comes too.
    Gets(u32, Mode),
    /// A node gives the block up at an index.
    GivesUp(u32, u64),
    /// The oldest letter from one machine to another comes.
    Pass(Actor, Actor),
    /// It comes, and once more later.
    Repeat(Actor, Actor),
    /// The newest one comes, before all others.
    Overtake(Actor, Actor),
    /// The oldest one is lost.
    Lose(Actor, Actor),
    /// A clock ticks, and nothing is proposed, or this.
    Ticks(Actor, Option<Change>),
    /// This is decided; no machine knows it yet.
    Decides(Change),
    /// A machine knows from now on all that is decided.
    Learns(Actor),
    /// So many letters from one machine to another are under way.
    Sent(Actor, Actor, usize),
    /// A node holds the block so, from this index on.
    Holds(u32, Mode, u64),
    /// A node doesn't hold the block.
    HoldsNot(u32),
    /// A node is asked to give the block back to this session, or isn't asked.
    IsAsked(u32, Option<u64>),
}

/// The lock server and the clerks.
#[derive(Drop)]
struct Machines {
    server: Master,
    first: Clerk,
    second: Clerk,
}

/// How many changes each machine knows.
#[derive(Clone, Copy)]
struct Known {
    server: usize,
    first: usize,
    second: usize,
}

impl Known {
    /// Those that a machine knows.
    fn of(&self, who: Actor) -> usize {
        match who {
            N0 => self.first,
            N1 => self.second,
            _ => self.server,
        }
    }
}

/// The machines, the states that were decided, what each machine knows, and what is under way.
#[derive(Drop)]
struct Desk {
    alloc: Global,
    reading: u64,
    states: Vec<GlobalState>,
    knows: Known,
    machines: Machines,
    post: Post,
}

/// A state after a change.
fn after(alloc: Global, state: &GlobalState, change: &Change) -> Option<GlobalState> {
    match state.changed(alloc, change) {
        Ok(next) => next,
        Err(_) => None,
    }
}

/// The state with which it begins, as another model writes it: server 0 is master up to 8000, and the nodes have the sessions 1 and 2 up to
/// 4000. Its index is 4.
const OPENING: [u8; 168] = [
    0, 0, 0, 0, 0, 0, 0, 4, 0, 0, 0, 0, 0, 0, 0, 0, 0, 0, 0, 0, 0, 0, 0, 0, 0, 0, 0, 1, 0, 0, 0, 0,
    0, 0, 31, 64, 0, 0, 0, 0, 0, 0, 0, 3, 0, 0, 0, 2, 0, 0, 0, 0, 0, 0, 0, 1, 0, 0, 0, 0, 0, 0, 0,
    0, 0, 0, 0, 0, 0, 0, 0, 0, 0, 0, 0, 0, 0, 0, 15, 160, 0, 0, 0, 0, 0, 0, 0, 0, 0, 0, 0, 0, 0, 0,
    0, 0, 0, 0, 0, 2, 0, 0, 0, 1, 0, 0, 0, 0, 0, 0, 0, 0, 0, 0, 0, 1, 0, 0, 0, 0, 0, 0, 15, 160, 0,
    0, 0, 0, 0, 0, 0, 0, 0, 0, 0, 0, 0, 0, 0, 1, 0, 0, 0, 0, 0, 0, 0, 0, 0, 0, 0, 1, 0, 0, 0, 0, 0,
    0, 0, 0, 0, 0, 0, 0, 0, 0, 0, 0,
];

/// That state, if memory doesn't run out.
fn opening(alloc: Global) -> Option<GlobalState> {
    match GlobalState::read(alloc, &OPENING) {
        Ok(found) => found,
        Err(_) => None,
    }
}

/// Whether two changes are one, of those that lock servers propose.
fn is_same(one: &Change, other: &Change) -> bool {
    match (*one, *other) {
        (
            Change::Renew { by, boot, reading },
            Change::Renew {
                by: by_too,
                boot: boot_too,
                reading: reading_too,
            },
        )
        | (
            Change::Take { by, boot, reading },
            Change::Take {
                by: by_too,
                boot: boot_too,
                reading: reading_too,
            },
        ) => by == by_too && boot == boot_too && reading == reading_too,
        (
            Change::Expire {
                session,
                term,
                reading,
            },
            Change::Expire {
                session: session_too,
                term: term_too,
                reading: reading_too,
            },
        ) => session == session_too && term == term_too && reading == reading_too,
        _ => false,
    }
}

/// Whether nothing is proposed where nothing is wanted, and else this.
fn is_wanted(change: &Option<Change>, wanted: &Option<Change>) -> bool {
    match (change, wanted) {
        (None, None) => true,
        (Some(change), Some(wanted)) => is_same(change, wanted),
        _ => false,
    }
}

impl Machines {
    /// A machine takes an input. `None` where there is no such machine, or memory ran out.
    fn take(
        &mut self,
        who: Actor,
        known: &GlobalState,
        input: &Input,
        out: &mut Outbox,
    ) -> Option<Option<Change>> {
        let change = match who {
            L0 => self.server.take(known, input, out),
            N0 => self.first.take(known, input, out),
            N1 => self.second.take(known, input, out),
            _ => return None,
        };
        change.ok()
    }

    /// The clerk of a node.
    fn clerk(&self, node: u32) -> &Clerk {
        if node == 0 { &self.first } else { &self.second }
    }

    /// That clerk, to act with.
    fn clerk_mut(&mut self, node: u32) -> &mut Clerk {
        if node == 0 {
            &mut self.first
        } else {
            &mut self.second
        }
    }
}

/// A packet comes to the machine that it is for. Says whether that went well.
fn hears(
    machines: &mut Machines,
    known: &GlobalState,
    packet: &Packet,
    reading: u64,
    out: &mut Outbox,
) -> bool {
    let input = Input::Packet(packet, reading);
    machines.take(packet.to, known, &input, out).is_some()
}

/// A machine's clock ticks. Says whether this is proposed.
fn hears_tick(
    machines: &mut Machines,
    who: Actor,
    known: &GlobalState,
    reading: u64,
    out: &mut Outbox,
    wanted: &Option<Change>,
) -> bool {
    let input = Input::Tick(reading);
    match machines.take(who, known, &input, out) {
        Some(change) => is_wanted(&change, wanted),
        None => false,
    }
}

impl Desk {
    /// All know the state with which it begins, and nothing is under way.
    fn new(alloc: Global) -> Option<Desk> {
        let state = opening(alloc)?;
        let machines = Machines {
            server: Master::new(alloc, 0, &state),
            first: Clerk::new(alloc, 0, &state),
            second: Clerk::new(alloc, 1, &state),
        };
        let Ok(states) = vec![in alloc; state] else {
            return None;
        };
        Some(Desk {
            alloc,
            reading: 1000,
            states,
            knows: Known {
                server: 0,
                first: 0,
                second: 0,
            },
            machines,
            post: Post::new(alloc),
        })
    }

    /// The numbers of the oldest and the newest packet under way from one machine to another, and how many there are.
    fn between(&self, from: Actor, to: Actor) -> (Option<u64>, Option<u64>, usize) {
        let mut found = (None, None, 0usize);
        let mut next = self.post.pending(0);
        for _ in 0..100 {
            let Some(number) = next else {
                return found;
            };
            if let Some(packet) = self.post.packet(number) {
                if packet.from == from && packet.to == to {
                    found = (
                        found.0.or(Some(number)),
                        Some(number),
                        found.2.saturating_add(1),
                    );
                }
            }
            next = self.post.pending(number);
        }
        found
    }

    /// A packet comes. Says whether there was one, and all went well.
    fn comes(&mut self, number: Option<u64>) -> bool {
        let mut out = Outbox::new(self.alloc);
        let Some(number) = number else {
            return false;
        };
        let Some(packet) = self.post.packet(number) else {
            return false;
        };
        let Some(known) = self.states.get(self.knows.of(packet.to)) else {
            return false;
        };
        let went = hears(&mut self.machines, known, packet, self.reading, &mut out);
        went && self.post.send(self.alloc, out).is_ok()
    }

    /// A clock ticks. Says whether this is proposed.
    fn ticks(&mut self, who: Actor, wanted: &Option<Change>) -> bool {
        let mut out = Outbox::new(self.alloc);
        let Some(known) = self.states.get(self.knows.of(who)) else {
            return false;
        };
        let went = hears_tick(
            &mut self.machines,
            who,
            known,
            self.reading,
            &mut out,
            wanted,
        );
        went && self.post.send(self.alloc, out).is_ok()
    }

    /// A node wants the block. Says whether that went well.
    fn wants(&mut self, node: u32, mode: Mode) -> bool {
        let mut out = Outbox::new(self.alloc);
        let clerk = self.machines.clerk_mut(node);
        clerk.session().is_some()
            && clerk.want(BLOCK, mode, &mut out).is_ok()
            && self.post.send(self.alloc, out).is_ok()
    }

    /// A node gives the block up at an index. Says whether it held it, and all went well.
    fn gives_up(&mut self, node: u32, index: u64) -> bool {
        let mut out = Outbox::new(self.alloc);
        let clerk = self.machines.clerk_mut(node);
        clerk.holds(BLOCK).is_some()
            && clerk.give_up(BLOCK, index, &mut out).is_ok()
            && self.post.send(self.alloc, out).is_ok()
    }

    /// A change is decided. Says whether it is legal.
    fn decides(&mut self, change: &Change) -> bool {
        let Some(last) = self.states.last() else {
            return false;
        };
        match after(self.alloc, last, change) {
            Some(next) => self.states.push(next).is_ok(),
            None => false,
        }
    }

    /// A machine knows all that is decided.
    fn learns(&mut self, who: Actor) {
        let last = self.states.len().saturating_sub(1);
        match who {
            N0 => self.knows.first = last,
            N1 => self.knows.second = last,
            _ => self.knows.server = last,
        }
    }

    /// Packets from one machine to another come, or are lost. Says whether there were such, and all went well.
    fn passes(&mut self, step: Step) -> bool {
        match step {
            Step::Pass(from, to) => {
                let (oldest, _, _) = self.between(from, to);
                let went = self.comes(oldest);
                self.post.settle(oldest.unwrap_or(0));
                went
            }
            Step::Repeat(from, to) => {
                let (oldest, _, _) = self.between(from, to);
                self.comes(oldest)
            }
            Step::Overtake(from, to) => {
                let (_, newest, _) = self.between(from, to);
                let went = self.comes(newest);
                self.post.settle(newest.unwrap_or(0));
                went
            }
            Step::Lose(from, to) => {
                let (oldest, _, _) = self.between(from, to);
                self.post.settle(oldest.unwrap_or(0));
                oldest.is_some()
            }
            _ => false,
        }
    }

    /// A node wants the block, and its letter comes. Says whether all went well.
    fn asks(&mut self, node: u32, mode: Mode) -> bool {
        self.wants(node, mode) && self.passes(Step::Pass(Actor::Node(node), L0))
    }

    /// Takes a step, and says whether it came out so.
    fn goes(&mut self, step: Step) -> bool {
        match step {
            Step::Reads(reading) => {
                self.reading = reading;
                true
            }
            Step::Wants(node, mode) => self.wants(node, mode),
            Step::Asks(node, mode) => self.asks(node, mode),
            Step::Gets(node, mode) => {
                self.asks(node, mode) && self.passes(Step::Pass(L0, Actor::Node(node)))
            }
            Step::GivesUp(node, index) => self.gives_up(node, index),
            Step::Ticks(who, wanted) => self.ticks(who, &wanted),
            Step::Decides(change) => self.decides(&change),
            Step::Learns(who) => {
                self.learns(who);
                true
            }
            Step::Sent(from, to, count) => self.between(from, to).2 == count,
            Step::Holds(node, mode, index) => {
                self.machines.clerk(node).holds(BLOCK) == Some((mode, index))
            }
            Step::HoldsNot(node) => self.machines.clerk(node).holds(BLOCK).is_none(),
            Step::IsAsked(node, wanted) => asker(self.machines.clerk(node)) == wanted,
            Step::Pass(..) | Step::Repeat(..) | Step::Overtake(..) | Step::Lose(..) => {
                self.passes(step)
            }
        }
    }

    /// The place of the first step that doesn't come out so; `None` where all do.
    fn first_wrong(&mut self, steps: &[Step]) -> Option<usize> {
        for (place, step) in steps.iter().enumerate() {
            if !self.goes(*step) {
                return Some(place);
            }
        }
        None
    }
}

/// The session that asks for the block, where a clerk is asked.
fn asker(clerk: &Clerk) -> Option<u64> {
    match clerk.asked() {
        Some((BLOCK, session)) => Some(session),
        _ => None,
    }
}

/// The place of the first step that doesn't come out so; `None` where all do.
pub(crate) fn first_wrong(alloc: Global, steps: &[Step]) -> Option<usize> {
    match Desk::new(alloc) {
        Some(mut desk) => desk.first_wrong(steps),
        None => Some(0),
    }
}
