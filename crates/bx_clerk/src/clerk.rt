//! Clerks.

ghost use Rattle.std.specs.Prelude.{◌≡◌, [], ◌∷◌, ◌++◌, max, IfOk, IsSome, OnOk};
ghost use Rattle.bx_facts.specs.Holds.{first_of};
ghost use Rattle.bx_facts.specs.Inputs.{IsOwners, SendsOnly};
ghost use Rattle.bx_clerk.specs.Clerks.{asked_back, asking, asking_words, end_as, giving_up, giving_words, letters_of, made, restarted};
ghost use Rattle.bx_clerk.specs.Events.{Hears, Takes, Ticks};
ghost use Rattle.bx_clerk.specs.Requests.{hold_of, request_in, wish_of};

use crate::asks::Asks;
use crate::learning::{own_session, until_of};
use crate::letters::send_each;
use crate::requests::{Asking, Requests, hold_of, wish_of};
use crate::ticking::tick_words;
use bx_base::{Actor, Mode, OutOfMemory};
use bx_facts::{Input, Outbox};
use bx_global::{Change, GlobalState};
use bx_lock_words::{Release, Want, Word, send};
use bx_post::Packet;
use std::alloc::Global;
use std::marker::Model;

/// The clerk of a node. It asks the master for blocks, and keeps what the node's session holds.
#[derive(Drop)]
pub struct Clerk {
    pub(crate) alloc: Global,
    pub(crate) node: u32,
    pub(crate) boot: u64,
    pub(crate) drawn: u64,
    pub(crate) session: Option<u64>,
    pub(crate) lease: u64,
    pub(crate) requests: Requests,
    pub(crate) asks: Asks,
    pub(crate) given: u64,
    pub(crate) knows: u64,
    pub(crate) server: u32,
}

impl Model for Clerk {
    ghost use Rattle.bx_clerk.specs.Clerks.{Clerking};

    ghost Value = { Clerking };

    ghost view = { λ c. record { node = c.node; boot = c.boot; drawn = c.drawn; session = c.session; lease = c.lease; requests = c.requests; asks = c.asks; given = c.given; knows = c.knows; server = c.server } };
}

impl Clerk {
    /// The clerk of a node, in a cluster that begins with a state. It takes no memory.
    pub fn new(alloc: Global, node: u32, state: &GlobalState) -> Clerk
        ensures { result ≡ made node state.now }
    {
        let session = own_session(state, node, 0);
        Clerk {
            alloc,
            node,
            boot: 0,
            drawn: 0,
            lease: until_of(state, session),
            session,
            requests: Requests::new(alloc),
            asks: Asks::new(alloc),
            given: 0,
            knows: state.index,
            server: state.master,
        }
    }

    /// The node's session; `None` exactly where it knows of no live one. It takes no memory.
    pub fn session(&self) -> Option<u64>
        ensures { result ≡ self.now.session }
    {
        self.session
    }

    /// The end of its session, in milliseconds; `None` exactly where it has none. It takes no memory.
    pub fn lease(&self) -> Option<u64>
        ensures { result ≡ end_as self.now.session self.now.lease }
    {
        match self.session {
            None => None,
            Some(_) => Some(self.lease),
        }
    }

    /// How a block is held, and from which state on it may be read; `None` exactly where its latest request isn't held. It takes no memory.
    pub fn holds(&self, block: u64) -> Option<(Mode, u64)>
        ensures { result ≡ hold_of (request_in self.now.requests block) }
    {
        hold_of(&self.requests.get(block))
    }

    /// How a block is wanted that isn't held yet. It takes no memory.
    pub fn wanted(&self, block: u64) -> Option<Mode>
        ensures { result ≡ wish_of (request_in self.now.requests block) }
    {
        wish_of(&self.requests.get(block))
    }

    /// The first of the blocks that are asked back, and the session that asks; `None` exactly where no block is that is held. It takes no memory.
    pub fn asked(&self) -> Option<(u64, u64)>
        ensures { result ≡ first_of (asked_back self.now) }
    {
        self.asks.first_held(&self.requests)
    }

    /// Wants a block, in another mode than it is held in now. That hold ends. Where no number is left for a request nothing is asked.
    pub fn want(&mut self, block: u64, mode: Mode, out: &mut Outbox) -> Result<(), OutOfMemory>
        requires { IsSome self.old.session }
        ensures asks { OnOk result (self.new ≡ asking block mode self.old) }
        ensures sends { OnOk result (out.new ≡ out.old ++ letters_of self.old (asking_words self.old.session block mode self.old)) }
        ensures own { (self.new.session ≡ self.old.session) × (self.new.lease ≡ self.old.lease) }
    {
        let Some(session) = self.session else {
            return Ok(());
        };
        if self.drawn == u64::MAX {
            self.requests.take_out(block);
            return Ok(());
        }
        self.drawn += 1;
        let number = self.drawn;
        let asking = Asking {
            mode,
            number,
            held: None,
        };
        self.requests.put(block, asking)?;
        self.say(
            Word::Wants(Want {
                session,
                block,
                mode,
                number,
            }),
            out,
        )
    }

    /// Gives up a block whose bytes are home, at the index of a state.
    pub fn give_up(&mut self, block: u64, index: u64, out: &mut Outbox) -> Result<(), OutOfMemory>
        requires { IsSome (hold_of (request_in self.old.requests block)) }
        ensures gives { OnOk result (self.new ≡ giving_up block index self.old) }
        ensures sends { OnOk result (out.new ≡ out.old ++ letters_of self.old (giving_words self.old.session block (request_in self.old.requests block) (max self.old.given index))) }
        ensures own { (self.new.session ≡ self.old.session) × (self.new.lease ≡ self.old.lease) }
    {
        let request = self.requests.get(block);
        self.given = self.given.max(index);
        self.requests.take_out(block);
        self.asks.drop_block(block);
        let (Some(session), Some(request)) = (self.session, request) else {
            return Ok(());
        };
        self.say(
            Word::Releases(Release {
                session,
                block,
                number: request.number,
                index: self.given,
            }),
            out,
        )
    }

    /// Puts a letter for the master into the box.
    fn say(&self, word: Word, out: &mut Outbox) -> Result<(), OutOfMemory>
        ensures { OnOk result (out.new ≡ out.old ++ letters_of self.now (word ∷ [])) }
    {
        let (from, to) = (Actor::Node(self.node), Actor::Server(self.server));
        send(self.alloc, from, to, word, out)
    }

    /// Does one event, knowing this state; readings are in milliseconds. The change is one that the node must propose.
    pub fn take(
        &mut self,
        known: &GlobalState,
        input: &Input,
        out: &mut Outbox,
    ) -> Result<Option<Change>, OutOfMemory>
        ensures takes { IfOk result (λ change. Takes self.old known.now input.now self.new change out.old out.new) }
        ensures sent { OnOk result (SendsOnly IsOwners out.old out.new) }
    {
        self.learn(known);
        match input {
            Input::Packet(packet, reading) => {
                self.take_packet(packet, *reading, out)?;
                Ok(None)
            }
            Input::Tick(reading) => self.take_tick(*reading, out),
            Input::Synced => Ok(None),
        }
    }

    /// Takes a packet, once it knows the state.
    fn take_packet(
        &mut self,
        packet: &Packet,
        reading: u64,
        out: &mut Outbox,
    ) -> Result<(), OutOfMemory>
        ensures { OnOk result (Hears self.old packet.now.kind reading packet.now.body self.new out.old out.new) }
    {
        let (node, server) = (self.node, self.server);
        let said = Word::read(packet.kind, packet.body.bytes());
        let mut words = Vec::new(self.alloc);
        self.hear(reading, &said, &mut words)?;
        send_each(self.alloc, node, server, words.as_slice(), out)?;
        Ok(())
    }

    /// Takes a tick, once it knows the state. A node without a session opens one; else its session is to last longer, and each
    /// request that is out is sent again.
    fn take_tick(&mut self, reading: u64, out: &mut Outbox) -> Result<Option<Change>, OutOfMemory>
        ensures { IfOk result (λ change. Ticks self.old reading self.new change out.old out.new) }
    {
        let Some(session) = self.session else {
            return Ok(Some(Change::Open {
                node: self.node,
                boot: self.boot,
                reading,
            }));
        };
        let words = tick_words(self.alloc, session, &self.requests)?;
        send_each(self.alloc, self.node, self.server, words.as_slice(), out)?;
        Ok(None)
    }

    /// Stops. It takes no memory.
    pub fn crash(&mut self)
        ensures { self.new ≡ self.old }
    {}

    /// Starts again, in a boot. It takes no memory.
    pub fn restart(&mut self, boot: u64)
        ensures { self.new ≡ restarted boot self.old }
    {
        self.boot = boot;
        self.drawn = 0;
        self.session = None;
        self.lease = 0;
        self.requests.clear();
        self.asks.clear();
        self.given = 0;
        self.knows = 0;
    }
}
