//! Lock servers.

ghost use Rattle.std.specs.Prelude.{◌≡◌, IfOk, OnOk};
ghost use Rattle.bx_master.specs.Events.{marking};
ghost use Rattle.bx_master.specs.Masters.{made, restarted};
ghost use Rattle.bx_master.specs.Steps.{Hears, Takes, Ticks};

use crate::learning::last_dead;
use crate::letters::send_each;
use bx_base::OutOfMemory;
use bx_facts::{Input, Outbox};
use bx_global::{Change, GlobalState};
use bx_lock_tables::{Account, Queue, mark_expiring};
use bx_lock_words::Word;
use bx_post::Packet;
use std::alloc::Global;
use std::marker::Model;

/// A lock server. While it is the master of its boot, in the state that it is handed, it grants blocks to sessions.
#[derive(Drop)]
pub struct Master {
    pub(crate) alloc: Global,
    pub(crate) server: u32,
    pub(crate) boot: u64,
    pub(crate) term: Option<u64>,
    pub(crate) seen: Option<(u64, u64)>,
    pub(crate) index: u64,
    pub(crate) last_dead: Option<u64>,
    pub(crate) accounts: Vec<Account>,
    pub(crate) waiting: Queue,
}

impl Model for Master {
    ghost use Rattle.bx_master.specs.Masters.{Mastering};

    ghost Value = { Mastering };

    ghost view = { λ m. record { server = m.server; boot = m.boot; term = m.term; seen = m.seen; index = m.index; last_dead = m.last_dead; accounts = m.accounts.items; waiting = m.waiting } };
}

impl Master {
    /// The lock server of a number, in a cluster that begins with a state. It takes no memory.
    pub fn new(alloc: Global, server: u32, state: &GlobalState) -> Master
        ensures { result ≡ made server state.now }
    {
        Master {
            alloc,
            server,
            boot: 0,
            term: Some(state.term),
            seen: Some((state.sessions.len() as u64, state.next_session)),
            index: 0,
            last_dead: last_dead(state.sessions.items()),
            accounts: Vec::new(alloc),
            waiting: Queue::new(alloc),
        }
    }

    /// Its number.
    pub fn server(&self) -> u32
        ensures { result ≡ self.now.server }
    {
        self.server
    }

    /// Does one event, knowing this state; readings are in milliseconds. The change is one that it must propose.
    pub fn take(
        &mut self,
        known: &GlobalState,
        input: &Input,
        out: &mut Outbox,
    ) -> Result<Option<Change>, OutOfMemory>
        ensures takes { IfOk result (λ change. Takes self.old known.now input.now self.new change out.old out.new) }
    {
        match input {
            Input::Packet(packet, reading) => {
                self.take_packet(known, packet, *reading, out)?;
                Ok(None)
            }
            Input::Tick(reading) => self.take_tick(known, *reading, out),
            Input::Synced => Ok(None),
        }
    }

    /// Takes a packet.
    fn take_packet(
        &mut self,
        known: &GlobalState,
        packet: &Packet,
        reading: u64,
        out: &mut Outbox,
    ) -> Result<(), OutOfMemory>
        ensures { OnOk result (Hears self.old known.now packet.now.kind reading packet.now.body self.new out.old out.new) }
    {
        let server = self.server();
        let said = Word::read(packet.kind, packet.body.bytes());
        let mut words = Vec::new(self.alloc);
        self.catch_up(known, reading, &mut words)?;
        self.hear_as(known, reading, &said, &mut words)?;
        send_each(self.alloc, server, known, words.as_slice(), out)?;
        Ok(())
    }

    /// Takes a tick.
    fn take_tick(
        &mut self,
        known: &GlobalState,
        reading: u64,
        out: &mut Outbox,
    ) -> Result<Option<Change>, OutOfMemory>
        ensures { IfOk result (λ change. Ticks self.old known.now reading self.new change out.old out.new) }
    {
        let server = self.server();
        let mut words = Vec::new(self.alloc);
        self.catch_up(known, reading, &mut words)?;
        self.tick(known, &mut words)?;
        let change = self.change_of(known, reading);
        self.mark(&change)?;
        send_each(self.alloc, server, known, words.as_slice(), out)?;
        Ok(change)
    }

    /// Notes for whom an expiry is asked for.
    fn mark(&mut self, change: &Option<Change>) -> Result<(), OutOfMemory>
        ensures { OnOk result (self.new ≡ marking change.now self.old) }
    {
        if let Some(Change::Expire { session, .. }) = change {
            mark_expiring(self.alloc, &mut self.accounts, *session)?;
        }
        Ok(())
    }

    /// Stops. It takes no memory.
    pub fn crash(&mut self)
        ensures { self.new ≡ self.old }
    {}

    /// Starts again, in a boot. It takes no memory.
    pub fn restart(&mut self, boot: u64)
        ensures { self.new ≡ restarted boot self.old }
    {
        self.boot = boot;
        self.term = None;
        self.seen = None;
        self.index = 0;
        self.last_dead = None;
        self.accounts.clear();
        self.waiting.clear();
    }
}
