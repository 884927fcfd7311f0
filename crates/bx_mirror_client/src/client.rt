//! Streams of nodes.

ghost use Rattle.std.specs.Prelude.{◌≡◌, [], ◌++◌, ◌≤◌, IfOk, IsSome, None, OnOk, length, is_some, not};
ghost use Rattle.bx_facts.specs.Inputs.{IsStores, SendsOnly};
ghost use Rattle.bx_mirror_client.specs.Asks.{FitIfAsked, answer_in};
ghost use Rattle.bx_mirror_client.specs.Events.{Hears, Takes};
ghost use Rattle.bx_mirror_client.specs.Letters.{read_letters, write_letters};
ghost use Rattle.bx_mirror_client.specs.Sends.{FitIfOut};
ghost use Rattle.bx_mirror_client.specs.Streams.{IsOwnRead, answered, asking, letters_since, made, restarted, sending, stopped};

use crate::asking::{Asking, take_answer};
use crate::learning::own_session;
use crate::letters::Sender;
use crate::runs::copied;
use crate::sending::{Sending, next_number};
use bx_base::{List, OutOfMemory, Raw};
use bx_facts::{Input, Outbox};
use bx_global::GlobalState;
use bx_mirror_packets::DeviceMessage;
use bx_post::Packet;
use bx_records::Runs;
use bx_rows::DeviceRow;
use std::alloc::Global;
use std::marker::Model;

/// The stream of a node: at most one write and one read that are out, each told to members in the epochs that the node knows.
#[derive(Drop)]
pub struct MirrorClient {
    pub(crate) alloc: Global,
    pub(crate) node: u32,
    pub(crate) boot: u64,
    pub(crate) sequence: u64,
    pub(crate) tag: u64,
    pub(crate) session: Option<u64>,
    pub(crate) rows: List<DeviceRow>,
    pub(crate) out: Option<Sending>,
    pub(crate) asks: Option<Asking>,
}

impl Model for MirrorClient {
    ghost use Rattle.bx_mirror_client.specs.Streams.{IsStreaming, Streaming};

    ghost Value = { Streaming };

    ghost view = { λ c. record { node = c.node; boot = c.boot; sequence = c.sequence; tag = c.tag; session = c.session; rows = c.rows; out = c.out; asks = c.asks } };

    ghost invariant = { λ c. IsStreaming (record { node = c.node; boot = c.boot; sequence = c.sequence; tag = c.tag; session = c.session; rows = c.rows; out = c.out; asks = c.asks }) };
}

impl MirrorClient {
    /// The stream of a node, in a cluster that begins with a state.
    pub fn new(alloc: Global, node: u32, state: &GlobalState) -> Result<MirrorClient, OutOfMemory>
        requires devices { length state.now.devices ≤ 4 }
        ensures { IfOk result (λ c. c ≡ made node state.now) }
    {
        Ok(MirrorClient {
            alloc,
            node,
            boot: 0,
            sequence: 0,
            tag: 0,
            session: own_session(state, node, 0),
            rows: List::of(alloc, state.devices.items())?,
            out: None,
            asks: None,
        })
    }

    /// The session that its packets carry; `None` exactly where it knows of no live one. It takes no memory.
    pub fn session(&self) -> Option<u64>
        ensures { result ≡ self.now.session }
    {
        self.session
    }

    /// Whether no write is out. It takes no memory.
    pub fn done(&self) -> bool
        ensures { result ≡ not (is_some self.now.out) }
    {
        self.out.is_none()
    }

    /// Whether a read is out, or its answer wasn't taken yet. It takes no memory.
    pub fn is_reading(&self) -> bool
        ensures { result ≡ is_some self.now.asks }
    {
        self.asks.is_some()
    }

    /// Sends a write of the node's session, in the epochs that it knows. Members take it up to a reading, in milliseconds. Where no number is left
    /// for it the write is out, and nobody is told of it.
    pub fn write(&mut self, runs: &Runs, until: u64, out: &mut Outbox) -> Result<(), OutOfMemory>
        requires none_out { self.old.out ≡ None }
        requires session { IsSome self.old.session }
        ensures writes { OnOk result (self.new ≡ sending self.old.session runs.now until self.old) }
        ensures sends { OnOk result (out.new ≡ out.old ++ write_letters [] self.old.node self.new.out self.old.rows) }
        ensures sent { OnOk result (SendsOnly IsStores out.old out.new) }
        ensures stays { (self.new.session ≡ self.old.session) × (self.new.asks ≡ self.old.asks) }
        ensures numbers { OnOk result (FitIfOut self.new.out) }
    {
        let Some(session) = self.session else {
            return Ok(());
        };
        let sequence = next_number(self.sequence);
        self.out = Some(Sending {
            session,
            sequence,
            until,
            runs: copied(self.alloc, runs)?,
            acks: List::new(self.alloc),
        });
        self.sequence = self.sequence.max(sequence);
        self.sender()
            .send_writes(&self.out, &[], self.rows.items(), out)
    }

    /// Sends a read of the node's session: so many sectors of a device, from one on. Where no number is left for it the read is out, and nobody
    /// answers it.
    pub fn read(
        &mut self,
        device: u32,
        place: u64,
        sectors: u32,
        out: &mut Outbox,
    ) -> Result<(), OutOfMemory>
        requires none_out { self.old.asks ≡ None }
        requires session { IsSome self.old.session }
        ensures reads { OnOk result (self.new ≡ asking self.old.session device place sectors self.old) }
        ensures sends { OnOk result (out.new ≡ out.old ++ read_letters [] self.old.node self.new.asks self.old.rows) }
        ensures sent { OnOk result (SendsOnly IsStores out.old out.new) }
        ensures stays { (self.new.session ≡ self.old.session) × (self.new.out ≡ self.old.out) }
        ensures numbers { OnOk result (FitIfAsked self.new.asks) }
    {
        let Some(session) = self.session else {
            return Ok(());
        };
        let tag = next_number(self.tag);
        self.asks = Some(Asking {
            session,
            tag,
            device,
            place,
            sectors,
            answer: None,
        });
        self.tag = self.tag.max(tag);
        self.sender()
            .send_reads(&self.asks, &[], self.rows.items(), out)
    }

    /// The answer to the read; it is handed out once. It takes no memory.
    pub fn arrived(&mut self) -> Option<Raw>
        ensures answer { result ≡ answer_in self.old.asks }
        ensures left { self.new ≡ answered self.old }
    {
        take_answer(&mut self.asks)
    }

    /// Does one event, knowing this state; readings are in milliseconds.
    pub fn take(
        &mut self,
        known: &GlobalState,
        input: &Input,
        out: &mut Outbox,
    ) -> Result<(), OutOfMemory>
        requires devices { length known.now.devices ≤ 4 }
        ensures takes { OnOk result (Takes self.old known.now input.now self.new out.old out.new) }
        ensures own_read { IsOwnRead self.old.session self.old.asks }
        ensures sent { OnOk result (SendsOnly IsStores out.old out.new) }
    {
        // What holds of every stream is known of this one, since a field is looked at.
        let _ = &self.alloc;
        self.learn(known, out)?;
        match input {
            Input::Packet(packet, _) => self.take_packet(packet),
            Input::Tick(_) => self.send_since(&[], out),
            Input::Synced => Ok(()),
        }
    }

    /// Takes a packet, once it knows the state.
    fn take_packet(&mut self, packet: &Packet) -> Result<(), OutOfMemory>
        ensures { OnOk result (Hears self.old packet.now.from packet.now.kind packet.now.body self.new) }
    {
        let said = DeviceMessage::read(self.alloc, packet.kind, packet.body.bytes())?;
        let Some(message) = said else {
            return Ok(());
        };
        self.hear(packet.from, message)
    }

    /// Stops. Its numbers stay, since its boot does. It takes no memory.
    pub fn crash(&mut self)
        ensures { self.new ≡ stopped self.old }
    {
        self.session = None;
        self.rows = List::new(self.alloc);
        self.out = None;
        self.asks = None;
    }

    /// Starts again, in a boot. It takes no memory.
    pub fn restart(&mut self, boot: u64)
        ensures { self.new ≡ restarted boot self.old }
    {
        self.crash();
        self.boot = boot;
        self.sequence = 0;
        self.tag = 0;
    }

    /// Who sends its letters.
    fn sender(&self) -> Sender
        ensures { result.node ≡ self.now.node }
    {
        Sender {
            alloc: self.alloc,
            node: self.node,
        }
    }

    /// Sends what is to be said of all that is out, to devices whose epochs aren't those of the rows before.
    pub(crate) fn send_since(
        &self,
        before: &[DeviceRow],
        out: &mut Outbox,
    ) -> Result<(), OutOfMemory>
        ensures { OnOk result (out.new ≡ out.old ++ letters_since before.now self.now) }
    {
        let sender = self.sender();
        sender.send_writes(&self.out, before, self.rows.items(), out)?;
        sender.send_reads(&self.asks, before, self.rows.items(), out)
    }
}
