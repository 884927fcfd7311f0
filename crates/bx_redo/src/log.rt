//! The log.

ghost use Rattle.std.specs.Prelude.{◌≡◌, ◌≢◌, ◌↔◌, ℕ, ◌<◌, ◌≤◌, true, false, IsTrue, IfOk, OnOk, OnErr};

use crate::runs::{closed_gates, gate_sector, one_run};
use crate::text::{record_is_logged, record_text};
use crate::work::{Move, Work};
use bx_base::{OutOfMemory, Point, Raw};
use bx_layout::Gate;
use bx_places::{body_place, gate_place};
use bx_records::{Draft, Runs};
use std::alloc::Global;
use std::marker::Model;

/// The kind number of the packets that carry a body.
const BODY: u8 = 14;

/// The kind number of the packets that carry an opened gate.
const GATE: u8 = 15;

/// The kind number of the packets that carry closed gates.
const SHUT: u8 = 17;

/// The log of a session in its slot. It holds no records: once one is acknowledged, its count is enough.
#[derive(Drop)]
pub struct Log {
    alloc: Global,
    slot: u32,
    device: u32,
    count: u32,
    work: Work,
    out: bool,
}

impl Model for Log {
    ghost use Rattle.bx_redo.specs.View.{LogView, IsLog};

    ghost Value = { LogView };

    ghost view = { λ log. record { slot = log.slot; device = log.device; count = log.count; work = log.work; out = log.out } };

    ghost invariant = { λ log. IsLog (record { slot = log.slot; device = log.device; count = log.count; work = log.work; out = log.out }) };
}

impl Log {
    ghost use Rattle.bx_redo.specs.Steps.{AreBlocksOf, Asks, WorkGoes, Steps, closed_log, found_log, gate_at, record_of, with_work, writes};
    ghost use Rattle.bx_redo.specs.View.{HasRecordRoom};
    ghost use Rattle.bx_redo.specs.declared.work.Work.TheVariants as works;
    ghost use Rattle.bx_volume.specs.Records.{IsLogged, logged_text};

    /// A closed log in a slot, from 0 to 7, on the device where the slot stands. It takes no memory.
    pub fn new(alloc: Global, slot: u32, device: u32) -> Log
        requires { slot < 8 }
        ensures { result ≡ closed_log slot device }
    {
        Log {
            alloc,
            slot,
            device,
            count: 0,
            work: Work::Idle,
            out: false,
        }
    }

    /// The log of a slot as a recovery found it, with so many open records, up to 8, which are all home: its closing is under way, and
    /// ends with `Closed`. It takes no memory.
    pub fn found(alloc: Global, slot: u32, device: u32, count: u32) -> Log
        requires slot { slot < 8 }
        requires most { count ≤ 8 }
        ensures { result ≡ found_log slot device count }
    {
        Log {
            alloc,
            slot,
            device,
            count,
            work: if count == 0 {
                Work::Shuts
            } else {
                Work::Closes
            },
            out: false,
        }
    }

    /// Whether nothing is under way: no record, and no closing.
    pub fn is_idle(&self) -> bool
        ensures { IsTrue result ↔ (self.now.work ≡ works.Idle) }
    {
        matches!(self.work, Work::Idle)
    }

    /// How many of its records are open: their gates are acknowledged.
    pub fn open(&self) -> u32
        ensures { result ≡ self.now.count }
    {
        self.count
    }

    /// Begins the record of a call at a point, of the blocks that it changes; it ends with its `Acked`. Nothing may be under
    /// way, and no record open. Where memory runs out, nothing changes.
    pub fn append(&mut self, point: Point, draft: &Draft) -> Result<(), OutOfMemory>
        requires idle { self.old.work ≡ works.Idle }
        requires none { self.old.count ≡ 0 }
        requires blocks { AreBlocksOf 64 draft.now }
        ensures logged { (areas : ℕ) → AreBlocksOf areas draft.now → IsLogged areas (record_of point draft.now) }
        ensures ok { OnOk result (self.new ≡ with_work self.old (works.Body (logged_text (record_of point draft.now)) point)) }
        ensures err { OnErr result (self.new ≡ self.old) }
    {
        record_is_logged(point, draft);
        let text = record_text(self.alloc, point, draft)?;
        self.work = Work::Body(text, point);
        self.out = false;
        Ok(())
    }

    /// Begins the closing, which ends with `Closed`. Nothing may be under way, and a record has to be open. Every block of its
    /// records is to be home on the devices, and that acknowledged, before.
    pub fn close(&mut self)
        requires idle { self.old.work ≡ works.Idle }
        requires some { 0 < self.old.count }
        ensures { self.new ≡ with_work self.old works.Closes }
    {
        self.work = Work::Closes;
        self.out = false;
    }

    /// What comes first, or once what was asked for last is acknowledged (`done`), or that it is waited for. A record or a
    /// closing has to be under way. Nothing that arrived counts for a log. Where memory runs out, nothing changes.
    pub fn next(&mut self, _arrived: Option<&Raw>, done: bool) -> Result<Move, OutOfMemory>
        requires { self.old.work ≢ works.Idle }
        ensures ok { IfOk result (λ move. Steps self.old.out done self.old self.new move) }
        ensures err { OnErr result (self.new ≡ self.old) }
    {
        if !self.out {
            let runs = self.runs_of(&self.work)?;
            self.out = true;
            return Ok(Move::Write(runs));
        }
        if !done {
            return Ok(Move::Wait);
        }
        self.go_on()
    }

    /// What comes once the log's write is acknowledged.
    fn go_on(&mut self) -> Result<Move, OutOfMemory>
        requires { self.old.work ≢ works.Idle }
        ensures ok { IfOk result (λ move. WorkGoes self.old self.new move self.old.work) }
        ensures err { OnErr result (self.new ≡ self.old) }
    {
        match self.work {
            Work::Idle => unreachable!(),
            Work::Body(_, point) => self.turn_to(Work::Opens(point)),
            Work::Opens(point) => {
                self.work = Work::Idle;
                self.out = false;
                self.count += 1;
                Ok(Move::Acked(point))
            }
            Work::Closes => self.shut(),
            Work::Shuts => {
                self.work = Work::Idle;
                self.out = false;
                Ok(Move::Closed)
            }
        }
    }

    /// Asks for the writes of another work.
    fn turn_to(&mut self, work: Work) -> Result<Move, OutOfMemory>
        requires room { HasRecordRoom work self.old.count }
        requires working { work ≢ works.Idle }
        ensures ok { IfOk result (λ move. Asks self.old self.new move work) }
        ensures err { OnErr result (self.new ≡ self.old) }
    {
        let runs = self.runs_of(&work)?;
        self.work = work;
        self.out = true;
        Ok(Move::Write(runs))
    }

    /// Asks for the closing of the gates behind gate 0, which is closed: no record is open.
    fn shut(&mut self) -> Result<Move, OutOfMemory>
        ensures ok { IfOk result (λ move. Asks (record self.old { count = 0 }) self.new move works.Shuts) }
        ensures err { OnErr result (self.new ≡ self.old) }
    {
        let runs = self.runs_of(&Work::Shuts)?;
        self.work = Work::Shuts;
        self.count = 0;
        self.out = true;
        Ok(Move::Write(runs))
    }

    /// The device and the sector of a gate.
    fn gate(&self, gate: u32) -> (u32, u64)
        requires { gate < 8 }
        ensures { result ≡ gate_at self.now gate }
    {
        let (_, sector) = gate_place(self.slot, gate, 1);
        (self.device, sector)
    }

    /// What a work writes.
    fn runs_of(&self, work: &Work) -> Result<Runs, OutOfMemory>
        requires room { HasRecordRoom work.now self.now.count }
        requires working { work.now ≢ works.Idle }
        ensures { IfOk result (λ runs. runs ≡ writes self.now work.now) }
    {
        match work {
            Work::Idle => unreachable!(),
            Work::Body(text, _) => {
                let bytes = Raw::of(self.alloc, text.bytes())?;
                let (_, sector) = body_place(self.slot, self.count, 1);
                one_run(self.alloc, BODY, (self.device, sector), bytes)
            }
            Work::Opens(_) => {
                let bytes = gate_sector(self.alloc, Gate::Open)?;
                one_run(self.alloc, GATE, self.gate(self.count), bytes)
            }
            Work::Closes => {
                let bytes = gate_sector(self.alloc, Gate::Closed)?;
                one_run(self.alloc, SHUT, self.gate(0), bytes)
            }
            Work::Shuts => {
                let bytes = closed_gates(self.alloc)?;
                one_run(self.alloc, SHUT, self.gate(1), bytes)
            }
        }
    }
}
