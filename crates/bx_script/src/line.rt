//! The lines of a schedule.

ghost use Rattle.std.specs.Prelude.{◌≡◌, ◌≤◌, length, IfOk, IfSome};
ghost use Rattle.bx_base.specs.Text.{LacksFeed};
ghost use Rattle.bx_script.specs.ScheduleLine.{InRange, spelling};
ghost use Rattle.bx_script.specs.Schedule.{is_heading, node_of, reading_of};
ghost use Rattle.bx_script.specs.declared.line.Line.{Line};

use crate::reading::read_line;
use bx_base::{Actor, OutOfMemory, Raw};
use bx_disk::Noise;
use std::alloc::Global;

/// The most bytes of a line of a schedule, its line feed not counted. No line in the grammar is longer.
pub const MAX_LINE: usize = 18600;

/// The most bytes of a datagram.
pub const MAX_DATAGRAM: usize = 9216;

/// The most nodes of a heading.
pub(crate) const MAX_NODES: u32 = 4;

/// The most devices of a heading.
pub(crate) const MAX_DEVICES: u32 = 4;

/// The most areas of a heading.
pub(crate) const MAX_AREAS: u32 = 64;

/// The greatest reading of a clock, in milliseconds.
pub const MAX_READING: u64 = 4294967295999;

/// The most events of one `run` line.
pub const MAX_RUN: u32 = 1000000;

/// The most lines of a schedule.
pub const MAX_LINES: u64 = 4294967295;

/// A line of a schedule.
#[derive(Drop)]
pub enum Line {
    /// `boxwood 1 VOLUME NODES DEVICES AREAS`: the first line, and no other.
    Heading {
        /// The number of the volume.
        volume: u64,
        /// How many nodes there are, 1 to 4.
        nodes: u32,
        /// How many devices the volume has, 1 to 4.
        devices: u32,
        /// How many areas the volume has, 1 to 64.
        areas: u32,
    },
    /// `call READING NODE CLIENT HEX`: a datagram arrives at a node.
    Call {
        /// The node's clock, in milliseconds.
        reading: u64,
        /// The node.
        node: u32,
        /// The client's number.
        client: u32,
        /// At most 9216 bytes.
        datagram: Raw,
    },
    /// `run READING LIMIT`: events happen until nothing is left to do.
    Run {
        /// The clock, in milliseconds.
        reading: u64,
        /// At most so many events, 1 to 1000000.
        limit: u32,
    },
    /// `tick READING MACHINE`: the clock of a machine ticks.
    Tick {
        /// The machine's clock, in milliseconds.
        reading: u64,
        /// The machine.
        machine: Actor,
    },
    /// `deliver READING NUMBER`: a packet arrives, again or for the first time.
    Deliver {
        /// The receiver's clock, in milliseconds.
        reading: u64,
        /// The packet's number, from 1 on.
        number: u64,
    },
    /// `next READING FROM TO`: the least pending packet between two machines arrives.
    Next {
        /// The receiver's clock, in milliseconds.
        reading: u64,
        /// The sender.
        from: Actor,
        /// The receiver.
        to: Actor,
    },
    /// `sync MACHINE`: the disk of a machine finishes a sync.
    Sync {
        /// The machine.
        machine: Actor,
    },
    /// `hold FROM TO KIND`: from now on `run` passes over such packets.
    Hold {
        /// The sender.
        from: Actor,
        /// The receiver.
        to: Actor,
        /// The kind number, 1 to 24.
        kind: u8,
    },
    /// `free FROM TO KIND`: from now on `run` passes over them no more.
    Free {
        /// The sender.
        from: Actor,
        /// The receiver.
        to: Actor,
        /// The kind number, 1 to 24.
        kind: u8,
    },
    /// `drop FROM TO KIND`: those that are pending stop being pending.
    Drop {
        /// The sender.
        from: Actor,
        /// The receiver.
        to: Actor,
        /// The kind number, 1 to 24.
        kind: u8,
    },
    /// `crash MACHINE NOISE`: a machine crashes, and its disk with it.
    Crash {
        /// The machine.
        machine: Actor,
        /// What the disk's unsure sectors hold afterwards: `keep`, `drop` or `seed:N`.
        noise: Noise,
    },
    /// `crash all NOISE`: every machine that is up crashes, and its disk with it.
    CrashAll {
        /// What the disks' unsure sectors hold afterwards.
        noise: Noise,
    },
    /// `restart READING MACHINE`: a machine that is down starts again.
    Restart {
        /// Its clock, in milliseconds.
        reading: u64,
        /// The machine.
        machine: Actor,
    },
    /// `restart READING all`: every machine that is down starts again.
    RestartAll {
        /// The clock, in milliseconds.
        reading: u64,
    },
    /// `blank MACHINE`: the disk of a machine is replaced by a blank one.
    Blank {
        /// The machine.
        machine: Actor,
    },
}

impl Line {
    /// The line that a text spells; `None` exactly where it is outside the grammar.
    pub fn read(alloc: Global, text: &[u8]) -> Result<Option<Line>, OutOfMemory>
        // What is read is in range and spelled so.
        ensures found { IfOk result (λ found. IfSome found (λ line. InRange line × (text.now ≡ spelling line))) }
        // What is in range and spelled so is read.
        ensures only { IfOk result (λ found. (line : Line) → InRange line → text.now ≡ spelling line → found ≡ Some line) }
    {
        read_line(alloc, text)
    }

    /// Whether this is a heading.
    pub fn is_heading(&self) -> bool
        ensures { result ≡ is_heading self.now }
    {
        matches!(self, Line::Heading { .. })
    }

    /// The clock's reading, in milliseconds; `None` exactly where the line has none.
    pub fn reading(&self) -> Option<u64>
        ensures { result ≡ reading_of self.now }
    {
        match self {
            Line::Call { reading, .. }
            | Line::Run { reading, .. }
            | Line::Tick { reading, .. }
            | Line::Deliver { reading, .. }
            | Line::Next { reading, .. }
            | Line::Restart { reading, .. }
            | Line::RestartAll { reading } => Some(*reading),
            Line::Heading { .. }
            | Line::Sync { .. }
            | Line::Hold { .. }
            | Line::Free { .. }
            | Line::Drop { .. }
            | Line::Crash { .. }
            | Line::CrashAll { .. }
            | Line::Blank { .. } => None,
        }
    }

    /// The node that has to hear the line, as a datagram arrives there or its clock ticks; `None` exactly where no node has to.
    pub fn node(&self) -> Option<u32>
        ensures { result ≡ node_of self.now }
    {
        match self {
            Line::Call { node, .. }
            | Line::Tick {
                machine: Actor::Node(node),
                ..
            } => Some(*node),
            _ => None,
        }
    }
}

/// Two lines in range have different spellings, no line is longer than `MAX_LINE`, and none has a line feed.
pub fn one_spelling()
    ensures same { (a b : Line) → InRange a → InRange b → spelling a ≡ spelling b → a ≡ b }
    ensures short { (a : Line) → InRange a → length (spelling a) ≤ MAX_LINE }
    ensures lacks_feed { (a : Line) → InRange a → LacksFeed (spelling a) }
{}
