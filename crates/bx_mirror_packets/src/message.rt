//! What is said.

ghost use Rattle.std.specs.Prelude.{◌≡◌};

use bx_base::Raw;
use bx_records::Runs;

/// A write. The kind of its runs is that of the packet: 14 body, 15 gate, 16 home, 17 shut, 18 settle; they differ in nothing else.
#[derive(Drop)]
pub struct WriteBody {
    /// The session that writes.
    pub session: u64,
    /// The device, from 0 on.
    pub device: u32,
    /// The epoch in which it is written.
    pub epoch: u64,
    /// The number of the write, rising in a session.
    pub sequence: u64,
    /// The last reading at which it is taken, in milliseconds.
    pub until: u64,
    /// What is written, all on this device.
    pub runs: Runs,
}

/// A member has made a write sure.
#[derive(Clone, Copy, PartialEq, Eq)]
pub struct WroteBody {
    /// The session that wrote.
    pub session: u64,
    /// The device.
    pub device: u32,
    /// The epoch in which it was taken.
    pub epoch: u64,
    /// The number of the write.
    pub sequence: u64,
}

/// A read.
#[derive(Clone, Copy, PartialEq, Eq)]
pub struct ReadBody {
    /// The session that reads.
    pub session: u64,
    /// The device.
    pub device: u32,
    /// The epoch in which it is read.
    pub epoch: u64,
    /// The number of the read.
    pub tag: u64,
    /// The first sector.
    pub place: u64,
    /// How many sectors.
    pub sectors: u32,
}

/// The answer to a read.
#[derive(Drop)]
pub struct DataBody {
    /// The session that reads.
    pub session: u64,
    /// The device.
    pub device: u32,
    /// The epoch in which it was answered.
    pub epoch: u64,
    /// The number of the read.
    pub tag: u64,
    /// What the sectors hold.
    pub bytes: Raw,
}

/// A piece of a copy.
#[derive(Drop)]
pub struct CopyBody {
    /// The device.
    pub device: u32,
    /// The epoch of the copy.
    pub epoch: u64,
    /// The first sector.
    pub place: u64,
    /// What the sectors hold.
    pub bytes: Raw,
}

/// A piece of a copy is sure.
#[derive(Clone, Copy, PartialEq, Eq)]
pub struct CopiedBody {
    /// The device.
    pub device: u32,
    /// The epoch of the copy.
    pub epoch: u64,
    /// The first sector of the piece.
    pub place: u64,
}

/// What a packet of a mirrored device says.
#[derive(Drop)]
pub enum DeviceMessage {
    /// A member is to write.
    Write(WriteBody),
    /// It has written.
    Wrote(WroteBody),
    /// A member is to read.
    Read(ReadBody),
    /// It has read.
    Data(DataBody),
    /// The partner is to take a piece of a copy.
    Copy(CopyBody),
    /// It has taken it.
    Copied(CopiedBody),
    /// A member is up.
    Alive,
}

impl DeviceMessage {
    ghost use Rattle.bx_mirror_packets.specs.DeviceMessages.{kind_of};

    /// The kind number, 14 to 24.
    pub fn kind(&self) -> u8
        ensures { result ≡ kind_of self.now }
    {
        match self {
            DeviceMessage::Write(write) => write.runs.kind(),
            DeviceMessage::Wrote(_) => 19,
            DeviceMessage::Read(_) => 20,
            DeviceMessage::Data(_) => 21,
            DeviceMessage::Copy(_) => 22,
            DeviceMessage::Copied(_) => 23,
            DeviceMessage::Alive => 24,
        }
    }
}
