//! Reading what is said.

ghost use Rattle.std.specs.Prelude.{◌≡◌, ◌≤◌, IfOk, IfSome, IfNone, MatchResult};
ghost use Rattle.bx_mirror_packets.specs.DeviceMessages.{Spells};
ghost use Rattle.bx_mirror_packets.specs.Reading.{NoneSpells};
ghost use Rattle.bx_mirror_packets.specs.declared.message.DeviceMessage.{DeviceMessage};

use crate::bodies::{copied_in, copy_in, data_in, read_in, write_in, wrote_in};
use crate::message::DeviceMessage;
use bx_base::{OutOfMemory, ReadError};
use std::alloc::Global;

impl DeviceMessage {
    /// What a packet of this kind and body says. `None` exactly where that is nothing: the kind is none of the mirrored devices', or the
    /// body isn't the bytes of one of its messages.
    pub fn read(alloc: Global, kind: u8, body: &[u8]) -> Result<Option<DeviceMessage>, OutOfMemory>
        ensures some { IfOk result (λ found. IfSome found (λ message. Spells message kind body.now)) }
        ensures none { IfOk result (λ found. IfNone found ((message : DeviceMessage) → Spells message kind body.now → ⊥)) }
    {
        match message_of(alloc, kind, body) {
            Ok(message) => Ok(Some(message)),
            Err(ReadError::Malformed) => Ok(None),
            Err(ReadError::OutOfMemory) => Err(OutOfMemory),
        }
    }
}

/// What a packet says; `Malformed` exactly where that is nothing.
fn message_of(alloc: Global, kind: u8, body: &[u8]) -> Result<DeviceMessage, ReadError>
    ensures { MatchResult result (λ message. Spells message kind body.now) (λ e. NoneSpells e kind body.now) }
{
    match kind {
        14..=18 => write_of(alloc, kind, body),
        19 => wrote_of(body),
        20 => read_of(body),
        21 => data_of(alloc, body),
        22 => copy_of(alloc, body),
        23 => copied_of(body),
        24 => alive_of(body),
        _ => Err(ReadError::Malformed),
    }
}

/// A write.
fn write_of(alloc: Global, kind: u8, body: &[u8]) -> Result<DeviceMessage, ReadError>
    requires least { 14 ≤ kind }
    requires most { kind ≤ 18 }
    ensures { MatchResult result (λ message. Spells message kind body.now) (λ e. NoneSpells e kind body.now) }
{
    let write = write_in(alloc, kind, body)?;
    Ok(DeviceMessage::Write(write))
}

/// An answer to a write.
fn wrote_of(body: &[u8]) -> Result<DeviceMessage, ReadError>
    ensures { MatchResult result (λ message. Spells message 19 body.now) (λ e. NoneSpells e 19 body.now) }
{
    let wrote = wrote_in(body)?;
    Ok(DeviceMessage::Wrote(wrote))
}

/// A read.
fn read_of(body: &[u8]) -> Result<DeviceMessage, ReadError>
    ensures { MatchResult result (λ message. Spells message 20 body.now) (λ e. NoneSpells e 20 body.now) }
{
    let read = read_in(body)?;
    Ok(DeviceMessage::Read(read))
}

/// An answer to a read.
fn data_of(alloc: Global, body: &[u8]) -> Result<DeviceMessage, ReadError>
    ensures { MatchResult result (λ message. Spells message 21 body.now) (λ e. NoneSpells e 21 body.now) }
{
    let data = data_in(alloc, body)?;
    Ok(DeviceMessage::Data(data))
}

/// A piece of a copy.
fn copy_of(alloc: Global, body: &[u8]) -> Result<DeviceMessage, ReadError>
    ensures { MatchResult result (λ message. Spells message 22 body.now) (λ e. NoneSpells e 22 body.now) }
{
    let copy = copy_in(alloc, body)?;
    Ok(DeviceMessage::Copy(copy))
}

/// An answer to a piece of a copy.
fn copied_of(body: &[u8]) -> Result<DeviceMessage, ReadError>
    ensures { MatchResult result (λ message. Spells message 23 body.now) (λ e. NoneSpells e 23 body.now) }
{
    let copied = copied_in(body)?;
    Ok(DeviceMessage::Copied(copied))
}

/// A member is up.
fn alive_of(body: &[u8]) -> Result<DeviceMessage, ReadError>
    ensures { MatchResult result (λ message. Spells message 24 body.now) (λ e. NoneSpells e 24 body.now) }
{
    if !body.is_empty() {
        return Err(ReadError::Malformed);
    }
    Ok(DeviceMessage::Alive)
}
