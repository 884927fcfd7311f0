//! Reading rows and ballots from the front of bytes.

ghost use Rattle.std.specs.Prelude.{◌≡◌};
ghost use Rattle.bx_base.specs.Reading.{Gives, list_at};
ghost use Rattle.bx_rows.specs.Reading.{ballot_at, device_at, devices_at, pair_at, session_at, sessions_at};

use crate::ballot::Ballot;
use crate::device::DeviceRow;
use crate::session::SessionRow;
use bx_base::{List, ReadError, u32_at, u64_at};
use std::alloc::Global;

/// The most sessions of a state.
const MOST_SESSIONS: u32 = 8;

/// The most devices of a state.
const MOST_DEVICES: u32 = 4;

/// A number of 32 bits and one of 64 at the front, and the bytes behind them.
#[tactic(auto, unfolding(crate::specs::Reading::pair_at))]
pub fn pair_of(bytes: &[u8]) -> Result<((u32, u64), &[u8]), ReadError>
    ensures { Gives (λ x. (x.0, x.1.now)) result (pair_at bytes.now) }
{
    let (small, rest) = u32_at(bytes)?;
    let (great, rest) = u64_at(rest)?;
    Ok(((small, great), rest))
}

/// How many sessions there are and their rows at the front, and the bytes behind them.
#[tactic(auto, unfolding(crate::specs::Reading::sessions_at))]
pub fn sessions_of(alloc: Global, bytes: &[u8]) -> Result<(List<SessionRow>, &[u8]), ReadError>
    ensures { Gives (λ x. (x.0, x.1.now)) result (sessions_at bytes.now) }
{
    let (count, rest) = u32_at(bytes)?;
    if count > MOST_SESSIONS {
        return Err(ReadError::Malformed);
    }
    session_rows(alloc, count, rest)
}

/// As many rows of sessions as are wanted, and the bytes behind them.
fn session_rows(
    alloc: Global,
    count: u32,
    bytes: &[u8],
) -> Result<(List<SessionRow>, &[u8]), ReadError>
    ensures { Gives (λ x. (x.0, x.1.now)) result (list_at count session_at bytes.now) }
{
    let mut rows = List::new(alloc);
    let mut rest = bytes;
    for _ in 0..count {
        let (row, after) = session_of(rest)?;
        rows.push(row)?;
        rest = after;
    }
    Ok((rows, rest))
}

/// The row of a session at the front, and the bytes behind it.
#[tactic(auto, unfolding(crate::specs::Reading::session_at))]
fn session_of(bytes: &[u8]) -> Result<(SessionRow, &[u8]), ReadError>
    ensures { Gives (λ x. (x.0, x.1.now)) result (session_at bytes.now) }
{
    let (number, rest) = u64_at(bytes)?;
    let ((node, boot), rest) = pair_of(rest)?;
    let ((slot, until), rest) = pair_of(rest)?;
    let ((dead, by), rest) = pair_of(rest)?;
    let row = SessionRow {
        number,
        node,
        boot,
        slot,
        until,
        dead,
        by,
    };
    Ok((row, rest))
}

/// How many devices there are and their rows at the front, and the bytes behind them.
#[tactic(auto, unfolding(crate::specs::Reading::devices_at))]
pub fn devices_of(alloc: Global, bytes: &[u8]) -> Result<(List<DeviceRow>, &[u8]), ReadError>
    ensures { Gives (λ x. (x.0, x.1.now)) result (devices_at bytes.now) }
{
    let (count, rest) = u32_at(bytes)?;
    if count == 0 || count > MOST_DEVICES {
        return Err(ReadError::Malformed);
    }
    device_rows(alloc, count, rest)
}

/// As many rows of devices as are wanted, and the bytes behind them.
fn device_rows(
    alloc: Global,
    count: u32,
    bytes: &[u8],
) -> Result<(List<DeviceRow>, &[u8]), ReadError>
    ensures { Gives (λ x. (x.0, x.1.now)) result (list_at count device_at bytes.now) }
{
    let mut rows = List::new(alloc);
    let mut rest = bytes;
    for _ in 0..count {
        let (row, after) = device_of(rest)?;
        rows.push(row)?;
        rest = after;
    }
    Ok((rows, rest))
}

/// The row of a device at the front, and the bytes behind it.
#[tactic(auto, unfolding(crate::specs::Reading::device_at))]
fn device_of(bytes: &[u8]) -> Result<(DeviceRow, &[u8]), ReadError>
    ensures { Gives (λ x. (x.0, x.1.now)) result (device_at bytes.now) }
{
    let ((mode, epoch), rest) = pair_of(bytes)?;
    let (boot_a, rest) = u64_at(rest)?;
    let (boot_b, rest) = u64_at(rest)?;
    let row = DeviceRow {
        mode,
        epoch,
        boot_a,
        boot_b,
    };
    Ok((row, rest))
}

/// The ballot at the front, and the bytes behind it.
#[tactic(auto, unfolding(crate::specs::Reading::ballot_at))]
pub fn ballot_of(bytes: &[u8]) -> Result<(Ballot, &[u8]), ReadError>
    ensures { Gives (λ x. (x.0, x.1.now)) result (ballot_at bytes.now) }
{
    let (round, rest) = u64_at(bytes)?;
    let ((actor, boot), rest) = pair_of(rest)?;
    Ok((Ballot { round, actor, boot }, rest))
}
