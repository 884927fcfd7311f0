//! Writing rows and ballots as bytes.

ghost use Rattle.std.specs.Prelude.{◌≡◌, ◌++◌, ◌^◌, ◌<◌, OnOk, length};
ghost use Rattle.bx_rows.specs.Spelling.{ballot_text, device_text, devices_text, pair_text, session_text, sessions_text};

use crate::ballot::Ballot;
use crate::device::DeviceRow;
use crate::session::SessionRow;
use bx_base::{OutOfMemory, push_u32, push_u64};

/// Puts a number of 32 bits and one of 64 at the end.
pub fn push_pair(out: &mut Vec<u8>, small: u32, great: u64) -> Result<(), OutOfMemory>
    ensures { OnOk result (out.new.items ≡ out.old.items ++ pair_text small great) }
{
    push_u32(out, small)?;
    push_u64(out, great)
}

/// Puts the number of sessions and their rows at the end.
pub fn push_sessions(out: &mut Vec<u8>, rows: &[SessionRow]) -> Result<(), OutOfMemory>
    requires { length rows.now < 2 ^ 32 }
    ensures { OnOk result (out.new.items ≡ out.old.items ++ sessions_text rows.now) }
{
    push_u32(out, rows.len() as u32)?;
    for row in rows {
        push_session(out, row)?;
    }
    Ok(())
}

/// Puts the row of a session at the end.
fn push_session(out: &mut Vec<u8>, row: &SessionRow) -> Result<(), OutOfMemory>
    ensures { OnOk result (out.new.items ≡ out.old.items ++ session_text row.now) }
{
    push_u64(out, row.number)?;
    push_pair(out, row.node, row.boot)?;
    push_pair(out, row.slot, row.until)?;
    push_pair(out, row.dead, row.by)
}

/// Puts the number of devices and their rows at the end.
pub fn push_devices(out: &mut Vec<u8>, rows: &[DeviceRow]) -> Result<(), OutOfMemory>
    requires { length rows.now < 2 ^ 32 }
    ensures { OnOk result (out.new.items ≡ out.old.items ++ devices_text rows.now) }
{
    push_u32(out, rows.len() as u32)?;
    for row in rows {
        push_device(out, row)?;
    }
    Ok(())
}

/// Puts the row of a device at the end.
fn push_device(out: &mut Vec<u8>, row: &DeviceRow) -> Result<(), OutOfMemory>
    ensures { OnOk result (out.new.items ≡ out.old.items ++ device_text row.now) }
{
    push_pair(out, row.mode, row.epoch)?;
    push_u64(out, row.boot_a)?;
    push_u64(out, row.boot_b)
}

/// Puts a ballot at the end.
pub fn push_ballot(out: &mut Vec<u8>, ballot: &Ballot) -> Result<(), OutOfMemory>
    ensures { OnOk result (out.new.items ≡ out.old.items ++ ballot_text ballot.now) }
{
    push_u64(out, ballot.round)?;
    push_pair(out, ballot.actor, ballot.boot)
}
