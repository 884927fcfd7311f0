//! When a write is done.

ghost use Rattle.std.specs.Prelude.{◌≡◌, ◌^◌, ◌<◌, ◌≤◌, ◌||◌, length, not};
ghost use Rattle.bx_mirror_client.specs.Sends.{has_runs, is_done, is_row_done};

use crate::sending::{Ack, Sending, has_runs, is_missing, writes_to};
use bx_rows::DeviceRow;

/// Whether a device has acknowledged: it is in no copy mode, and none of its members is missing.
fn is_row_done(acks: &[Ack], device: u32, row: &DeviceRow) -> bool
    requires { device < 2 ^ 31 }
    ensures { result ≡ is_row_done acks.now device row.now }
{
    (writes_to(row, false) || writes_to(row, true))
        && !(is_missing(acks, device, row, false) || is_missing(acks, device, row, true))
}

/// Whether a device has acknowledged, where it has some of the runs.
fn is_device_done(sending: &Sending, device: u32, row: &DeviceRow) -> bool
    requires { device < 2 ^ 31 }
    ensures { result ≡ (not (has_runs device sending.now.runs.1) || is_row_done sending.now.acks device row.now) }
{
    !has_runs(device, &sending.runs) || is_row_done(sending.acks.items(), device, row)
}

/// Whether each device of a write has acknowledged, as its row is.
pub(crate) fn is_done(sending: &Sending, rows: &[DeviceRow]) -> bool
    requires { length rows.now ≤ 4 }
    ensures { result ≡ is_done sending.now rows.now }
{
    for device in 0..rows.len() {
        if !is_device_done(sending, device as u32, &rows[device]) {
            return false;
        }
    }
    true
}
