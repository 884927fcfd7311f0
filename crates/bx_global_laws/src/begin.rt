//! States to begin with.

ghost use Rattle.std.specs.Prelude.{◌≡◌, IfOk, replicate};
ghost use Rattle.bx_global.specs.Opening.{first_device, formatted_state, opening_state, rows_until};

use bx_base::{List, OutOfMemory};
use bx_global::GlobalState;
use bx_rows::{DeviceRow, SessionRow};
use std::alloc::Global;

/// When the first sessions end, in milliseconds.
const FIRST_UNTIL: u64 = 4_000;

/// When the first term ends, in milliseconds.
const FIRST_TERM_END: u64 = 8_000;

/// The state that a cluster of this many nodes, at most 4, and devices, 1 to 4, runs from: each node has a session.
pub fn opening(alloc: Global, nodes: u32, devices: u32) -> Result<GlobalState, OutOfMemory>
    ensures { IfOk result (λ state. state ≡ opening_state nodes devices) }
{
    Ok(GlobalState {
        index: 1,
        master: 0,
        master_boot: 0,
        term: 1,
        term_end: FIRST_TERM_END,
        next_session: u64::from(nodes) + 1,
        sessions: sessions_until(alloc, nodes, FIRST_UNTIL)?,
        devices: first_devices(alloc, devices)?,
    })
}

/// The state that is written where a cluster's disks are made: this many devices, 1 to 4, and no session.
pub fn formatted(alloc: Global, devices: u32) -> Result<GlobalState, OutOfMemory>
    ensures { IfOk result (λ state. state ≡ formatted_state devices) }
{
    Ok(GlobalState {
        index: 1,
        master: 0,
        master_boot: 0,
        term: 1,
        term_end: 0,
        next_session: 1,
        sessions: List::new(alloc),
        devices: first_devices(alloc, devices)?,
    })
}

/// The sessions of this many nodes, which last up to a moment.
pub fn sessions_until(
    alloc: Global,
    nodes: u32,
    until: u64,
) -> Result<List<SessionRow>, OutOfMemory>
    ensures { IfOk result (λ rows. rows ≡ rows_until until nodes) }
{
    let mut rows = List::new(alloc);
    for node in 0..nodes {
        rows.push(SessionRow {
            number: u64::from(node) + 1,
            node,
            boot: 0,
            slot: node,
            until,
            dead: 0,
            by: 0,
        })?;
    }
    Ok(rows)
}

/// This many devices of which no mode was ever set.
fn first_devices(alloc: Global, devices: u32) -> Result<List<DeviceRow>, OutOfMemory>
    ensures { IfOk result (λ rows. rows ≡ replicate devices first_device) }
{
    let mut rows = List::new(alloc);
    for _ in 0..devices {
        rows.push(DeviceRow {
            mode: 0,
            epoch: 1,
            boot_a: 0,
            boot_b: 0,
        })?;
    }
    Ok(rows)
}
