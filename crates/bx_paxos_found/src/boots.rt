//! The greatest boot in a cell.

ghost use Rattle.std.specs.Prelude.{◌≡◌};
ghost use Rattle.bx_paxos_found.specs.Boots.{boot_of_devices, boot_of_held, boot_of_sessions, boot_of_state};

use bx_global::{GlobalState, Held};
use bx_rows::{DeviceRow, SessionRow};

/// The greatest boot of sessions; 0, where there is none.
fn boot_of_sessions(rows: &[SessionRow]) -> u64
    ensures { result ≡ boot_of_sessions rows.now }
{
    let mut boot = 0;
    for row in rows {
        if boot < row.boot {
            boot = row.boot;
        }
    }
    boot
}

/// The greatest boot of members; 0, where there is none.
fn boot_of_devices(rows: &[DeviceRow]) -> u64
    ensures { result ≡ boot_of_devices rows.now }
{
    let mut boot = 0;
    for row in rows {
        if boot < row.boot_a {
            boot = row.boot_a;
        }
        if boot < row.boot_b {
            boot = row.boot_b;
        }
    }
    boot
}

/// The greatest boot in a state.
fn boot_of_state(state: &GlobalState) -> u64
    ensures { result ≡ boot_of_state state.now }
{
    let sessions = boot_of_sessions(state.sessions.items());
    let devices = boot_of_devices(state.devices.items());
    state.master_boot.max(sessions.max(devices))
}

/// The greatest boot in a cell.
pub(crate) fn boot_of_held(held: &Held) -> u64
    ensures { result ≡ boot_of_held held.now }
{
    let ballots = held.promise.boot.max(held.ballot.boot);
    let states = boot_of_state(&held.accepted).max(boot_of_state(&held.decided));
    ballots.max(states)
}
