//! The gates of a log as bytes.

ghost use Rattle.std.specs.Prelude.{◌≡◌, ◌↔◌, ◌<◌, length, IsTrue};
ghost use Rattle.bx_disk.specs.Disks.{sector_of};
ghost use Rattle.bx_layout.specs.Labels.{IsOpenGate};
ghost use Rattle.bx_recover.specs.Gates.{IsOpenRun};

use bx_layout::Gate;
use bx_places::SECTOR;

/// How many gates a log has.
const GATES: u32 = 8;

/// How many of the eight gates are open, from gate 0 on.
pub(crate) fn open_run(gates: &[u8]) -> u32
    requires { length gates.now ≡ 4096 }
    ensures { IsOpenRun gates.now result }
{
    for gate in 0..GATES {
        if !is_open(gate_in(gates, gate)) {
            return gate;
        }
    }
    GATES
}

/// The sector of a gate.
fn gate_in(gates: &[u8], gate: u32) -> &[u8]
    requires long { length gates.now ≡ 4096 }
    requires gate { gate < 8 }
    ensures { result.now ≡ sector_of gates.now gate }
{
    let from = SECTOR * gate as usize;
    &gates[from..from + SECTOR]
}

/// Whether a sector is an open gate.
fn is_open(sector: &[u8]) -> bool
    ensures { IsTrue result ↔ IsOpenGate sector.now }
{
    Gate::read(sector) == Gate::Open
}
