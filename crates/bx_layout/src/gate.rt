//! Gates: sectors that are open or closed.

ghost use Rattle.std.specs.Prelude.{◌≡◌, ◌↔◌, length};

use bx_base::{clear_from, put};

/// Whether what stands behind a gate counts: a record, or a half of a cell.
#[derive(Clone, Copy, PartialEq, Eq)]
pub enum Gate {
    /// What stands behind it counts.
    Open,
    /// It doesn't.
    Closed,
}

/// The first bytes of an open gate.
const WORD: &[u8; 8] = b"BXGATE01";

impl Gate {
    ghost use Rattle.bx_layout.specs.Labels.{IsOpenGate, gate_text};

    /// The gate that these bytes are: open exactly where the first eight are its word, whatever is behind them.
    pub fn read(sector: &[u8]) -> Gate
        ensures { (result ≡ Gate.Open) ↔ IsOpenGate sector.now }
    {
        if sector.starts_with(WORD) {
            Gate::Open
        } else {
            Gate::Closed
        }
    }

    /// Writes the gate into a sector: its word and zeros where it is open, and zeros where it is closed.
    pub fn write(self, into: &mut [u8])
        requires { length into.old ≡ 512 }
        ensures { into.new ≡ gate_text self }
    {
        let end = match self {
            Gate::Open => put(into, 0, WORD),
            Gate::Closed => 0,
        };
        clear_from(into, end);
    }
}
