//! Runs that a log asks for.

ghost use Rattle.std.specs.Prelude.{◌≡◌, IfOk};
ghost use Rattle.bx_layout.specs.Labels.{gate_text};
ghost use Rattle.bx_redo.specs.Steps.{one_run, shut_text};

use bx_base::{OutOfMemory, Raw};
use bx_layout::Gate;
use bx_places::SECTOR;
use bx_records::{Run, Runs};
use std::alloc::Global;

/// One run of a kind.
pub(crate) fn one_run(
    alloc: Global,
    kind: u8,
    place: (u32, u64),
    bytes: Raw,
) -> Result<Runs, OutOfMemory>
    ensures { IfOk result (λ runs. runs ≡ one_run kind place bytes) }
{
    let mut runs = Runs::new(alloc, kind);
    let (device, sector) = place;
    runs.push(Run {
        device,
        place: sector,
        bytes,
    })?;
    Ok(runs)
}

/// The sector of a gate.
pub(crate) fn gate_sector(alloc: Global, gate: Gate) -> Result<Raw, OutOfMemory>
    ensures { IfOk result (λ bytes. bytes ≡ gate_text gate) }
{
    let mut sector = [0; SECTOR];
    gate.write(&mut sector);
    Raw::of(alloc, &sector)
}

/// The sectors of the seven gates behind gate 0, closed.
#[tactic(auto, unfolding(crate::specs::Steps::shut_text))]
pub(crate) fn closed_gates(alloc: Global) -> Result<Raw, OutOfMemory>
    ensures { IfOk result (λ bytes. bytes ≡ shut_text) }
{
    let bytes = vec![in alloc; 0u8; 3584]?;
    Ok(Raw::from(bytes))
}
