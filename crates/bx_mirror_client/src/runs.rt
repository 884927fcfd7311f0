//! Runs that a write owns while it is out.

ghost use Rattle.std.specs.Prelude.{◌≡◌, ◌^◌, ◌<◌, IfOk, OnOk, length};

use bx_base::{OutOfMemory, Raw};
use bx_records::{Run, Runs};
use std::alloc::Global;

/// A copy of runs. For more than a packet can count there is no memory.
pub(crate) fn copied(alloc: Global, runs: &Runs) -> Result<Runs, OutOfMemory>
    ensures copy { IfOk result (λ copy. copy ≡ runs.now) }
    ensures count { OnOk result (length runs.now.1 < 2 ^ 32) }
{
    if runs.len() > u32::MAX as usize {
        return Err(OutOfMemory);
    }
    let mut copy = Runs::new(alloc, runs.kind());
    for i in 0..runs.len() {
        let Some(run) = runs.get(i) else {
            return Ok(copy);
        };
        copy.push(Run {
            device: run.device,
            place: run.place,
            bytes: Raw::of(alloc, run.bytes.bytes())?,
        })?;
    }
    Ok(copy)
}
