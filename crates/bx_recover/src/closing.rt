//! What a closing of the log writes.

ghost use Rattle.std.specs.Prelude.{◌≡◌, ◌<◌, ◌≤◌, IfOk};
ghost use Rattle.bx_redo.specs.Steps.{found_log, writes};

use bx_base::OutOfMemory;
use bx_records::Runs;
use bx_redo::{Log, Move};
use std::alloc::Global;

/// What a closing of a log writes first, on a device, of which so many records are open: gate 0, or where none are the gates behind it.
pub(crate) fn closing(
    alloc: Global,
    slot: u32,
    device: u32,
    count: u32,
) -> Result<Runs, OutOfMemory>
    requires slot { slot < 8 }
    requires most { count ≤ 8 }
    ensures { let log = found_log slot device count in IfOk result (λ runs. runs ≡ writes log log.work) }
{
    let mut log = Log::found(alloc, slot, device, count);
    match log.next(None, false)? {
        Move::Write(runs) => Ok(runs),
        Move::Read(_, _, _) | Move::Acked(_) | Move::Closed | Move::Wait => unreachable!(),
    }
}
