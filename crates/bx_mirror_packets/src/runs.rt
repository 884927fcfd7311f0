//! Runs of sectors, read from the front of bytes.

ghost use Rattle.std.specs.Prelude.{◌≡◌, [], IfOk};
ghost use Rattle.bx_base.specs.Reading.{Gives, list_at};
ghost use Rattle.bx_mirror_packets.specs.Reading.{run_at, runs_at, sectors_at};

use bx_base::{Raw, ReadError, front_at, u32_at, u64_at};
use bx_records::{Run, Runs};
use std::alloc::Global;

/// The bytes of a sector.
const SECTOR: usize = 512;

/// How many runs there are and the runs, all on a device, and the bytes behind them. They get the kind.
#[tactic(auto, unfolding(crate::specs::Reading::runs_at))]
pub(crate) fn runs_of(
    alloc: Global,
    kind: u8,
    device: u32,
    bytes: &[u8],
) -> Result<(Runs, &[u8]), ReadError>
    ensures value { Gives (λ x. (x.0.1, x.1.now)) result (runs_at device bytes.now) }
    ensures kind { IfOk result (λ x. x.0.0 ≡ kind) }
{
    let (count, rest) = u32_at(bytes)?;
    counted_runs(Runs::new(alloc, kind), alloc, device, count, rest)
}

/// Puts as many runs as are wanted behind none, and gives them and the bytes behind them.
fn counted_runs(
    none: Runs,
    alloc: Global,
    device: u32,
    count: u32,
    bytes: &[u8],
) -> Result<(Runs, &[u8]), ReadError>
    requires none { none.1 ≡ [] }
    ensures value { Gives (λ x. (x.0.1, x.1.now)) result (list_at count (run_at device) bytes.now) }
    ensures kind { IfOk result (λ x. x.0.0 ≡ none.0) }
{
    let mut runs = none;
    let mut rest = bytes;
    for _ in 0..count {
        let (run, after) = run_of(alloc, device, rest)?;
        runs.push(run)?;
        rest = after;
    }
    Ok((runs, rest))
}

/// A run on a device at the front, and the bytes behind it.
#[tactic(auto, unfolding(crate::specs::Reading::run_at))]
fn run_of(alloc: Global, device: u32, bytes: &[u8]) -> Result<(Run, &[u8]), ReadError>
    ensures { Gives (λ x. (x.0, x.1.now)) result (run_at device bytes.now) }
{
    let (place, rest) = u64_at(bytes)?;
    let (sectors, rest) = sectors_of(rest)?;
    let run = Run {
        device,
        place,
        bytes: Raw::of(alloc, sectors)?,
    };
    Ok((run, rest))
}

/// How many sectors there are, at least one, and their bytes at the front, and the bytes behind them: the bytes of the sectors are given.
#[tactic(auto, unfolding(crate::specs::Reading::sectors_at))]
fn sectors_of(bytes: &[u8]) -> Result<(&[u8], &[u8]), ReadError>
    ensures { Gives (λ x. (x.0.now, x.1.now)) result (sectors_at bytes.now) }
{
    let (count, rest) = u32_at(bytes)?;
    if count == 0 {
        return Err(ReadError::Malformed);
    }
    front_at(rest, SECTOR * count as usize)
}
