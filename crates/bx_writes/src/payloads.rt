//! The payloads of pieces that are written.

ghost use Rattle.std.specs.Prelude.{◌≡◌, ◌+◌, ◌-◌, ◌≤◌, ◌<◌, ℕ, IfOk, length, slice_index};
ghost use Rattle.std.specs.Option.{option_copied};
ghost use Rattle.bx_truth.specs.Stored.{byte_in};
ghost use Rattle.bx_writes.specs.Bytes.{IsPayload};

use bx_base::{OutOfMemory, Raw};
use bx_layout::Block;
use bx_places::PAYLOAD;
use std::alloc::Global;

/// The payload of a piece with bytes written over what it had from a place on; of a new piece over zeros.
pub(crate) fn overwritten(
    alloc: Global,
    before: Option<&Block>,
    from: usize,
    written: &[u8],
) -> Result<Raw, OutOfMemory>
    requires { from + length written.now ≤ 4096 }
    ensures { IfOk result (IsPayload (option_copied before.entry) from written.now) }
{
    let mut payload = [0; PAYLOAD];
    lay(&mut payload, bytes_of(before));
    lay_over(&mut payload, from, written);
    Raw::of(alloc, &payload)
}

/// The bytes of a piece: none where there is no piece.
fn bytes_of(piece: Option<&Block>) -> &[u8]
    ensures { (place : ℕ) → slice_index result.now place ≡ byte_in (option_copied piece.entry) place }
{
    match piece {
        None => &[],
        Some(block) => block.payload.bytes(),
    }
}

/// Puts bytes, and zeros behind them.
fn lay(into: &mut [u8], bytes: &[u8])
    requires { length into.old ≡ 4096 }
    ensures { (place : ℕ) → place < 4096 → slice_index into.new place ≡ slice_index bytes.now place }
{
    let kept = bytes.len().min(PAYLOAD);
    into[..kept].copy_from_slice(&bytes[..kept]);
    into[kept..].fill(0);
}

/// Puts bytes over others from a place on.
fn lay_over(into: &mut [u8], from: usize, written: &[u8])
    requires { from + length written.now ≤ length into.old }
    ensures below { (place : ℕ) → place < from → slice_index into.new place ≡ slice_index into.old place }
    ensures within { (place : ℕ) → from ≤ place → place < from + length written.now → slice_index into.new place ≡ slice_index written.now (place - from) }
    ensures behind { (place : ℕ) → from + length written.now ≤ place → slice_index into.new place ≡ slice_index into.old place }
{
    into[from..from + written.len()].copy_from_slice(written);
}
