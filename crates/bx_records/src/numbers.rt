//! Numbers of eight bytes at a place of bytes.

ghost use Rattle.std.specs.Prelude.{◌+◌, ◌*◌, ◌≤◌, length};
ghost use Rattle.std.specs.List.{flat_map};
ghost use Rattle.std.specs.Int.{w64, to_be_bytes};
ghost use Rattle.bx_layout.specs.bx_base.specs.Writing.{Writes};

use bx_layout::base::put_u64;

/// Writes numbers of eight bytes one after the other, and gives the place behind them.
pub(crate) fn put_numbers(into: &mut [u8], at: usize, numbers: &[u64]) -> usize
    requires { at + 8 * length numbers.now ≤ length into.old }
    ensures { Writes into.old into.new at result (flat_map (to_be_bytes w64) numbers.now) }
{
    let mut end = at;
    for number in numbers {
        end = put_u64(into, end, *number);
    }
    end
}
