//! Regions of zeros.

ghost use Rattle.std.specs.Prelude.{◌≡◌, ℕ, ◌+◌, ◌*◌, ◌/◌, ◌%◌, ◌<◌, ◌≤◌, length, replicate, slice_index, OnOk, OnErr};
ghost use Rattle.bx_disk.specs.Kept.{FailsOn};
ghost use Rattle.bx_disk.specs.Disks.{MayBeWritten};
ghost use Rattle.bx_calls.specs.Regions.{IsZero};
ghost use Rattle.bx_calls.specs.Calls.{KeepsSure, WritesOnly, HasSure, LeavesOnly};

use crate::calls::write_some;
use bx_disk::{Rack, RackError};

/// How many sectors one write zeroes.
const PIECE: u64 = 64;

/// Writes zeros to sectors.
#[tactic(auto, unfolding(crate::specs::Calls::WritesOnly))]
fn write_zeros<R: Rack>(rack: &mut R, disk: u32, sector: u64, zeros: &[u8]) -> Result<(), RackError>
    requires disk { disk < length (R.state rack.old).sizes }
    requires whole { length zeros.now % 512 ≡ 0 }
    requires range { sector + length zeros.now / 512 ≤ slice_index (R.state rack.old).sizes disk }
    requires blank { zeros.now ≡ replicate (length zeros.now) 0 }
    ensures zero { R.tells rack.old → OnOk result (IsZero (R.state rack.new).reads disk sector (length zeros.now / 512)) }
    ensures keeps { R.tells rack.old → KeepsSure (R.state rack.old) (R.state rack.new) disk sector (length zeros.now / 512) }
    ensures any_moment { R.tells rack.old → LeavesOnly (R.moment rack.old) (R.moment rack.new) (R.left_since rack.old) (R.left_since rack.new) (HasSure (R.state rack.old) disk sector (length zeros.now / 512)) }
    ensures torn { R.tells rack.old → MayBeWritten (R.state rack.old) (R.state rack.new) disk sector (length zeros.now / 512) }
    ensures rack { FailsOn R.Rack rack.old rack.new disk result }
{
    write_some(rack, disk, sector, zeros)?;
    Ok(())
}

/// Zeroes sectors by writes of at most so many zeros.
fn zero_pieces<R: Rack>(
    rack: &mut R,
    disk: u32,
    sector: u64,
    count: u64,
    zeros: &[u8],
) -> Result<(), RackError>
    requires disk { disk < length (R.state rack.old).sizes }
    requires range { sector + count ≤ slice_index (R.state rack.old).sizes disk }
    requires blank { zeros.now ≡ replicate (length zeros.now) 0 }
    requires piece { length zeros.now ≡ 512 * PIECE }
    ensures zero { R.tells rack.old → OnOk result (IsZero (R.state rack.new).reads disk sector count) }
    ensures keeps { R.tells rack.old → KeepsSure (R.state rack.old) (R.state rack.new) disk sector count }
    ensures any_moment { R.tells rack.old → LeavesOnly (R.moment rack.old) (R.moment rack.new) (R.left_since rack.old) (R.left_since rack.new) (HasSure (R.state rack.old) disk sector count) }
    ensures torn { R.tells rack.old → MayBeWritten (R.state rack.old) (R.state rack.new) disk sector count }
    ensures rack { FailsOn R.Rack rack.old rack.new disk result }
{
    let _sectors = rack.sectors(disk);
    let mut done = 0;
    while done < count {
        let piece = PIECE.min(count - done);
        write_zeros(rack, disk, sector + done, &zeros[..512 * piece as usize])?;
        done += piece;
    }
    Ok(())
}

/// Zeroes sectors by writes of at most 64. Each of them is unsure from then on and still has what it held at its last
/// sync, or is as it was, also after an error.
#[tactic(auto, unfolding(crate::specs::Calls::WritesOnly))]
pub fn zero_sectors<R: Rack>(
    rack: &mut R,
    disk: u32,
    sector: u64,
    count: u64,
) -> Result<(), RackError>
    requires disk { disk < length (R.state rack.old).sizes }
    requires range { sector + count ≤ slice_index (R.state rack.old).sizes disk }
    ensures zero { R.tells rack.old → OnOk result (IsZero (R.state rack.new).reads disk sector count) }
    ensures keeps { R.tells rack.old → KeepsSure (R.state rack.old) (R.state rack.new) disk sector count }
    ensures any_moment { R.tells rack.old → LeavesOnly (R.moment rack.old) (R.moment rack.new) (R.left_since rack.old) (R.left_since rack.new) (HasSure (R.state rack.old) disk sector count) }
    ensures only { R.tells rack.old → WritesOnly (R.state rack.old) (R.state rack.new) disk sector count }
    ensures torn { R.tells rack.old → OnErr result (MayBeWritten (R.state rack.old) (R.state rack.new) disk sector count) }
    ensures rack { FailsOn R.Rack rack.old rack.new disk result }
{
    let zeros = [0u8; 512 * 64];
    zero_pieces(rack, disk, sector, count, &zeros)?;
    Ok(())
}
