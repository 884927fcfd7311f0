//! The homes of the blocks of open records.

ghost use Rattle.std.specs.Prelude.{◌≡◌, ◌⊎◌, ◌↔◌, ℕ, ◌+◌, ◌<◌, true, false, List, length, IsTrue, IfOk, IfSome, IfNone, OnOk, OnErr, IsErrOf};
ghost use Rattle.bx_base.specs.Faults.{Rose};
ghost use Rattle.bx_disk.specs.declared.fault.RackError.TheVariants.{Fault};
ghost use Rattle.bx_layout.specs.Blocks.{HasParts};
ghost use Rattle.bx_logs.specs.Newest.{newest_at};
ghost use Rattle.bx_plain_repair.specs.Bench.{AreLong};
ghost use Rattle.bx_plain_repair.specs.HomesOf.{AreHomesBelow, HasNone};
ghost use Rattle.bx_plain_repair.specs.Kept.{KeepsCounts};
ghost use Rattle.bx_plain_repair.specs.Resting.{Rests, StandsAs, closes_log};
ghost use Rattle.bx_plain_repair.specs.Spared.{SparesOthers};
ghost use Rattle.bx_model.specs.declared.tree.Tree.{Tree};
ghost use Rattle.bx_places.specs.Places.{IsBlock};
ghost use Rattle.bx_volume.specs.Records.{Logged, newest_in};

use crate::through::write_through;
use bx_base::{List, OutOfMemory};
use bx_disk::{Rack, RackError};
use bx_layout::Block;
use bx_logs::Newest;
use bx_places::{ChunkHandle, MOST_AREAS, OWN_SLOT, PAYLOAD};
use bx_records::Run;
use bx_redo::home_of;
use std::alloc::Global;

/// One more than the greatest number of a block of one area.
const BLOCKS: u64 = 961;

/// How many kinds of blocks there are.
const KINDS: u32 = 5;

/// The kind of the own block of an area.
const AREA: u32 = 4;

/// Writes the newest blocks of open records into their homes, and surely, all at once. A block that no disk may hold is a fault.
pub(crate) fn write_homes<R: Rack>(
    alloc: Global,
    rack: &mut R,
    newest: &Newest,
) -> Result<(), RackError>
    requires long { AreLong (R.state rack.old).sizes }
    ensures homed { (volume floor : ℕ) (tree : Tree) (records : List Logged) → R.tells rack.old → Rests volume floor tree records (R.state rack.old)
        → ((at : ℕ) → newest_at newest.now at ≡ newest_in records at) → 0 < length records → OnOk result (StandsAs volume floor tree records (closes_log (length records)) (R.state rack.new)) }
    ensures rests { (volume floor : ℕ) (tree : Tree) (records : List Logged) → R.tells rack.old → Rests volume floor tree records (R.state rack.old)
        → ((at : ℕ) → newest_at newest.now at ≡ newest_in records at) → OnErr result (Rests volume floor tree records (R.state rack.new)) }
    ensures spares { R.tells rack.old → SparesOthers (R.state rack.old) (R.state rack.new) }
    ensures cause { IsErrOf result Fault → Rose (R.faults rack.old) (R.faults rack.new) ⊎ HasNone (newest_at newest.now) }
    ensures rack { KeepsCounts R.Rack rack.old rack.new result }
{
    let Some(runs) = home_runs(alloc, newest)? else {
        return Err(RackError::Fault);
    };
    write_through(rack, runs)?;
    Ok(())
}

/// The runs that write the blocks into their homes; `None` only where one is no block that a disk may hold.
fn home_runs(alloc: Global, newest: &Newest) -> Result<Option<List<Run>>, OutOfMemory>
    ensures some { IfOk result (λ found. IfSome found (AreHomesBelow newest.now 961)) }
    ensures none { IfOk result (λ found. IfNone found (HasNone (newest_at newest.now))) }
{
    let mut runs = List::new(alloc);
    for at in 0..BLOCKS {
        if !put_home(alloc, newest, at, &mut runs)? {
            return Ok(None);
        }
    }
    Ok(Some(runs))
}

/// Puts the run of the block with a number behind those of the blocks before it, where there is one; false only where it is none that a disk may hold.
fn put_home(
    alloc: Global,
    newest: &Newest,
    at: u64,
    runs: &mut List<Run>,
) -> Result<bool, OutOfMemory>
    requires { at < 961 }
    ensures more { AreHomesBelow newest.now at runs.old → IfOk result (λ is. is ≡ true → AreHomesBelow newest.now (at + 1) runs.new) }
    ensures none { IfOk result (λ is. is ≡ false → HasNone (newest_at newest.now)) }
{
    let Some(block) = newest.get(&at) else {
        return Ok(true);
    };
    if !has_parts(block) {
        return Ok(false);
    }
    runs.push(home_of(alloc, 1, 1, at, block)?)?;
    Ok(true)
}

/// Whether it is a block that a disk may hold.
fn has_parts(block: &Block) -> bool
    ensures { IsTrue result ↔ HasParts block.now }
{
    let handle = ChunkHandle::of(block.handle);
    let is_own = handle.area < MOST_AREAS && handle.slot == OWN_SLOT && handle.generation == 0;
    block.kind < KINDS && (block.kind != AREA || is_own) && block.payload.bytes().len() == PAYLOAD
}
