//! Bodies of records as bytes.

ghost use Rattle.std.specs.Prelude.{◌≡◌, ◌+◌, ◌*◌, ◌≤◌, length, map, IfOk, IfSome, IfNone};
ghost use Rattle.bx_logs.specs.Bodies.{IsGap, StandOn};
ghost use Rattle.bx_recover.specs.Bodies.{HasNoRecord, IsRecordIn, held_in};

use bx_base::{List, OutOfMemory};
use bx_layout::Block;
use bx_logs::{Record, are_numbers};
use bx_places::{PAYLOAD, SECTOR};
use bx_records::{RecordHead, one_reading};
use std::alloc::Global;

/// How many bytes a block has.
const BLOCK: usize = SECTOR + PAYLOAD;

/// The record that the bytes of a body begin with, of a volume with so many areas. `None` exactly where they begin with none.
pub(crate) fn read_record(
    alloc: Global,
    bytes: &[u8],
    areas: u16,
) -> Result<Option<Record>, OutOfMemory>
    requires { length bytes.now ≡ 74240 }
    ensures some { IfOk result (λ found. IfSome found (IsRecordIn areas bytes.now)) }
    ensures none { IfOk result (λ found. IfNone found (HasNoRecord areas bytes.now)) }
{
    one_reading();
    let Some(head) = RecordHead::read(alloc, &bytes[..SECTOR])? else {
        return Ok(None);
    };
    if !are_numbers(areas, head.blocks.items()) {
        return Ok(None);
    }
    match read_blocks(alloc, bytes, head.blocks.items())? {
        Some(changed) => Ok(Some(Record::new(head, changed))),
        None => Ok(None),
    }
}

/// The blocks with these numbers that stand one behind the other, from the second sector on; `None` exactly where they don't all stand there.
fn read_blocks(
    alloc: Global,
    bytes: &[u8],
    numbers: &[u64],
) -> Result<Option<List<(u64, Block)>>, OutOfMemory>
    requires { 512 + 4608 * length numbers.now ≤ length bytes.now }
    ensures numbers { IfOk result (λ found. IfSome found (λ changed. map (λ change. change.0) changed ≡ numbers.now)) }
    ensures some { IfOk result (λ found. IfSome found (StandOn (held_in bytes.now) 0 1)) }
    ensures none { IfOk result (λ found. IfNone found (IsGap (held_in bytes.now) 0 1 numbers.now)) }
{
    let mut changed = List::new(alloc);
    for at in 0..numbers.len() {
        let from = SECTOR + BLOCK * at;
        let Some(block) = Block::read(alloc, &bytes[from..from + BLOCK])? else {
            return Ok(None);
        };
        changed.push((numbers[at], block))?;
    }
    Ok(Some(changed))
}
