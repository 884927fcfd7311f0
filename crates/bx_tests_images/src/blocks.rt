//! Blocks of a volume, with its logs over its homes.

ghost use Rattle.std.specs.Prelude.{◌≡◌};

use crate::audits::{tell_error, tell_points};
use bx_disk::Rack;
use bx_global::GlobalState;
use bx_homes::{Blocks, first_fault};
use bx_layout::Block;
use bx_overlay::{AuditError, Overlaid, read_disks};
use bx_places::{PAYLOAD, is_block};
use bx_tests_lines::Line;
use std::alloc::Global;

/// Tells the points of the records that are open, and the blocks with these numbers; or why the rack is refused.
pub(crate) fn tell<R: Rack>(
    alloc: Global,
    line: &mut Line,
    rack: &mut R,
    state: &GlobalState,
    numbers: &[u64],
) {
    let read = match read_disks(alloc, rack, state) {
        Ok(read) => read,
        Err(error) => return tell_error(line, error),
    };
    tell_points(line, &read.doubt);
    let areas = read.members.areas;
    let mut blocks = Overlaid::new(alloc, rack, read.members, read.newest.items());
    tell_blocks(line, &mut blocks, areas, numbers);
}

/// Tells blocks.
fn tell_blocks<B: Blocks>(line: &mut Line, blocks: &mut B, areas: u16, numbers: &[u64])
    requires ready { B.ready blocks.old }
    requires areas { B.areas blocks.old ≡ areas }
{
    for number in numbers {
        tell_at(line, blocks, areas, *number);
    }
}

/// Tells the block with a number, where there is one.
fn tell_at<B: Blocks>(line: &mut Line, blocks: &mut B, areas: u16, number: u64)
    requires ready { B.ready blocks.old }
    requires areas { B.areas blocks.old ≡ areas }
    ensures ready { B.ready blocks.new }
    ensures areas { B.areas blocks.new ≡ areas }
{
    line.text(" block");
    line.number(number);
    if !is_block(number, areas) {
        return;
    }
    match blocks.block(number) {
        Ok(Some(block)) => tell_block(line, &block),
        Ok(None) => line.text(" none"),
        Err(_) => line.text(" fault"),
    }
}

/// Tells a block: its handle, its kind, and its payload without the zeros at its end.
fn tell_block(line: &mut Line, block: &Block) {
    line.numbers(&[block.handle, u64::from(block.kind)]);
    let mut payload = block.payload.bytes();
    for _ in 0..PAYLOAD {
        let Some((0, front)) = payload.split_last() else {
            break;
        };
        payload = front;
    }
    line.bytes(payload);
}

/// Tells the first block that isn't as the slots ask: its number, the handle in its header, and the one that is wanted.
pub(crate) fn tell_slots<R: Rack>(
    alloc: Global,
    line: &mut Line,
    rack: &mut R,
    state: &GlobalState,
) {
    let read = match read_disks(alloc, rack, state) {
        Ok(read) => read,
        Err(error) => return tell_error(line, error),
    };
    let areas = read.members.areas;
    let mut blocks = Overlaid::new(alloc, rack, read.members, read.newest.items());
    match first_fault(alloc, &mut blocks, areas) {
        Ok(Some(wrong)) => {
            line.text("wrong");
            line.numbers(&[wrong.at, wrong.found, wrong.wanted]);
        }
        Ok(None) => line.text("right"),
        Err(error) => tell_error(line, AuditError::from(error)),
    }
}
