//! What is in sectors and in blocks.

ghost use Rattle.std.specs.Prelude.{◌<◌};
ghost use Rattle.bx_layout.specs.Areas.{IsArea};

use bx_base::OutOfMemory;
use bx_layout::{AreaBlock, Block, Gate, Inode, Label};
use bx_records::RecordHead;
use bx_tests_lines::Line;
use std::alloc::Global;

/// Tells a label: the volume, the disk, how many devices and how many areas.
pub(crate) fn label(line: &mut Line, bytes: &[u8]) {
    let Some(label) = Label::read(bytes) else {
        return line.text("none");
    };
    line.numbers(&[
        label.volume,
        u64::from(label.disk),
        u64::from(label.devices),
        u64::from(label.areas),
    ]);
    let mut written = [1; 512];
    label.write(&mut written);
    line.written(&written, bytes);
}

/// Tells a gate.
pub(crate) fn gate(line: &mut Line, bytes: &[u8]) {
    let gate = Gate::read(bytes);
    line.text(match gate {
        Gate::Open => "open",
        Gate::Closed => "closed",
    });
    let mut written = [1; 512];
    gate.write(&mut written);
    line.written(&written, bytes);
}

/// Tells a block: its handle and its kind.
pub(crate) fn block(alloc: Global, line: &mut Line, bytes: &[u8]) -> Result<(), OutOfMemory> {
    let Some(block) = Block::read(alloc, bytes)? else {
        line.text("none");
        return Ok(());
    };
    line.numbers(&[block.handle, u64::from(block.kind)]);
    let mut written = [1; 4608];
    block.write(&mut written);
    line.written(&written, bytes);
    Ok(())
}

/// Tells an area: its lowest free slot, where it has one, how many are free, and the slots that were ever given or hold dead inodes.
pub(crate) fn area(alloc: Global, line: &mut Line, bytes: &[u8]) -> Result<(), OutOfMemory> {
    let Some(area) = AreaBlock::read(alloc, bytes)? else {
        line.text("none");
        return Ok(());
    };
    if let Some(lowest) = area.lowest_free() {
        line.number(u64::from(lowest));
    }
    line.number(u64::from(area.free_slots()));
    for slot in 0..960 {
        tell_slot(line, &area, slot);
    }
    let mut written = [1; 4096];
    area.write(&mut written);
    line.written(&written, bytes);
    Ok(())
}

/// Tells a slot that was ever given or holds a dead inode: its number and its generation, and whether it is used, free, dead.
fn tell_slot(line: &mut Line, area: &AreaBlock, slot: u16)
    requires area { IsArea area.now }
    requires slot { slot < 960 }
{
    if area.generation(slot) == 0 && !area.is_dead(slot) {
        return;
    }
    line.numbers(&[u64::from(slot), u64::from(area.generation(slot))]);
    if area.is_used(slot) {
        line.text(" used");
    }
    if area.is_free(slot) {
        line.text(" free");
    }
    if area.is_dead(slot) {
        line.text(" dead");
    }
}

/// Tells an inode.
pub(crate) fn inode(alloc: Global, line: &mut Line, bytes: &[u8]) -> Result<(), OutOfMemory> {
    let Some(inode) = Inode::read(alloc, bytes)? else {
        line.text("none");
        return Ok(());
    };
    tell_inode(line, &inode);
    let mut written = [1; 4096];
    inode.write(&mut written);
    line.written(&written, bytes);
    Ok(())
}

/// Tells the fields of an inode in their order: two numbers for each time, and the path as bytes.
fn tell_inode(line: &mut Line, inode: &Inode) {
    for word in [inode.kind, inode.mode, inode.nlink, inode.uid, inode.gid] {
        line.number(u64::from(word));
    }
    line.numbers(&[inode.size, inode.tail]);
    for (seconds, microseconds) in [inode.atime, inode.mtime, inode.ctime] {
        line.numbers(&[u64::from(seconds), u64::from(microseconds)]);
    }
    line.numbers(&[inode.tree, inode.parent, u64::from(inode.next)]);
    line.bytes(inode.path.bytes());
}

/// Tells the header of a record: its call, moment, spare and made, and the numbers of its blocks.
pub(crate) fn head(alloc: Global, line: &mut Line, bytes: &[u8]) -> Result<(), OutOfMemory> {
    let Some(head) = RecordHead::read(alloc, bytes)? else {
        line.text("none");
        return Ok(());
    };
    line.numbers(&[head.call, head.moment, head.spare, head.made]);
    line.numbers(head.blocks.items());
    let mut written = [1; 512];
    head.write(&mut written);
    line.written(&written, bytes);
    Ok(())
}
