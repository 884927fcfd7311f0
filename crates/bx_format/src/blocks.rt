//! The blocks of the opening truth: each is the one that the definition names, as its contract says.

ghost use Rattle.std.specs.Prelude.{◌≡◌, ◌<◌, IfOk};
ghost use Rattle.bx_layout.specs.Areas.{IsArea};
ghost use Rattle.bx_truth.specs.Opening.{area_block, opening_slots, page_block, root_block};

use bx_base::{OutOfMemory, Raw};
use bx_layout::{AreaBlock, Block, Inode};
use bx_page::Page;
use bx_places::ChunkHandle;
use std::alloc::Global;

/// The handle of the root's inode, and that of the page of its tree.
const ROOT: u64 = 1;

const ROOT_PAGE: u64 = 0x1_0000_0001;

/// The slots of an area: the first two of the first area are taken.
fn slots_of(alloc: Global, area: u16) -> Result<AreaBlock, OutOfMemory>
    ensures slots { IfOk result (λ made. made ≡ opening_slots area) }
    ensures is { IfOk result IsArea }
{
    let mut slots = AreaBlock::new(alloc)?;
    if area == 0 {
        slots.take(0);
        slots.take(1);
    }
    Ok(slots)
}

/// The own block of an area.
pub(crate) fn own_block(alloc: Global, area: u16) -> Result<Block, OutOfMemory>
    ensures { IfOk result (λ made. made ≡ area_block area) }
{
    let slots = slots_of(alloc, area)?;
    let mut payload = [0; 4096];
    slots.write(&mut payload);
    Ok(Block {
        handle: ChunkHandle::own(area).number(),
        kind: 4,
        payload: Raw::of(alloc, &payload)?,
    })
}

/// The root's inode.
pub(crate) fn inode_block(alloc: Global) -> Result<Block, OutOfMemory>
    ensures { IfOk result (λ made. made ≡ root_block) }
{
    let inode = Inode {
        kind: 2,
        mode: 0o777,
        nlink: 2,
        uid: 0,
        gid: 0,
        size: 0,
        tail: 0,
        atime: (0, 0),
        mtime: (0, 0),
        ctime: (0, 0),
        tree: ROOT_PAGE,
        parent: ROOT,
        next: 3,
        path: Raw::of(alloc, &[])?,
    };
    let mut payload = [0; 4096];
    inode.write(&mut payload);
    Ok(Block {
        handle: ROOT,
        kind: 1,
        payload: Raw::of(alloc, &payload)?,
    })
}

/// The page of the root's tree.
pub(crate) fn tree_block(alloc: Global) -> Result<Block, OutOfMemory>
    ensures { IfOk result (λ made. made ≡ page_block) }
{
    let page = Page::new(alloc, 0);
    let mut payload = [0; 4096];
    page.write(&mut payload);
    Ok(Block {
        handle: ROOT_PAGE,
        kind: 2,
        payload: Raw::of(alloc, &payload)?,
    })
}
