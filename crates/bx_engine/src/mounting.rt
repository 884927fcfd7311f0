//! MNT and UMNT.

ghost use Rattle.std.specs.Prelude.{◌≡◌, IfOk};
ghost use Rattle.bx_model.specs.Mounting.{mount};
ghost use Rattle.bx_model.specs.Opening.{root_handle};
ghost use Rattle.bx_model.specs.declared.tree.Tree.{Tree};

use crate::procedures::UMNT;
use bx_base::{OutOfMemory, Raw};
use bx_model::{NOENT, Reply};
use bx_places::file_handle;
use std::alloc::Global;

/// The number of the root's handle: area 0, slot 0, generation 1.
const ROOT: u64 = 1;

/// What MNT and UMNT of a path answer (RFC 1094, appendix A, sections 5.2 and 5.4): the root's file handle, of the path `/`; nothing. No
/// block is looked at.
pub(crate) fn mounted(
    alloc: Global,
    volume: u64,
    procedure: u32,
    path: &[u8],
) -> Result<Reply, OutOfMemory>
    ensures { (tree : Tree) → tree.volume ≡ volume → tree.root ≡ root_handle → IfOk result (λ reply. reply ≡ mount tree procedure path.now) }
{
    if procedure == UMNT {
        return Ok(Reply::Empty);
    }
    if path != b"/".as_slice() {
        return Ok(Reply::Status(NOENT));
    }
    let root = file_handle(volume, ROOT);
    let root = Raw::of(alloc, root.as_slice())?;
    Ok(Reply::Mounted(root))
}
