//! What an allocation of a chunk needs, and what refuses it.

use crate::desk::{Desk, OWN};
use bx_base::{Mode, Raw};
use bx_chunks::{ChunkError, allocate};
use bx_layout::Block;
use bx_records::{Draft, DraftError};
use std::alloc::Global;
use std::test::Fail;

/// Why a chunk isn't allocated in a draft that is empty, and stays so; nothing where it is allocated.
fn refusal(desk: &Desk) -> Option<ChunkError> {
    let mut draft = Draft::new(desk.alloc);
    let error = allocate(desk.alloc, &mut draft, desk, 0, 1).err();
    if draft.blocks().len() == 0 {
        error
    } else {
        None
    }
}

#[test]
fn an_area_without_a_free_slot_is_full(rt: HostRuntime) -> Result<(), Fail> {
    let mut desk = Desk::new(rt.alloc());
    desk.hold_area(960)?;
    assert!(rt; matches!(refusal(&desk), Some(ChunkError::Full(0))));
    Ok(())
}

#[test]
fn the_block_of_an_area_is_needed(rt: HostRuntime) {
    let desk = Desk::new(rt.alloc());
    assert!(rt; matches!(refusal(&desk), Some(ChunkError::Need(OWN, Mode::Exclusive))));
}

/// Puts an empty block into a draft.
fn put(alloc: Global, draft: &mut Draft, at: u64) -> Result<(), DraftError> {
    let payload = Raw::of(alloc, b"")?;
    draft.put(
        at,
        Block {
            handle: 0,
            kind: 0,
            payload,
        },
    )
}

#[test]
fn a_seventeenth_block_is_refused(rt: HostRuntime) -> Result<(), Fail> {
    let mut draft = Draft::new(rt.alloc());
    for at in 0..16 {
        put(rt.alloc(), &mut draft, at)?;
    }
    let more = put(rt.alloc(), &mut draft, 16);
    let again = put(rt.alloc(), &mut draft, 15);
    assert!(rt; matches!(more, Err(DraftError::Crowded)) && again.is_ok());
    assert_eq!(rt; draft.blocks().len(), 16);
    Ok(())
}
