//! What is found in a tree, what is put into it, and what refuses that.

ghost use Rattle.std.specs.Prelude.{◌≡◌, ◌+◌, ◌≤◌, length, []};

use crate::desk::Desk;
use bx_base::Mode;
use bx_blink::BlinkError::{self, Absent, NoRoom, Present, Stale};
use bx_blink::{find, page_in};
use bx_leaves::insert;
use bx_records::{Draft, DraftError};
use bx_splits::split;
use bx_views::View;
use std::alloc::Global;
use std::test::Fail;

/// The handle of the root, in slot 1 in its first generation.
const ROOT: u64 = (1 << 32) + 1;

/// A leaf without entries, alone.
const EMPTY: [u8; 14] = [0, 0, 0, 0, 0, 0, 0, 0, 0, 0, 0, 0, 255, 255];

/// A key of 256 bytes, by a number.
fn key_of(number: u8) -> [u8; 256] {
    let mut key = [7; 256];
    key[0] = number;
    key
}

/// A desk that holds an empty root, and the blocks that a split of it takes.
fn with_root(alloc: Global) -> Result<Desk, DraftError> {
    let mut desk = Desk::new(alloc);
    desk.hold_area(2)?;
    desk.hold(1, (ROOT, 2), &EMPTY)?;
    desk.hold(2, (0, 0), &[])?;
    desk.hold(3, (0, 0), &[])?;
    Ok(desk)
}

/// How an entry is put into a tree.
#[derive(Clone, Copy, PartialEq, Eq)]
enum Came {
    /// There was room in its leaf.
    Put,
    /// The leaf with this handle had none, and was split.
    Split(u64),
    /// It is there.
    There,
    Failed,
}

/// Puts an entry in a draft; where its leaf has no room, splits the leaf.
fn put_or_split(desk: &Desk, draft: &mut Draft, key: &[u8], value: &[u8]) -> Came
    requires none { draft.old ≡ [] }
    requires key { length key.now ≤ 256 }
    requires both { length key.now + length value.now ≤ 268 }
{
    match insert(desk.alloc, draft, desk, ROOT, key, value) {
        Ok(()) => Came::Put,
        Err(NoRoom(leaf)) => match split(desk.alloc, draft, desk, ROOT, leaf, 0, 1) {
            Ok(()) => Came::Split(leaf),
            Err(_) => Came::Failed,
        },
        Err(Present) => Came::There,
        Err(_) => Came::Failed,
    }
}

/// The same in a draft of its own, that the desk then holds.
fn puts(desk: &mut Desk, number: u8) -> Result<Came, DraftError> {
    let mut draft = Draft::new(desk.alloc);
    let came = put_or_split(desk, &mut draft, &key_of(number), &[number; 12]);
    desk.take_in(&draft)?;
    Ok(came)
}

/// Whether a key has its value.
fn is_found(desk: &Desk, number: u8) -> bool {
    match find(desk.alloc, desk, ROOT, &key_of(number)) {
        Ok(value) => value.bytes() == [number; 12].as_slice(),
        Err(_) => false,
    }
}

/// Why a key isn't found; nothing where it is.
fn refusal(desk: &Desk, number: u8) -> Option<BlinkError> {
    find(desk.alloc, desk, ROOT, &key_of(number)).err()
}

/// How many bytes the root has left.
fn room(desk: &Desk) -> usize {
    match desk.block(1, Mode::Shared) {
        Some(block) => match page_in(desk.alloc, block) {
            Ok(Some(page)) => page.room(),
            _ => 0,
        },
        None => 0,
    }
}

#[test]
fn fourteen_long_keys_fill_a_root_and_a_fifteenth_splits_it(rt: HostRuntime) -> Result<(), Fail> {
    let mut desk = with_root(rt.alloc())?;
    for number in 0..14 {
        assert!(rt; puts(&mut desk, number)? == Came::Put, "{number}");
    }
    let left = room(&desk);
    let (full, put) = (puts(&mut desk, 14)?, puts(&mut desk, 14)?);
    assert!(rt; left == 272 && full == Came::Split(ROOT) && put == Came::Put);
    assert!(rt; (0..15).all(|number| is_found(&desk, number)));
    Ok(())
}

#[test]
fn a_key_is_absent_or_there_and_a_root_needed_or_stale(rt: HostRuntime) -> Result<(), Fail> {
    let mut desk = with_root(rt.alloc())?;
    let (put, again) = (puts(&mut desk, 3)?, puts(&mut desk, 3)?);
    assert!(rt;
        put == Came::Put && again == Came::There && matches!(refusal(&desk, 4), Some(Absent))
    );
    desk.hold(1, (ROOT + 1, 2), &EMPTY)?;
    let none = Desk::new(rt.alloc());
    assert!(rt;
        matches!(refusal(&desk, 3), Some(Stale))
            && matches!(refusal(&none, 3), Some(BlinkError::Need(1, Mode::Shared)))
    );
    Ok(())
}
