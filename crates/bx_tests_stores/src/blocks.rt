//! Blocks that two nodes want, by the owners on one machine.

ghost use Rattle.std.specs.Prelude.{◌≡◌, IsSome, None};

use bx_base::{Mode, OutOfMemory};
use bx_facts::{Outbox, Owners};
use bx_plain::PlainOwners;
use std::alloc::Global;
use std::test::Fail;

/// Owners, who send nothing.
#[derive(Drop)]
struct Desk<O> {
    alloc: Global,
    owners: O,
}

impl<O: Owners> Desk<O> {
    /// Wants a block, where the node has a session and no request is out.
    fn want(&mut self, node: u32, block: u64, mode: Mode) -> Result<(), OutOfMemory> {
        let mut out = Outbox::new(self.alloc);
        if self.owners.session(node).is_some() && self.owners.wanted(node, block).is_none() {
            self.owners.want(node, block, mode, &mut out)?;
        }
        Ok(())
    }

    /// Gives a block up at an index, where it is held.
    fn give_up(&mut self, node: u32, block: u64, index: u64) -> Result<(), OutOfMemory> {
        let mut out = Outbox::new(self.alloc);
        if self.owners.holds(node, block).is_some() {
            self.owners.give_up(node, block, index, &mut out)?;
        }
        Ok(())
    }
}

#[test]
fn a_block_is_asked_back_and_handed_on(rt: HostRuntime) -> Result<(), Fail> {
    let mut desk = Desk {
        alloc: rt.alloc(),
        owners: PlainOwners::new(rt.alloc(), 2),
    };
    desk.want(0, 7, Mode::Exclusive)?;
    desk.want(1, 7, Mode::Shared)?;
    let asked = desk.owners.asked(0) == Some((7, 2))
        && desk.owners.wanted(1, 7) == Some(Mode::Shared);
    assert!(rt; asked && desk.owners.holds(1, 7).is_none());
    desk.give_up(0, 7, 5)?;
    let handed = desk.owners.holds(1, 7) == Some((Mode::Shared, 5))
        && desk.owners.asked(0).is_none();
    assert!(rt; handed && desk.owners.holds(0, 7).is_none() && desk.owners.lease(2).is_none());
    Ok(())
}
