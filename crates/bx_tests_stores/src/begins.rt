//! A cluster on one machine, as it begins.

use bx_disk::Rack;
use bx_facts::{Owners, Store};
use bx_memory_rack::MemRack;
use bx_plain_parts::{PlainParts, Shape};
use std::test::Fail;

#[test]
fn two_nodes_begin_with_sessions_of_their_own(rt: HostRuntime) -> Result<(), Fail> {
    let mut rack = MemRack::new(rt.alloc(), &[], &[])?;
    let shape = Shape {
        nodes: 2,
        devices: 1,
        areas: 1,
    };
    let parts = PlainParts::begin(rt.alloc(), &mut rack, 7, shape)?;
    let own = parts.owners.session(0) == Some(1) && parts.owners.session(1) == Some(2);
    assert!(rt; own && parts.owners.session(2).is_none());
    assert!(rt; parts.store.done(0) && rack.disks() == 5);
    Ok(())
}
