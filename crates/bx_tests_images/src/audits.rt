//! Audits.

use bx_audit::{Listing, audit};
use bx_base::Points;
use bx_disk::Rack;
use bx_global::GlobalState;
use bx_overlay::AuditError;
use bx_tests_lines::Line;
use std::alloc::Global;

/// Tells the listing of the tree of a rack in a state, or why there is none.
pub(crate) fn tell<R: Rack>(alloc: Global, line: &mut Line, rack: &mut R, state: &GlobalState) {
    match audit(alloc, rack, state) {
        Ok(listing) => tell_listing(line, &listing),
        Err(error) => tell_error(line, error),
    }
}

fn tell_listing(line: &mut Line, listing: &Listing) {
    tell_points(line, &listing.doubt);
    line.text("\n");
    match str::from_utf8(listing.text.bytes()) {
        Ok(text) => line.text(text),
        Err(_) => line.text("no text"),
    }
}

/// Tells points: of each its call, its moment, its spare and its made.
pub(crate) fn tell_points(line: &mut Line, points: &Points) {
    line.text("read");
    for point in points.items() {
        line.text(" point");
        line.numbers(&[point.call, point.moment, point.spare, point.made]);
    }
}

/// Tells why a rack is refused.
pub(crate) fn tell_error(line: &mut Line, error: AuditError) {
    match error {
        AuditError::DiskFault => line.text("disk fault"),
        AuditError::NoLabel(disk) => {
            line.text("no label");
            line.number(u64::from(disk));
        }
        AuditError::NoMajority => line.text("no majority"),
        AuditError::NoSource(device) => {
            line.text("no source");
            line.number(u64::from(device));
        }
        AuditError::Torn(block, found, wanted) => {
            line.text("torn");
            line.numbers(&[block, found, wanted]);
        }
        AuditError::OutOfMemory => line.text("out of memory"),
    }
}
