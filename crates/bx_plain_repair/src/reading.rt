//! What is read of the open records.

ghost use Rattle.std.specs.Prelude.{◌≡◌, ◌<◌, ◌≤◌, Contains, List, IfOk, IfSome, IfNone};
ghost use Rattle.bx_base.specs.declared.names.Point.{Point};
ghost use Rattle.bx_disk.specs.Disks.{Image};
ghost use Rattle.bx_disk.specs.Kept.{Fails};
ghost use Rattle.bx_facts.specs.Writes.{IsSettled};
ghost use Rattle.bx_global.specs.Opening.{opening_state};
ghost use Rattle.bx_plain_repair.specs.Bench.{AreLong};
ghost use Rattle.bx_plain_repair.specs.Resting.{IsReadOf, only};
ghost use Rattle.bx_redo.specs.Stands.{IsFound};
ghost use Rattle.bx_views.specs.Truths.{Truth};
ghost use Rattle.bx_volume.specs.Records.{Logged};

use bx_base::{CallNo, List, Point, Points};
use bx_disk::{Rack, RackError};
use bx_logs::{Members, Newest, newest_of_all, points_of, read_logs};
use bx_rows::SessionRow;
use std::alloc::Global;

/// What was read of the open records: the points of their calls, the oldest first, and the newest block of each number.
#[derive(Drop)]
pub(crate) struct OpenLog {
    /// The points.
    pub(crate) points: Points,
    /// The blocks.
    pub(crate) newest: List<Newest>,
}

/// The volume's devices, areas, and members that it is read off: the first of one device.
const MEMBERS: Members = Members {
    devices: 1,
    areas: 1,
    seconds: [false; 4],
};

/// The session of the one node.
const SESSION: SessionRow = SessionRow {
    number: 1,
    node: 0,
    boot: 0,
    slot: 0,
    until: 4000,
    dead: 0,
    by: 0,
};

/// Reads the open records of slot 0 off the first member. `None` only where the disks of a rack that tells hold no log there.
pub(crate) fn read_open<R: Rack>(alloc: Global, rack: &mut R) -> Result<Option<OpenLog>, RackError>
    requires long { AreLong (R.state rack.old).sizes }
    ensures reads { (records : List Logged) (before : Image) (truth : Truth) (more : Logged) → R.tells rack.old
        → IsFound (IsSettled (R.state rack.old) (opening_state 1 1)) 1 1 (opening_state 1 1).sessions before (only records) truth more 0 → IfOk result (IsReadOf records) }
    ensures stays { R.state rack.new ≡ R.state rack.old }
    ensures rack { Fails R.Rack rack.old rack.new result }
{
    let Some(logs) = read_logs(alloc, rack, &MEMBERS, &[SESSION])? else {
        return Ok(None);
    };
    if logs.len() == 0 {
        return Ok(None);
    }
    let own = &logs.items()[..1];
    let points = points_of(alloc, own)?;
    let newest = newest_of_all(alloc, own)?;
    Ok(Some(OpenLog { points, newest }))
}

/// The first of the points whose call's number is above the floor.
pub(crate) fn untold(points: &[Point], floor: CallNo) -> Option<Point>
    ensures some { IfSome result (λ point. Contains points.now point × (floor < point.call)) }
    ensures none { IfNone result ((point : Point) → Contains points.now point → point.call ≤ floor) }
{
    for point in points {
        if point.call > floor {
            return Some(*point);
        }
    }
    None
}
