//! The logs of all slots of a volume.

ghost use Rattle.std.specs.Prelude.{◌≡◌, ◌<◌, ◌++◌, map, IfOk, IfSome, IfNone, OnOk};
ghost use Rattle.bx_rows.specs.Words.{is_taken};
ghost use Rattle.bx_logs.specs.Members.{AreThere};
ghost use Rattle.bx_logs.specs.Bodies.{point_of};
ghost use Rattle.bx_logs.specs.Logs.{AreLogs, HaveNoLogs, IsLogWhere, HasNoLogWhere, points_in};
ghost use Rattle.bx_disk.specs.Kept.{Fails};

use crate::log::read_log;
use crate::members::Members;
use crate::record::Record;
use bx_base::{List, OutOfMemory, Points};
use bx_disk::{Rack, RackError};
use bx_rows::SessionRow;
use std::alloc::Global;

/// How many log slots a volume has.
const LOG_SLOTS: u32 = 8;

/// The records of the logs, slot by slot, the oldest first in each: those of the slots that have a row, live or dead, and none of the
/// others. `None` exactly where some slot with a row has no log.
pub fn read_logs<R: Rack>(
    alloc: Global,
    rack: &mut R,
    members: &Members,
    sessions: &[SessionRow],
) -> Result<Option<List<List<Record>>>, RackError>
    requires { AreThere (R.state rack.old).sizes members.now }
    ensures some { R.tells rack.old → IfOk result (λ found. IfSome found (AreLogs (R.state rack.old).reads members.now sessions.now)) }
    ensures none { R.tells rack.old → IfOk result (λ found. IfNone found (HaveNoLogs (R.state rack.old).reads members.now sessions.now)) }
    ensures stays { R.state rack.new ≡ R.state rack.old }
    ensures rack { Fails R.Rack rack.old rack.new result }
{
    let mut logs = List::new(alloc);
    for slot in 0..LOG_SLOTS {
        let taken = has_row(sessions, slot);
        let Some(records) = read_log_where(alloc, rack, members, slot, taken)? else {
            return Ok(None);
        };
        logs.push(records)?;
    }
    Ok(Some(logs))
}

/// Whether a slot has a row.
fn has_row(sessions: &[SessionRow], slot: u32) -> bool
    ensures { result ≡ is_taken sessions.now slot }
{
    sessions.iter().any(|row| row.slot == slot)
}

/// The records of the log in a slot, the oldest first; none where it has no row (`taken`).
fn read_log_where<R: Rack>(
    alloc: Global,
    rack: &mut R,
    members: &Members,
    slot: u32,
    taken: bool,
) -> Result<Option<List<Record>>, RackError>
    requires there { AreThere (R.state rack.old).sizes members.now }
    requires slot { slot < 8 }
    ensures some { R.tells rack.old → IfOk result (λ found. IfSome found (IsLogWhere taken (R.state rack.old).reads members.now slot)) }
    ensures none { R.tells rack.old → IfOk result (λ found. IfNone found (HasNoLogWhere taken (R.state rack.old).reads members.now slot)) }
    ensures stays { R.state rack.new ≡ R.state rack.old }
    ensures rack { Fails R.Rack rack.old rack.new result }
{
    if taken {
        read_log(alloc, rack, members, slot)
    } else {
        Ok(Some(List::new(alloc)))
    }
}

/// The points of records, slot by slot, the oldest first in each.
pub fn points_of(alloc: Global, logs: &[List<Record>]) -> Result<Points, OutOfMemory>
    ensures { IfOk result (λ points. points ≡ points_in logs.now) }
{
    let mut points = Points::new(alloc);
    for records in logs {
        push_points(&mut points, records.items())?;
    }
    Ok(points)
}

/// Puts the points of records behind others.
pub fn push_points(points: &mut Points, records: &[Record]) -> Result<(), OutOfMemory>
    ensures { OnOk result (points.new ≡ points.old ++ map point_of records.now) }
{
    for record in records {
        points.push(record.point())?;
    }
    Ok(())
}
