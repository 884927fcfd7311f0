//! The logs of a volume.

ghost use Rattle.std.specs.Prelude.{◌≡◌, ◌<◌, List, IfOk, IfSome, IfNone};
ghost use Rattle.bx_homes.specs.bx_volume.specs.Records.{Logged, IsInBody};
ghost use Rattle.bx_logs.specs.Members.{AreThere, held_by};
ghost use Rattle.bx_logs.specs.Logs.{IsLogOf, HasNoLog};
ghost use Rattle.bx_disk.specs.Kept.{Fails};

use crate::members::Members;
use crate::record::Record;
use bx_base::List;
use bx_disk::{Rack, RackError};
use bx_homes::open_gates;
use bx_places::body_place;
use std::alloc::Global;

/// The records of the log in a slot, the oldest first: those behind its run of open gates. `None` exactly where the bodies behind open
/// gates aren't all records of the volume.
pub(crate) fn read_log<R: Rack>(
    alloc: Global,
    rack: &mut R,
    members: &Members,
    slot: u32,
) -> Result<Option<List<Record>>, RackError>
    requires there { AreThere (R.state rack.old).sizes members.now }
    requires slot { slot < 8 }
    ensures some { R.tells rack.old → IfOk result (λ found. IfSome found (IsLogOf (R.state rack.old).reads members.now slot)) }
    ensures none { R.tells rack.old → IfOk result (λ found. IfNone found (HasNoLog (R.state rack.old).reads members.now slot)) }
    ensures stays { R.state rack.new ≡ R.state rack.old }
    ensures rack { Fails R.Rack rack.old rack.new result }
{
    let second = members.reads_second(slot % members.devices);
    let count = open_gates(rack, members.devices, second, slot)?;
    let mut records = List::new(alloc);
    for body in 0..count {
        let Some(record) = record_in(alloc, rack, members, slot, body)? else {
            return Ok(None);
        };
        records.push(record)?;
    }
    Ok(Some(records))
}

/// The record in a body of a slot; `None` exactly where none is there.
fn record_in<R: Rack>(
    alloc: Global,
    rack: &mut R,
    members: &Members,
    slot: u32,
    body: u32,
) -> Result<Option<Record>, RackError>
    requires there { AreThere (R.state rack.old).sizes members.now }
    requires slot { slot < 8 }
    requires body { body < 8 }
    ensures some { R.tells rack.old → IfOk result (λ found. IfSome found (IsInBody (held_by (R.state rack.old).reads members.now) members.now.devices members.now.areas slot body)) }
    ensures none { R.tells rack.old → IfOk result (λ found. IfNone found ((logged : Logged) → IsInBody (held_by (R.state rack.old).reads members.now) members.now.devices members.now.areas slot body logged → ⊥)) }
    ensures stays { R.state rack.new ≡ R.state rack.old }
    ensures rack { Fails R.Rack rack.old rack.new result }
{
    let (device, sector) = body_place(slot, body, members.devices);
    Record::read(alloc, rack, members.disk(device), sector, members.areas)
}
