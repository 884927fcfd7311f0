//! The recovery of a stopped node's disks.

ghost use Rattle.std.specs.Prelude.{◌≡◌, ◌⊎◌, ℕ, ◌<◌, List, [], length, Option, IfOk, OnOk, OnErr, IsErrOf};
ghost use Rattle.bx_base.specs.Faults.{Rose};
ghost use Rattle.bx_disk.specs.Counts.{NoneFalls, NoneRose};
ghost use Rattle.bx_disk.specs.declared.fault.RackError.TheVariants.{Fault, OutOfMemory as NoMemory};
ghost use Rattle.bx_plain_repair.specs.Bench.{AreLong};
ghost use Rattle.bx_plain_repair.specs.Left.{OpenDoubt, IsClosed, IsLeft};
ghost use Rattle.bx_plain_repair.specs.HomesOf.{HasNone};
ghost use Rattle.bx_plain_repair.specs.Kept.{KeepsCounts};
ghost use Rattle.bx_plain_repair.specs.Recovering.{Recovers};
ghost use Rattle.bx_plain_repair.specs.Resting.{RestsOrActed, IsOpenLog, Rests, StandsAs, shuts_log};
ghost use Rattle.bx_plain_repair.specs.Spared.{SparesOthers};
ghost use Rattle.bx_model.specs.declared.tree.Tree.{Tree};
ghost use Rattle.bx_volume.specs.Records.{Logged, newest_in};

use crate::closing::{close_first, close_others};
use crate::gates::settle_gates;
use crate::homes::write_homes;
use crate::reading::{OpenLog, read_open, untold};
use crate::recovery::Recovery;
use bx_base::CallNo;
use bx_disk::{Rack, RackError};
use std::alloc::Global;

/// Brings the log of slot 0 to rest, whatever its node left there when it stopped. `floor` is the greatest number of a call that was told: a record that
/// is open of one above acted, and its point is told, before anything is written home. Else the blocks of open records are written home, and the log is
/// closed. After an error the disks still hold what they did, and it may be tried again. A fault that no disk had is of disks that no node left so. Whatever
/// comes, the other log slots and the disks of replicas are left alone.
pub fn recover<R: Rack>(alloc: Global, rack: &mut R, floor: CallNo) -> Result<Recovery, RackError>
    requires long { AreLong (R.state rack.old).sizes }
    ensures recovers { (volume : ℕ) (tree : Tree) (doubt : Option OpenDoubt) → R.tells rack.old → IsLeft volume floor tree doubt (R.state rack.old)
        → IfOk result (Recovers volume floor tree doubt (R.state rack.new)) }
    ensures left { (volume : ℕ) (tree : Tree) (doubt : Option OpenDoubt) → R.tells rack.old → IsLeft volume floor tree doubt (R.state rack.old)
        → OnErr result (IsLeft volume floor tree doubt (R.state rack.new)) }
    ensures spares { R.tells rack.old → SparesOthers (R.state rack.old) (R.state rack.new) }
    ensures cause { IsErrOf result Fault → Rose (R.faults rack.old) (R.faults rack.new) ⊎ ((volume : ℕ) (tree : Tree) (doubt : Option OpenDoubt) → R.tells rack.old → IsLeft volume floor tree doubt (R.state rack.old) → ⊥) }
    ensures memory { IsErrOf result NoMemory → NoneRose (R.faults rack.old) (R.faults rack.new) (R.faults_of rack.old) (R.faults_of rack.new) }
    ensures no_fault { OnOk result (NoneRose (R.faults rack.old) (R.faults rack.new) (R.faults_of rack.old) (R.faults_of rack.new)) }
    ensures later { NoneFalls (R.faults rack.old) (R.faults rack.new) (R.faults_of rack.old) (R.faults_of rack.new) }
    ensures sizes { (R.state rack.new).sizes ≡ (R.state rack.old).sizes }
    ensures keeps_telling { R.tells rack.old → R.tells rack.new }
{
    settle_gates(alloc, rack)?;
    go_on(alloc, rack, floor)
}

/// What comes once the gates are settled.
fn go_on<R: Rack>(alloc: Global, rack: &mut R, floor: CallNo) -> Result<Recovery, RackError>
    requires long { AreLong (R.state rack.old).sizes }
    ensures recovers { (volume : ℕ) (tree : Tree) (doubt : Option OpenDoubt) (records : List Logged) → R.tells rack.old → RestsOrActed volume floor tree doubt records (R.state rack.old)
        → IfOk result (Recovers volume floor tree doubt (R.state rack.new)) }
    ensures left { (volume : ℕ) (tree : Tree) (doubt : Option OpenDoubt) (records : List Logged) → R.tells rack.old → RestsOrActed volume floor tree doubt records (R.state rack.old)
        → IsLeft volume floor tree doubt (R.state rack.old) → OnErr result (IsLeft volume floor tree doubt (R.state rack.new)) }
    ensures spares { R.tells rack.old → SparesOthers (R.state rack.old) (R.state rack.new) }
    ensures cause { IsErrOf result Fault → Rose (R.faults rack.old) (R.faults rack.new)
        ⊎ ((volume : ℕ) (tree : Tree) (doubt : Option OpenDoubt) (records : List Logged) → R.tells rack.old → RestsOrActed volume floor tree doubt records (R.state rack.old) → ⊥) }
    ensures rack { KeepsCounts R.Rack rack.old rack.new result }
{
    let Some(log) = read_open(alloc, rack)? else {
        return Err(RackError::Fault);
    };
    answer(alloc, rack, floor, &log)
}

/// Tells the point of an open record whose call wasn't told, or closes the log.
fn answer<R: Rack>(
    alloc: Global,
    rack: &mut R,
    floor: CallNo,
    log: &OpenLog,
) -> Result<Recovery, RackError>
    requires long { AreLong (R.state rack.old).sizes }
    ensures recovers { (volume : ℕ) (tree : Tree) (doubt : Option OpenDoubt) (records : List Logged) → R.tells rack.old → RestsOrActed volume floor tree doubt records (R.state rack.old) → IsOpenLog records log.now
        → IfOk result (Recovers volume floor tree doubt (R.state rack.new)) }
    ensures left { (volume : ℕ) (tree : Tree) (doubt : Option OpenDoubt) (records : List Logged) → R.tells rack.old → RestsOrActed volume floor tree doubt records (R.state rack.old) → IsOpenLog records log.now
        → OnErr result (IsLeft volume floor tree doubt (R.state rack.new)) }
    ensures spares { R.tells rack.old → SparesOthers (R.state rack.old) (R.state rack.new) }
    ensures cause { IsErrOf result Fault → Rose (R.faults rack.old) (R.faults rack.new) ⊎ ((records : List Logged) → IsOpenLog records log.now → HasNone (newest_in records)) }
    ensures rack { KeepsCounts R.Rack rack.old rack.new result }
{
    if let Some(point) = untold(log.points.items(), floor) {
        return Ok(Recovery::Found(point));
    }
    close_all(alloc, rack, log)?;
    Ok(Recovery::Closed)
}

/// Writes the blocks of the open records home, and closes the log.
fn close_all<R: Rack>(alloc: Global, rack: &mut R, log: &OpenLog) -> Result<(), RackError>
    requires long { AreLong (R.state rack.old).sizes }
    ensures closes { (volume floor : ℕ) (tree : Tree) (records : List Logged) → R.tells rack.old → Rests volume floor tree records (R.state rack.old) → IsOpenLog records log.now
        → OnOk result (IsClosed volume tree (R.state rack.new)) }
    ensures left { (volume floor : ℕ) (tree : Tree) (doubt : Option OpenDoubt) (records : List Logged) → R.tells rack.old → Rests volume floor tree records (R.state rack.old) → IsOpenLog records log.now
        → OnErr result (IsLeft volume floor tree doubt (R.state rack.new)) }
    ensures spares { R.tells rack.old → SparesOthers (R.state rack.old) (R.state rack.new) }
    ensures cause { IsErrOf result Fault → Rose (R.faults rack.old) (R.faults rack.new) ⊎ ((records : List Logged) → IsOpenLog records log.now → HasNone (newest_in records)) }
    ensures rack { KeepsCounts R.Rack rack.old rack.new result }
{
    if log.points.len() == 0 {
        close_others(alloc, rack)?;
        return Ok(());
    }
    close_open(alloc, rack, log)?;
    close_others(alloc, rack)?;
    Ok(())
}

/// Writes the blocks of open records home, of which there is one at least, and closes gate 0.
fn close_open<R: Rack>(alloc: Global, rack: &mut R, log: &OpenLog) -> Result<(), RackError>
    requires long { AreLong (R.state rack.old).sizes }
    requires some { 0 < length log.now.points }
    ensures closes { (volume floor : ℕ) (tree : Tree) (records : List Logged) → R.tells rack.old → Rests volume floor tree records (R.state rack.old) → IsOpenLog records log.now
        → OnOk result (StandsAs volume floor tree [] shuts_log (R.state rack.new)) }
    ensures left { (volume floor : ℕ) (tree : Tree) (doubt : Option OpenDoubt) (records : List Logged) → R.tells rack.old → Rests volume floor tree records (R.state rack.old) → IsOpenLog records log.now
        → OnErr result (IsLeft volume floor tree doubt (R.state rack.new)) }
    ensures spares { R.tells rack.old → SparesOthers (R.state rack.old) (R.state rack.new) }
    ensures cause { IsErrOf result Fault → Rose (R.faults rack.old) (R.faults rack.new) ⊎ ((records : List Logged) → IsOpenLog records log.now → HasNone (newest_in records)) }
    ensures rack { KeepsCounts R.Rack rack.old rack.new result }
{
    let Some(newest) = log.newest.get(0) else {
        return Err(RackError::Fault);
    };
    write_homes(alloc, rack, newest)?;
    close_first(alloc, rack)?;
    Ok(())
}
