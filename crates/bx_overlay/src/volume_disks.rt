//! What an audit reads off the disks of a volume before its blocks: labels, members, logs.

ghost use Rattle.std.specs.Prelude.{◌≡◌, ◌≤◌, ◌⊎◌, false, length, Some, IfOk, IfErr, OnOk};
ghost use Rattle.bx_disk.specs.Counts.{NoneRose};
ghost use Rattle.bx_disk.specs.Kept.{Counted};
ghost use Rattle.bx_layout.specs.Labels.{IsLabel};
ghost use Rattle.bx_volume.specs.Images.{IsFirstLabel};
ghost use Rattle.bx_overlay.specs.declared.error.AuditError.TheVariants.{DiskFault, NoLabel};
ghost use Rattle.bx_logs.specs.Members.{AreThere};
ghost use Rattle.bx_overlay.specs.Reading.{AreMembers, AreOverlay, IsRead, IsRefused};
ghost use Rattle.bx_overlay.specs.Refusals.{AreAccepted, HasNoLabel, IsBreak, RefusesLogs, RefusesMembers, UnlessFault};

use crate::error::AuditError;
use bx_base::{List, Points};
use bx_disk::Rack;
use bx_global::GlobalState;
use bx_layout::Label;
use bx_logs::homes::{first_absent, first_label, first_unlabelled};
use bx_logs::{Members, Newest, clash_in, newest_of_all, points_of, read_logs};
use bx_rows::{DeviceRow, SessionRow};
use std::alloc::Global;

/// What stands on the disks of a volume besides the homes of its blocks.
#[derive(Drop)]
pub struct VolumeDisks {
    /// The label of the least disk that has one of its own.
    pub first: Label,
    /// The members that reads go to.
    pub members: Members,
    /// The newest blocks of each log, slot by slot.
    pub newest: List<Newest>,
    /// The points of the records that were found open, slot by slot, the oldest first in each.
    pub doubt: Points,
}

/// The number that stands for a record that is none: the least that is no block's of any volume.
const NO_BLOCK: u64 = 65536;

/// Reads the labels and the logs of the volume that a rack has in a global state. The first cause met decides: no label, another count
/// of devices, a device without a source, a source without a label, a log that isn't there, two logs that clash.
pub fn read_disks<R: Rack>(
    alloc: Global,
    rack: &mut R,
    state: &GlobalState,
) -> Result<VolumeDisks, AuditError>
    ensures ok { R.tells rack.old → IfOk result (IsRead (R.state rack.old) state.now) }
    ensures there { IfOk result (λ read. AreThere (R.state rack.old).sizes read.members) }
    ensures err { R.tells rack.old → IfErr result (λ error. IsBreak error ⊎ IsRefused (R.state rack.old) state.now error) }
    ensures stays { R.state rack.new ≡ R.state rack.old }
    ensures rack { Counted R.Rack rack.old rack.new result DiskFault }
    ensures counts { UnlessFault result (NoneRose (R.faults rack.old) (R.faults rack.new) (R.faults_of rack.old) (R.faults_of rack.new)) }
{
    let first = find_first(rack)?;
    let members = find_members(rack, &first, state.devices.items())?;
    let (newest, doubt) = read_overlay(alloc, rack, &members, state.sessions.items())?;
    Ok(VolumeDisks {
        first,
        members,
        newest,
        doubt,
    })
}

/// The first label.
fn find_first<R: Rack>(rack: &mut R) -> Result<Label, AuditError>
    ensures ok { R.tells rack.old → IfOk result (IsFirstLabel (R.state rack.old).sizes (R.state rack.old).reads) }
    ensures is { IfOk result IsLabel }
    ensures err { R.tells rack.old → IfErr result (λ error. IsBreak error ⊎ ((error ≡ NoLabel 0) × HasNoLabel (R.state rack.old))) }
    ensures stays { R.state rack.new ≡ R.state rack.old }
    ensures rack { Counted R.Rack rack.old rack.new result DiskFault }
    ensures counts { UnlessFault result (NoneRose (R.faults rack.old) (R.faults rack.new) (R.faults_of rack.old) (R.faults_of rack.new)) }
{
    match first_label(rack)? {
        Some(label) => Ok(label),
        None => Err(AuditError::NoLabel(0)),
    }
}

/// The members that reads go to, once each source is there and has a label.
fn find_members<R: Rack>(
    rack: &mut R,
    first: &Label,
    rows: &[DeviceRow],
) -> Result<Members, AuditError>
    requires { IsLabel first.now }
    ensures ok { R.tells rack.old → OnOk result (AreAccepted (R.state rack.old) first.now rows.now) }
    ensures members { IfOk result (AreMembers first.now rows.now) }
    ensures there { IfOk result (AreThere (R.state rack.old).sizes) }
    ensures err { R.tells rack.old → IfErr result (λ error. IsBreak error ⊎ RefusesMembers (R.state rack.old) first.now rows.now error) }
    ensures stays { R.state rack.new ≡ R.state rack.old }
    ensures rack { Counted R.Rack rack.old rack.new result DiskFault }
    ensures counts { UnlessFault result (NoneRose (R.faults rack.old) (R.faults rack.new) (R.faults_of rack.old) (R.faults_of rack.new)) }
{
    if rows.len() != first.devices as usize {
        return Err(AuditError::NoMajority);
    }
    if let Some(device) = first_absent(rack, rows) {
        return Err(AuditError::NoSource(device));
    }
    if let Some(disk) = first_unlabelled(rack, first, rows)? {
        return Err(AuditError::NoLabel(disk));
    }
    Ok(members_of(first, rows))
}

/// The members that reads go to, of a volume with this label and these devices.
fn members_of(first: &Label, rows: &[DeviceRow]) -> Members
    requires label { IsLabel first.now }
    requires count { length rows.now ≤ 4 }
    ensures { AreMembers first.now rows.now result }
{
    let mut seconds = [false; 4];
    for device in 0..rows.len() {
        seconds[device] = rows[device].reads_second();
    }
    Members {
        devices: first.devices,
        areas: first.areas as u16,
        seconds,
    }
}

/// The newest blocks of the logs, and the points of their records.
fn read_overlay<R: Rack>(
    alloc: Global,
    rack: &mut R,
    members: &Members,
    sessions: &[SessionRow],
) -> Result<(List<Newest>, Points), AuditError>
    requires { AreThere (R.state rack.old).sizes members.now }
    ensures ok { R.tells rack.old → IfOk result (λ read. AreOverlay (R.state rack.old).reads members.now sessions.now read.0 read.1) }
    ensures err { R.tells rack.old → IfErr result (λ error. IsBreak error ⊎ RefusesLogs (R.state rack.old).reads members.now sessions.now error) }
    ensures stays { R.state rack.new ≡ R.state rack.old }
    ensures rack { Counted R.Rack rack.old rack.new result DiskFault }
    ensures counts { UnlessFault result (NoneRose (R.faults rack.old) (R.faults rack.new) (R.faults_of rack.old) (R.faults_of rack.new)) }
{
    let Some(logs) = read_logs(alloc, rack, members, sessions)? else {
        return Err(AuditError::Torn(NO_BLOCK, 0, 0));
    };
    let newest = newest_of_all(alloc, logs.items())?;
    if let Some((at, handle)) = clash_in(newest.items()) {
        return Err(AuditError::Torn(at, handle, handle));
    }
    let doubt = points_of(alloc, logs.items())?;
    Ok((newest, doubt))
}
