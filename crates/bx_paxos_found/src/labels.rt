//! Which replicas are labelled.

ghost use Rattle.std.specs.Prelude.{◌≡◌, ℕ, ◌<◌, ◌≤◌, ◌↔◌, IfNone, IfOk, IfSome, IsTrue, slice_index};
ghost use Rattle.bx_disk.specs.Kept.{Faults, FaultsOn};
ghost use Rattle.bx_facts.specs.Labelled.{IsFirstLabel, IsReplicaLabelled, IsOwnLabel, IsWhole, label_on};
ghost use Rattle.bx_layout.specs.Labels.{SpellsLabel};
ghost use Rattle.bx_layout.specs.declared.label.Label.{Label};

use bx_calls::read_sectors;
use bx_disk::{DiskFault, Rack};
use bx_layout::Label;
use bx_places::REPLICA_SECTORS;

/// Whether the disk of a replica is there, with all of its sectors.
pub(crate) fn is_whole<R: Rack>(rack: &R, replica: u32) -> bool
    requires { replica < 3 }
    ensures { IsTrue result ↔ IsWhole (R.state rack.now).sizes replica }
{
    replica < rack.disks() && rack.sectors(replica) >= REPLICA_SECTORS
}

/// The label of a replica's disk, if that is whole and the label names this very disk.
fn own_label<R: Rack>(rack: &mut R, replica: u32) -> Result<Option<Label>, DiskFault>
    requires low { replica < 3 }
    ensures some { R.tells rack.old → IfOk result (λ found. IfSome found (IsOwnLabel (R.state rack.old).sizes (R.state rack.old).reads replica)) }
    ensures none { R.tells rack.old → IfOk result (λ found. IfNone found ((label : Label) → IsOwnLabel (R.state rack.old).sizes (R.state rack.old).reads replica label → ⊥)) }
    ensures stays { R.state rack.new ≡ R.state rack.old }
    ensures rack { FaultsOn R.Rack rack.old rack.new replica result }
{
    if !is_whole(rack, replica) {
        return Ok(None);
    }
    let mut sector = [0; 512];
    read_sectors(rack, replica, 0, &mut sector)?;
    let Some(label) = Label::read(&sector) else {
        return Ok(None);
    };
    if label.disk == replica {
        Ok(Some(label))
    } else {
        Ok(None)
    }
}

/// The label of the least replica that has one of its own. `None` exactly where none has.
fn first_label<R: Rack>(rack: &mut R) -> Result<Option<Label>, DiskFault>
    ensures some { R.tells rack.old → IfOk result (λ found. IfSome found (IsFirstLabel (R.state rack.old).sizes (R.state rack.old).reads)) }
    ensures none { R.tells rack.old → IfOk result (λ found. IfNone found ((n : ℕ) (label : Label) → IsOwnLabel (R.state rack.old).sizes (R.state rack.old).reads n label → ⊥)) }
    ensures stays { R.state rack.new ≡ R.state rack.old }
    ensures rack { Faults R.Rack rack.old rack.new result }
{
    for replica in 0..3 {
        if let Some(label) = own_label(rack, replica)? {
            return Ok(Some(label));
        }
    }
    Ok(None)
}

/// The first label, if its volume has so many devices. `None` exactly where no replica is labelled for as many.
pub(crate) fn volume_label<R: Rack>(rack: &mut R, devices: u32) -> Result<Option<Label>, DiskFault>
    ensures some { R.tells rack.old → IfOk result (λ found. IfSome found (λ first. IsFirstLabel (R.state rack.old).sizes (R.state rack.old).reads first × (first.devices ≡ devices))) }
    ensures none { R.tells rack.old → IfOk result (λ found. IfNone found ((n : ℕ) → IsReplicaLabelled devices (R.state rack.old).sizes (R.state rack.old).reads n → ⊥)) }
    ensures stays { R.state rack.new ≡ R.state rack.old }
    ensures rack { Faults R.Rack rack.old rack.new result }
{
    let Some(first) = first_label(rack)? else {
        return Ok(None);
    };
    if first.devices == devices {
        Ok(Some(first))
    } else {
        Ok(None)
    }
}

/// Whether a replica's disk has the label that it has on the volume that the first label is of.
pub(crate) fn is_of_volume<R: Rack>(
    rack: &mut R,
    first: &Label,
    replica: u32,
) -> Result<bool, DiskFault>
    requires room { 21 ≤ slice_index (R.state rack.old).sizes replica }
    ensures is { R.tells rack.old → IfOk result (λ answer. IsTrue answer ↔ SpellsLabel (label_on first.now replica) ((R.state rack.old).reads replica 0)) }
    ensures stays { R.state rack.new ≡ R.state rack.old }
    ensures rack { FaultsOn R.Rack rack.old rack.new replica result }
{
    let mut sector = [0; 512];
    read_sectors(rack, replica, 0, &mut sector)?;
    match Label::read(&sector) {
        Some(label) => Ok(is_on(&label, first, replica)),
        None => Ok(false),
    }
}

/// Whether a label is that of a disk on the volume that another label is of.
fn is_on(label: &Label, first: &Label, disk: u32) -> bool
    ensures { IsTrue result ↔ ((label.now.disk ≡ disk) × (label.now.volume ≡ first.now.volume) × (label.now.devices ≡ first.now.devices) × (label.now.areas ≡ first.now.areas)) }
{
    label.disk == disk
        && label.volume == first.volume
        && label.devices == first.devices
        && label.areas == first.areas
}
