//! The label of a member's disk.

ghost use Rattle.std.specs.Prelude.{◌<◌, ◌≤◌, length, slice_index, OnOk};
ghost use Rattle.bx_calls.specs.Calls.{HasSure, KeepsAll, KeepsSure, LeavesOnly};
ghost use Rattle.bx_calls.specs.Regions.{IsSynced};
ghost use Rattle.bx_disk.specs.Disks.{IsImage};
ghost use Rattle.bx_disk.specs.Kept.{Fails};
ghost use Rattle.bx_layout.specs.Labels.{IsLabel, SpellsLabel};

use bx_calls::{sync_disk, write_through};
use bx_disk::{Rack, RackError};
use bx_layout::Label;
use bx_members::has_bytes;

/// Makes a disk sure, with its own label: it is written only where the disk has another or none.
pub fn label_own<R: Rack>(rack: &mut R, disk: u32, label: &Label) -> Result<(), RackError>
    requires disk { disk < length (R.state rack.old).sizes }
    requires room { 1 ≤ slice_index (R.state rack.old).sizes disk }
    requires label { IsLabel label.now }
    ensures synced { R.tells rack.old → OnOk result (IsSynced (R.state rack.new) disk) }
    ensures label { R.tells rack.old → OnOk result (SpellsLabel label.now ((R.state rack.new).reads disk 0)) }
    ensures had_label { R.tells rack.old → SpellsLabel label.now ((R.state rack.old).reads disk 0) → KeepsAll (R.state rack.old) (R.state rack.new) disk }
    ensures keeps { R.tells rack.old → KeepsSure (R.state rack.old) (R.state rack.new) disk 0 1 }
    ensures any_moment { R.tells rack.old → LeavesOnly (R.moment rack.old) (R.moment rack.new) (R.left_since rack.old) (R.left_since rack.new) (HasSure (R.state rack.old) disk 0 1) }
    ensures had_moment { R.tells rack.old → SpellsLabel label.now ((R.state rack.old).reads disk 0) → LeavesOnly (R.moment rack.old) (R.moment rack.new) (R.left_since rack.old) (R.left_since rack.new) (IsImage (R.state rack.old)) }
    ensures rack { Fails R.Rack rack.old rack.new result }
{
    let mut text = [0; 512];
    label.write(&mut text);
    if has_bytes(rack, disk, 0, &text)? {
        sync_disk(rack, disk)?;
        return Ok(());
    }
    write_through(rack, disk, 0, &text)?;
    Ok(())
}
