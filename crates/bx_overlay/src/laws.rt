//! What the blocks that are read say of the truth of a volume.

ghost use Rattle.std.specs.Prelude.{Bool, List, ℕ, reverse};
ghost use Rattle.bx_disk.specs.Disks.{Disks, Image};
ghost use Rattle.bx_global.specs.declared.state.GlobalState.{GlobalState};
ghost use Rattle.bx_model.specs.declared.tree.Tree.{Tree};
ghost use Rattle.bx_rows.specs.declared.session.SessionRow.{SessionRow};
ghost use Rattle.bx_views.specs.Truths.{Truth};
ghost use Rattle.bx_volume.specs.Images.{AreReadFrom, ShowsTree, by_device};
ghost use Rattle.bx_volume.specs.Overlay.{Logs, IsOverlaidTruth};
ghost use Rattle.bx_volume.specs.Records.{Logged};
ghost use Rattle.bx_logs.specs.bx_homes.specs.Slots.{AreBlocks};
ghost use Rattle.bx_overlay.specs.declared.error.AuditError.{AuditError};
ghost use Rattle.bx_overlay.specs.declared.volume_disks.VolumeDisks.{VolumeDisks};
ghost use Rattle.bx_logs.specs.declared.members.Members.{Members};
ghost use Rattle.bx_logs.specs.Logs.{AreLogs, log_in};
ghost use Rattle.bx_logs.specs.Members.{held_by};
ghost use Rattle.bx_logs.specs.Newest.{AreAgreed, AreNewest, Newest};
ghost use Rattle.bx_overlay.specs.Over.{StandsOver};
ghost use Rattle.bx_overlay.specs.Reading.{HoldsTruth, IsRead, IsRefused};

use bx_volume::one_first_label;

/// The blocks that stand over the homes are the truth that the devices hold: a truth that has them is one by these logs, and each
/// truth of the devices has them. Where two logs clash, the devices hold no truth.
pub fn what_stands_is_the_truth()
    ensures truth { (image : Image) (members : Members) (rows : List SessionRow) (logs : List (List Logged)) (newest : List Newest) (truth : Truth)
        → AreLogs image members rows logs → AreNewest logs newest → AreAgreed newest 8 → AreBlocks members.areas (StandsOver (held_by image members) members.devices newest) truth
        → IsOverlaidTruth (held_by image members) members.devices members.areas rows (λ slot. reverse (log_in logs slot)) truth }
    ensures stands { (image : Image) (members : Members) (rows : List SessionRow) (logs : List (List Logged)) (newest : List Newest) (others : Logs) (truth : Truth)
        → AreLogs image members rows logs → AreNewest logs newest → IsOverlaidTruth (held_by image members) members.devices members.areas rows others truth
        → AreBlocks members.areas (StandsOver (held_by image members) members.devices newest) truth }
    ensures agreed { (image : Image) (members : Members) (rows : List SessionRow) (logs : List (List Logged)) (newest : List Newest) (others : Logs) (truth : Truth)
        → AreLogs image members rows logs → AreNewest logs newest → IsOverlaidTruth (held_by image members) members.devices members.areas rows others truth
        → AreAgreed newest 8 }
{}

/// What is read off disks is what a tree that they show has: the blocks are each truth's, read off whichever members reads go to, and a
/// truth with these blocks is one that the members hold.
pub fn what_is_read_is_shown()
    ensures blocks { (disks : Disks) (state : GlobalState) (read : VolumeDisks) (second : ℕ → Bool) (tree : Tree) → IsRead disks state read → AreReadFrom state second
        → (shows : ShowsTree disks.sizes disks.reads state (by_device second) tree) → AreBlocks read.members.areas (StandsOver (held_by disks.reads read.members) read.members.devices read.newest) shows.truth }
    ensures truth { (disks : Disks) (state : GlobalState) (read : VolumeDisks) (truth : Truth) → IsRead disks state read
        → AreBlocks read.members.areas (StandsOver (held_by disks.reads read.members) read.members.devices read.newest) truth
        → HoldsTruth disks.reads state read truth }
{
    one_first_label();
}

/// Disks that are refused show no tree, read off the members that reads go to.
pub fn refused_disks_show_no_tree()
    ensures { (disks : Disks) (state : GlobalState) (error : AuditError) (second : ℕ → Bool) (tree : Tree) → IsRefused disks state error → AreReadFrom state second
        → ShowsTree disks.sizes disks.reads state (by_device second) tree → ⊥ }
{
    one_first_label();
}
