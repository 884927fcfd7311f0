//! What the steps of a member are to the laws of mirrored devices.

ghost use Rattle.std.specs.Prelude.{◌≡◌, ℕ, ◌+◌, ◌<◌, ◌≤◌, true, false, Bool, List, [], ◌∷◌, None, Some, slice_get};
ghost use Rattle.bx_base.specs.declared.names.Actor.{Actor};
ghost use Rattle.bx_calls.specs.Calls.{KeepsSure};
ghost use Rattle.bx_calls.specs.Regions.{IsSynced};
ghost use Rattle.bx_disk.specs.Disks.{Disks};
ghost use Rattle.bx_global.specs.declared.change.Change.{Change};
ghost use Rattle.bx_global.specs.declared.state.GlobalState.{GlobalState};
ghost use Rattle.bx_members.specs.Members.{KeepsMembers};
ghost use Rattle.bx_post.specs.declared.packets.Letter.{Letter};
ghost use Rattle.bx_rows.specs.declared.device.DeviceRow.{DeviceRow};
ghost use Rattle.bx_rows.specs.Modes.{both};
ghost use Rattle.bx_mirror_laws.specs.Acting.{IsRow, boot_in};
ghost use Rattle.bx_mirror_laws.specs.Steps.{IsDown, KnowsBefore, Learns, PartlyTaken, PieceChanged, PieceTaken, Starts, Synced, Taken};
ghost use Rattle.bx_mirror_packets.specs.declared.message.CopyBody.{CopyBody};
ghost use Rattle.bx_mirror_packets.specs.declared.message.WriteBody.{WriteBody};
ghost use Rattle.bx_mirror_member.specs.Acting.{IsTaken};
ghost use Rattle.bx_mirror_member.specs.Standing.{MemberView, copy_from, device_in, disk_in, hearing, is_second, learned, started, stopped};
ghost use Rattle.bx_mirror_member.specs.Steps.{proposes};
ghost use Rattle.bx_mirror_server.specs.Serving.{OfSync, PutsCopy, PutsWrite, run_of};
ghost use Rattle.bx_mirror_server.specs.Sides.{IsOnce, IsStep, IsWhole, MayTakeWrite, letter_to, piece_from, side_of};
ghost use Rattle.bx_mirror_server.specs.Working.{alone};

/// A write that is taken may be, and is taken whole; or in part, where a fault cuts it short.
pub fn a_write_is_taken()
    ensures may { (m : MemberView) (reading greatest : ℕ) (w : WriteBody) (disks : Disks) → greatest ≤ reading + 500 → IsTaken m reading w → MayTakeWrite greatest m disks w }
    ensures taken { (m new : MemberView) (from : Actor) (w : WriteBody) (before after : List Letter) (old now : Disks) → IsOnce w.runs.1 (device_in m) → PutsWrite (Unit {0}) from w m new before after old now
        → Taken (device_in m) (letter_to m w) (side_of true m old) (side_of true new now) }
    ensures partly { (m : MemberView) (w : WriteBody) (old now : Disks) → KeepsMembers (alone w.runs.1) 0 old now → PartlyTaken (device_in m) (letter_to m w) (side_of true m old) (side_of true m now) }
{}

/// A piece of a copy is taken whole; or in part, where a fault cuts it short.
pub fn a_piece_is_taken()
    ensures taken { (m new : MemberView) (from : Actor) (by : Bool) (c : CopyBody) (old now : Disks) → c.device ≡ device_in m → PutsCopy (Unit {0}) from c m new old now
        → PieceTaken (is_second m) (piece_from by c) (side_of true m old) (side_of true new now) }
    ensures partly { (m : MemberView) (by : Bool) (c : CopyBody) (old now : Disks) → c.device ≡ device_in m → KeepsMembers (alone (run_of c ∷ [])) 0 old now → PieceChanged (is_second m) (piece_from by c) (side_of true m old) (side_of true m now) }
{}

/// A row of a later epoch is learned, a disk is synced, and a member stops and starts again.
pub fn a_row_is_learned()
    ensures learns { (m : MemberView) (known : GlobalState) (row : DeviceRow) (disks : Disks) → slice_get known.devices (device_in m) ≡ Some row → KnowsBefore m.row row.epoch → Learns row (side_of true m disks) (side_of true (learned known m) disks) }
    ensures syncs { (m new : MemberView) (before after : List Letter) (old now : Disks) → OfSync (Unit {0}) m new None before after old now → Synced (side_of true m old) (side_of true new now) }
    ensures starts { (m : MemberView) (boot reading : ℕ) (last : DeviceRow) (older : List DeviceRow) (old now : Disks) → m.boot ≤ boot → ((r : DeviceRow) → IsRow last older r → boot_in (is_second m) r < boot)
        → KeepsSure old now (disk_in m) 0 1 → IsSynced now (disk_in m) → Starts (is_second m) last older (side_of false (stopped m) old) (side_of true (hearing reading (started boot m)) now) }
    ensures stops { (m : MemberView) (disks : Disks) → IsDown (side_of false (stopped m) disks) }
{}

/// What is proposed at a tick, and behind the last piece of a copy, is a step of the mode.
pub fn a_proposal_is_a_step()
    ensures ticks { (m : MemberView) (row : DeviceRow) (reading : ℕ) (change : Change) → row.mode < 5 → proposes m row reading ≡ Some change → IsStep m row change }
    ensures copies { (m : MemberView) (row : DeviceRow) → row.mode ≡ copy_from (is_second m) → IsWhole m row both }
{}
