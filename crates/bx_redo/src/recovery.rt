//! Laws of what is left of a log whose session stopped, and of how a log begins.

ghost use Rattle.std.specs.Prelude.{◌≡◌, ℕ, ◌+◌, ◌<◌, Bool, true, false, List, [], length};
ghost use Rattle.bx_calls.specs.Regions.{ReadsAs};
ghost use Rattle.bx_disk.specs.Disks.{Image, Disks};
ghost use Rattle.bx_facts.specs.Disks.{IsKept};
ghost use Rattle.bx_facts.specs.Writes.{IsSettled, IsSourceIn, member_disk};
ghost use Rattle.bx_global.specs.declared.state.GlobalState.{GlobalState};
ghost use Rattle.bx_layout.specs.declared.label.Label.{Label};
ghost use Rattle.bx_places.specs.Places.{log_device, log_start};
ghost use Rattle.bx_rows.specs.Words.{is_taken};
ghost use Rattle.bx_rows.specs.declared.session.SessionRow.{SessionRow};
ghost use Rattle.bx_volume.specs.bx_views.specs.Truths.{Truth};
ghost use Rattle.bx_volume.specs.AtRest.{IsAtRest};
ghost use Rattle.bx_volume.specs.Images.{devices_of};
ghost use Rattle.bx_volume.specs.Overlay.{Logs, Matters, with_log};
ghost use Rattle.bx_volume.specs.Records.{Logged};
ghost use Rattle.bx_redo.specs.Found.{AreGatesRead, AreSettled, Settles};
ghost use Rattle.bx_redo.specs.Stands.{LogStands, AreHome, IsFound, WritesHomes, resting};
ghost use Rattle.bx_redo.specs.Steps.{closed_log, found_log};
ghost use Rattle.bx_redo.specs.View.{LogView};

/// On a rack at rest, as one is that was just formatted, the log of a slot stands closed, if the gates read alike on both members.
pub fn a_log_begins()
    ensures { (disks : Disks) (state : GlobalState) (first : Label) (truth : Truth) (more : Logged) (slot : ℕ)
        → IsAtRest disks (λ image told. told ≡ state) first truth
        → ((other gate : ℕ) → other < 8 → gate < 8
        → disks.reads (member_disk (log_device other first.devices) true) (log_start other + gate) ≡ disks.reads (member_disk (log_device other first.devices) false) (log_start other + gate))
        → slot < 8 → is_taken state.sessions slot ≡ true
        → LogStands (IsSettled disks state) first.devices first.areas state.sessions (devices_of disks.reads (λ device sector. false)) (λ slot. []) truth more (closed_log slot (log_device slot first.devices)) }
{}

/// A crash of disks, or whatever else keeps what is sure, moves nothing: the log stands as it did when its session stopped.
pub fn what_keeps_sure_sectors_moves_nothing()
    ensures { (disks disks_then : Disks) (state : GlobalState) (devices areas : ℕ) (rows : List SessionRow) (before : Image) (logs : Logs) (truth : Truth) (more : Logged) (log : LogView)
        → ((d s : ℕ) → disks.unsure d s ≡ false → IsKept disks disks_then d s)
        → LogStands (IsSettled disks state) devices areas rows before logs truth more log
        → LogStands (IsSettled disks_then state) devices areas rows before logs truth more log }
{}

/// The gates that are read off a source member are those that stand there, but for one that was being written.
pub fn gates_are_read()
    ensures { (disks : Disks) (state : GlobalState) (devices areas : ℕ) (rows : List SessionRow) (before : Image) (logs : Logs) (truth : Truth) (more : Logged) (log : LogView) (second : Bool) (bytes : List ℕ)
        → LogStands (IsSettled disks state) devices areas rows before logs truth more log
        → IsSourceIn state log.device second → length bytes ≡ 4096 → ReadsAs disks.reads (member_disk log.device second) (log_start log.slot) bytes
        → AreGatesRead before log bytes }
{}

/// Once all eight gates are written back as they were read, and surely, the log is found with all of its records, and they stay. Where a
/// gate was being opened, it is found so, or with the record that was in doubt; where gate 0 was being closed, with the whole run or none.
pub fn gates_are_settled()
    ensures { (disks disks_then : Disks) (state state_then : GlobalState) (devices areas : ℕ) (rows : List SessionRow) (before now : Image) (logs : Logs) (truth : Truth) (more : Logged) (log : LogView) (bytes : List ℕ)
        → LogStands (IsSettled disks state) devices areas rows before logs truth more log
        → AreGatesRead before log bytes
        → AreSettled (IsSettled disks state) (IsSettled disks_then state_then) before now log bytes
        → Settles (IsSettled disks_then state_then) devices areas rows now logs truth more log.slot log.work }
{}

/// A log with nothing under way is as one that was found.
pub fn a_resting_log_is_found()
    ensures { (disks : Disks) (state : GlobalState) (devices areas : ℕ) (rows : List SessionRow) (before : Image) (logs : Logs) (truth : Truth) (more : Logged) (log : LogView)
        → LogStands (IsSettled disks state) devices areas rows before logs truth more (resting log)
        → IsFound (IsSettled disks state) devices areas rows before logs truth more log.slot }
{}

/// A write of homes whose blocks logs have, in part or whole, leaves a log found.
pub fn homes_of_a_found_log_are_written()
    ensures { (disks disks_then : Disks) (state state_then : GlobalState) (devices areas : ℕ) (rows : List SessionRow) (before now : Image) (logs : Logs) (truth : Truth) (more : Logged) (slot : ℕ)
        → IsFound (IsSettled disks state) devices areas rows before logs truth more slot
        → WritesHomes (IsSettled disks state) (IsSettled disks_then state_then) devices areas before now logs
        → IsFound (IsSettled disks_then state_then) devices areas rows now logs truth more slot }
{}

/// Once each of its blocks is home, and settled there, a log that was found may be closed.
pub fn a_found_log_is_closing()
    ensures { (disks : Disks) (state : GlobalState) (devices areas : ℕ) (rows : List SessionRow) (before : Image) (logs : Logs) (truth : Truth) (more : Logged) (slot : ℕ)
        → IsFound (IsSettled disks state) devices areas rows before logs truth more slot
        → AreHome before devices areas logs slot
        → ((d s : ℕ) → Matters devices areas (with_log logs slot []) d s → IsSettled disks state d s (before d s))
        → LogStands (IsSettled disks state) devices areas rows before logs truth more (found_log slot (log_device slot devices) (length (logs slot))) }
{}
