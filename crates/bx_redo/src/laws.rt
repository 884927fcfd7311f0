//! Laws of what disks hold of a log: at every moment of its writes, and after each. They are said of what is settled on disks.

ghost use Rattle.std.specs.Prelude.{◌≡◌, ◌≢◌, ℕ, ◌+◌, ◌/◌, ◌<◌, Bool, List, [], ◌∷◌, length};
ghost use Rattle.bx_base.specs.declared.names.Point.{Point};
ghost use Rattle.bx_disk.specs.Disks.{Image, Disks, IsImage};
ghost use Rattle.bx_facts.specs.Writes.{IsSettled};
ghost use Rattle.bx_global.specs.declared.state.GlobalState.{GlobalState};
ghost use Rattle.bx_layout.specs.Labels.{gate_text};
ghost use Rattle.bx_layout.specs.declared.gate.Gate.TheVariants.{Open, Closed as Shut};
ghost use Rattle.bx_rows.specs.declared.session.SessionRow.{SessionRow};
ghost use Rattle.bx_volume.specs.bx_views.specs.Truths.{Truth, with_draft};
ghost use Rattle.bx_volume.specs.Images.{AreSources, devices_of};
ghost use Rattle.bx_volume.specs.Overlay.{Logs, Matters, with_log};
ghost use Rattle.bx_volume.specs.Records.{Logged, IsLogged, logged_text};
ghost use Rattle.bx_redo.specs.declared.work.Work.{Work};
ghost use Rattle.bx_redo.specs.declared.work.Work.TheVariants.{Idle, Body, Opens, Closes, Shuts};
ghost use Rattle.bx_redo.specs.Steps.{shut_text, with_work, writes};
ghost use Rattle.bx_redo.specs.View.{LogView};
ghost use Rattle.bx_redo.specs.Stands.{LogStands, bytes_of, run_of, sectors_of, AreHome, IsAcknowledged, IsAlone, IsOut, Shows, WritesHomes, doing, resting};

/// What a log asks for is one run, of the sectors that these laws call written.
pub fn what_is_asked_for_is_written()
    ensures run { (log : LogView) (work : Work) → work ≢ Idle → (writes log work).1 ≡ run_of log work ∷ [] }
    ensures sectors { (work : Work) → length (bytes_of work) / 512 ≡ sectors_of work }
{}

/// Each image that a crash may leave, read off any source member of each device, has the truth by the whole run of a log's
/// records: the acknowledged ones. While a gate is opened, it has that or the truth with the record in doubt; and while gate 0
/// is closed, the same truth, by the whole run or by none.
pub fn what_images_have()
    ensures { (disks : Disks) (state : GlobalState) (image : Image) (second : ℕ → ℕ → Bool) (devices areas : ℕ) (before : Image) (logs : Logs) (truth : Truth) (more : Logged) (log : LogView)
        → IsImage disks image → AreSources state second
        → LogStands (IsSettled disks state) devices areas state.sessions before logs truth more log
        → Shows devices areas state.sessions logs truth more (devices_of image second) log.slot log.work }
{}

/// A body that is acknowledged stands in its place, and its gate may be opened. The truth is the same.
pub fn a_body_is_acknowledged()
    ensures { (disks disks_then : Disks) (state state_then : GlobalState) (devices areas : ℕ) (rows : List SessionRow) (before now : Image) (logs : Logs) (truth : Truth) (more : Logged) (log : LogView) (point : Point) (text : List ℕ)
        → LogStands (IsSettled disks state) devices areas rows before logs truth more (doing log (Body text point))
        → IsAcknowledged (IsSettled disks state) (IsSettled disks_then state_then) before now (doing log (Body text point)) text
        → LogStands (IsSettled disks_then state_then) devices areas rows now logs truth more (doing log (Opens point)) }
{}

/// With its gate the record under way is the log's newest, and the truth is overlaid by its blocks.
pub fn a_gate_is_acknowledged()
    ensures { (disks disks_then : Disks) (state state_then : GlobalState) (devices areas : ℕ) (rows : List SessionRow) (before now : Image) (logs : Logs) (truth : Truth) (more next : Logged) (log : LogView) (point : Point)
        → LogStands (IsSettled disks state) devices areas rows before logs truth more (doing log (Opens point))
        → IsAcknowledged (IsSettled disks state) (IsSettled disks_then state_then) before now (doing log (Opens point)) (gate_text Open)
        → LogStands (IsSettled disks_then state_then) devices areas rows now (with_log logs log.slot (more ∷ logs log.slot)) (with_draft truth more.changed) next
        (resting (record log { count = log.count + 1 })) }
{}

/// Once gate 0 is closed, the log has no records, and the truth is the same.
pub fn gate_0_is_closed()
    ensures { (disks disks_then : Disks) (state state_then : GlobalState) (devices areas : ℕ) (rows : List SessionRow) (before now : Image) (logs : Logs) (truth : Truth) (more next : Logged) (log : LogView)
        → LogStands (IsSettled disks state) devices areas rows before logs truth more (doing log Closes)
        → IsAcknowledged (IsSettled disks state) (IsSettled disks_then state_then) before now (doing log Closes) (gate_text Shut)
        → LogStands (IsSettled disks_then state_then) devices areas rows now (with_log logs log.slot []) truth next (doing (record log { count = 0 }) Shuts) }
{}

/// Once the other gates are closed too, all eight are, and surely: a first gate may be opened anew.
pub fn a_log_is_closed()
    ensures { (disks disks_then : Disks) (state state_then : GlobalState) (devices areas : ℕ) (rows : List SessionRow) (before now : Image) (logs : Logs) (truth : Truth) (more next : Logged) (log : LogView)
        → LogStands (IsSettled disks state) devices areas rows before logs truth more (doing log Shuts)
        → IsAcknowledged (IsSettled disks state) (IsSettled disks_then state_then) before now (doing log Shuts) shut_text
        → LogStands (IsSettled disks_then state_then) devices areas rows now logs truth next (resting log) }
{}

/// A write that is asked for, or is under way, in part or whole, moves nothing, as long as what is settled elsewhere stays.
pub fn what_is_out_moves_nothing()
    ensures { (disks disks_then : Disks) (state state_then : GlobalState) (devices areas : ℕ) (rows : List SessionRow) (before : Image) (logs : Logs) (truth : Truth) (more : Logged) (log : LogView) (out : Bool)
        → LogStands (IsSettled disks state) devices areas rows before logs truth more log
        → IsOut (IsSettled disks state) (IsSettled disks_then state_then) log
        → LogStands (IsSettled disks_then state_then) devices areas rows before logs truth more (record log { out = out }) }
{}

/// A write of homes whose blocks logs have, in part or whole, moves nothing either.
pub fn homes_are_written()
    ensures { (disks disks_then : Disks) (state state_then : GlobalState) (devices areas : ℕ) (rows : List SessionRow) (before now : Image) (logs : Logs) (truth : Truth) (more : Logged) (log : LogView)
        → LogStands (IsSettled disks state) devices areas rows before logs truth more (resting log)
        → WritesHomes (IsSettled disks state) (IsSettled disks_then state_then) devices areas before now logs
        → LogStands (IsSettled disks_then state_then) devices areas rows now logs truth more (resting log) }
{}

/// A record may be begun that no other log has a block of.
pub fn a_record_is_begun()
    ensures { (disks : Disks) (state : GlobalState) (devices areas : ℕ) (rows : List SessionRow) (before : Image) (logs : Logs) (truth : Truth) (more next : Logged) (log : LogView) (point : Point)
        → LogStands (IsSettled disks state) devices areas rows before logs truth more (resting log)
        → log.count < 8 → IsLogged areas next → IsAlone logs log.slot next
        → LogStands (IsSettled disks state) devices areas rows before logs truth next (with_work log (Body (logged_text next) point)) }
{}

/// A closing may be begun once each block of the log is home, and settled there.
pub fn a_closing_is_begun()
    ensures { (disks : Disks) (state : GlobalState) (devices areas : ℕ) (rows : List SessionRow) (before : Image) (logs : Logs) (truth : Truth) (more : Logged) (log : LogView)
        → LogStands (IsSettled disks state) devices areas rows before logs truth more (resting log)
        → 0 < log.count → AreHome before devices areas logs log.slot
        → ((d s : ℕ) → Matters devices areas (with_log logs log.slot []) d s → IsSettled disks state d s (before d s))
        → LogStands (IsSettled disks state) devices areas rows before logs truth more (with_work log Closes) }
{}

/// The whole life of a record: from a log that rests to its `Acked`, and from there, once its blocks are home and all else is sure, to `Closed`. Then the log rests
/// again, and the truth is overlaid by the record's blocks.
pub fn a_record_lives()
    ensures acked { (disks disks_then disks_now : Disks) (state : GlobalState) (devices areas : ℕ) (rows : List SessionRow) (before there now : Image) (logs : Logs) (truth : Truth) (more next : Logged) (log : LogView) (point : Point)
        → LogStands (IsSettled disks state) devices areas rows before logs truth more (resting log)
        → log.count < 8 → IsLogged areas next → IsAlone logs log.slot next
        → IsAcknowledged (IsSettled disks state) (IsSettled disks_then state) before there (doing log (Body (logged_text next) point)) (logged_text next)
        → IsAcknowledged (IsSettled disks_then state) (IsSettled disks_now state) there now (doing log (Opens point)) (gate_text Open)
        → LogStands (IsSettled disks_now state) devices areas rows now (with_log logs log.slot (next ∷ logs log.slot)) (with_draft truth next.changed) more
        (resting (record log { count = log.count + 1 })) }
    ensures closed { (disks disks_then disks_now disks_last : Disks) (state : GlobalState) (devices areas : ℕ) (rows : List SessionRow) (before there now last : Image) (logs : Logs) (truth : Truth) (more : Logged) (log : LogView)
        → LogStands (IsSettled disks state) devices areas rows before logs truth more (resting log) → 0 < log.count
        → WritesHomes (IsSettled disks state) (IsSettled disks_then state) devices areas before there logs → AreHome there devices areas logs log.slot
        → ((d s : ℕ) → Matters devices areas (with_log logs log.slot []) d s → IsSettled disks_then state d s (there d s))
        → IsAcknowledged (IsSettled disks_then state) (IsSettled disks_now state) there now (doing log Closes) (gate_text Shut)
        → IsAcknowledged (IsSettled disks_now state) (IsSettled disks_last state) now last (doing (record log { count = 0 }) Shuts) shut_text
        → LogStands (IsSettled disks_last state) devices areas rows last (with_log logs log.slot []) truth more (resting (record log { count = 0 })) }
{}
