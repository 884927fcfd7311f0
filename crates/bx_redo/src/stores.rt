//! Laws of what a store says of the write that a log asks for.

ghost use Rattle.std.specs.Prelude.{◌≡◌, ◌≢◌, ℕ, ◌<◌, ◌⊎◌, Bool, true, List, [], ◌∷◌, Contains, length};
ghost use Rattle.bx_calls.specs.Regions.{ReadsAs};
ghost use Rattle.bx_disk.specs.Disks.{Image, Disks};
ghost use Rattle.bx_facts.specs.Writes.{Sent, HasSettled, IsDone, IsOnly, IsOver, IsSettled, IsSourceIn, WritesTo, member_disk};
ghost use Rattle.bx_global.specs.declared.state.GlobalState.{GlobalState};
ghost use Rattle.bx_redo.specs.declared.work.Work.TheVariants.{Idle};
ghost use Rattle.bx_places.specs.Places.{IsVolume, log_start};
ghost use Rattle.bx_records.specs.declared.runs.Run.{Run};
ghost use Rattle.bx_rows.specs.declared.session.SessionRow.{SessionRow};
ghost use Rattle.bx_volume.specs.bx_views.specs.Truths.{Truth};
ghost use Rattle.bx_volume.specs.Images.{AreSources, devices_of};
ghost use Rattle.bx_volume.specs.Overlay.{Logs, IsOfLogged, IsOverlaidTruth, Matters, with_log};
ghost use Rattle.bx_volume.specs.Records.{Logged};
ghost use Rattle.bx_redo.specs.Homes.{AreItsHomes, with_runs};
ghost use Rattle.bx_redo.specs.Found.{AreSettled, gates_run, with_gates};
ghost use Rattle.bx_redo.specs.Stands.{LogStands, AreHome, IsAcknowledged, IsFound, IsOut, Shows, WritesHomes, bytes_of, is_written, stored};
ghost use Rattle.bx_redo.specs.Steps.{writes};
ghost use Rattle.bx_redo.specs.View.{LogView};

/// A write of what a log asks for writes the sectors that its laws call written, and no others. While members take nothing else that isn't over,
/// what is settled elsewhere stays; and once it is done, it is acknowledged.
pub fn a_store_writes_it()
    ensures sectors { (log : LogView) (write : Sent) (d s : ℕ) (content : List ℕ) → log.work ≢ Idle → write.runs ≡ (writes log log.work).1
        → WritesTo write d s content → is_written log d s ≡ true }
    ensures out { (disks disks_then : Disks) (state state_then : GlobalState) (log : LogView) (sent : List Sent) (greatest : ℕ)
        → ((write : Sent) (d s : ℕ) (content : List ℕ) → Contains sent write → WritesTo write d s content → (is_written log d s ≡ true) ⊎ IsOver greatest write)
        → ((d s : ℕ) (content : List ℕ) → IsOnly sent greatest d s content → IsSettled disks state d s content → IsSettled disks_then state_then d s content)
        → IsOut (IsSettled disks state) (IsSettled disks_then state_then) log }
    ensures done { (disks disks_then : Disks) (state state_then : GlobalState) (log : LogView) (write : Sent) (before : Image) (index : ℕ) → log.work ≢ Idle → write.runs ≡ (writes log log.work).1
        → IsOut (IsSettled disks state) (IsSettled disks_then state_then) log
        → IsDone (λ d s content known. IsSettled disks_then state_then d s content) index write
        → IsAcknowledged (IsSettled disks state) (IsSettled disks_then state_then) before (stored before log) log (bytes_of log.work) }
{}

/// Nor does a recovery's write of the gates move anything, each as it was read off a source member: all that is settled stays, while members take
/// nothing else that isn't over. Once it is done, they are settled.
pub fn a_store_writes_gates_back()
    ensures out { (disks disks_then : Disks) (state state_then : GlobalState) (log : LogView) (second : Bool) (bytes : List ℕ) (sent : List Sent) (greatest : ℕ)
        → IsSourceIn state log.device second → length bytes ≡ 4096 → ReadsAs disks.reads (member_disk log.device second) (log_start log.slot) bytes
        → ((write : Sent) → Contains sent write → (write.runs ≡ gates_run log bytes ∷ []) ⊎ IsOver greatest write)
        → ((d s : ℕ) (content : List ℕ) → IsOnly sent greatest d s content → IsSettled disks state d s content → IsSettled disks_then state_then d s content)
        → (d s : ℕ) (content : List ℕ) → IsSettled disks state d s content → IsSettled disks_then state_then d s content }
    ensures done { (disks disks_then : Disks) (state state_then : GlobalState) (log : LogView) (bytes : List ℕ) (write : Sent) (before : Image) (index : ℕ)
        → length bytes ≡ 4096 → write.runs ≡ gates_run log bytes ∷ []
        → ((d s : ℕ) (content : List ℕ) → IsSettled disks state d s content → IsSettled disks_then state_then d s content)
        → IsDone (λ d s content known. IsSettled disks_then state_then d s content) index write
        → AreSettled (IsSettled disks state) (IsSettled disks_then state_then) before (with_gates before log bytes) log bytes }
{}

/// A write of the homes of a log's blocks, while members take nothing else that isn't over, is one of such homes, in part or whole and once it is done.
/// Then each block is home, and all on which the truth depends without the log is sure: the log may be closed.
pub fn a_store_writes_homes()
    ensures out { (disks disks_then : Disks) (state state_then : GlobalState) (devices areas : ℕ) (before : Image) (logs : Logs) (slot : ℕ) (runs : List Run) (sent : List Sent) (greatest : ℕ)
        → slot < 8 → AreItsHomes devices areas logs slot runs
        → ((write : Sent) → Contains sent write → (write.runs ≡ runs) ⊎ IsOver greatest write)
        → ((d s : ℕ) (content : List ℕ) → IsOnly sent greatest d s content → IsSettled disks state d s content → IsSettled disks_then state_then d s content)
        → WritesHomes (IsSettled disks state) (IsSettled disks_then state_then) devices areas before before logs
        × WritesHomes (IsSettled disks state) (IsSettled disks_then state_then) devices areas before (with_runs before runs) logs }
    ensures home { (devices areas : ℕ) (before : Image) (logs : Logs) (slot : ℕ) (runs : List Run) → IsVolume devices areas → slot < 8 → AreItsHomes devices areas logs slot runs
        → AreHome (with_runs before runs) devices areas logs slot }
    ensures sure { (disks disks_then : Disks) (state state_then : GlobalState) (devices areas : ℕ) (rows : List SessionRow) (before : Image) (logs : Logs) (truth : Truth) (more : Logged) (slot : ℕ) (runs : List Run)
        (sent : List Sent) (greatest : ℕ) (write : Sent) (index : ℕ)
        → slot < 8 → AreItsHomes devices areas logs slot runs
        → ((write : Sent) → Contains sent write → (write.runs ≡ runs) ⊎ IsOver greatest write)
        → ((d s : ℕ) (content : List ℕ) → IsOnly sent greatest d s content → IsSettled disks state d s content → IsSettled disks_then state_then d s content)
        → write.runs ≡ runs → IsFound (IsSettled disks state) devices areas rows before logs truth more slot
        → IsDone (λ d s content known. IsSettled disks_then state_then d s content) index write
        → (d s : ℕ) → Matters devices areas (with_log logs slot []) d s → IsSettled disks_then state_then d s (with_runs before runs d s) }
{}

/// At any moment of a store's calls each image, read off any source member of each device, shows what a log's images do, while members take only writes of what
/// the log asks for, of what is settled there anyhow, as a recovery's of the gates, or none that counts any more. And while they take only homes of blocks that
/// logs have, it has the truth.
pub fn what_images_have_at_any_moment()
    ensures log { (disks : Disks) (state : GlobalState) (image : Image) (second : ℕ → ℕ → Bool) (devices areas : ℕ) (before : Image) (logs : Logs) (truth : Truth) (more : Logged) (log : LogView) (sent : List Sent) (greatest : ℕ)
        → AreSources state second → HasSettled sent greatest (IsSettled disks state) disks state image
        → ((write : Sent) (d s : ℕ) (other : List ℕ) → Contains sent write → WritesTo write d s other
        → (is_written log d s ≡ true) ⊎ (((content : List ℕ) → IsSettled disks state d s content → other ≡ content) ⊎ IsOver greatest write))
        → LogStands (IsSettled disks state) devices areas state.sessions before logs truth more log
        → Shows devices areas state.sessions logs truth more (devices_of image second) log.slot log.work }
    ensures homes { (disks : Disks) (state : GlobalState) (image : Image) (second : ℕ → ℕ → Bool) (devices areas : ℕ) (before : Image) (logs : Logs) (truth : Truth) (more : Logged) (slot : ℕ) (sent : List Sent) (greatest : ℕ)
        → AreSources state second → HasSettled sent greatest (IsSettled disks state) disks state image
        → ((write : Sent) (d s : ℕ) (other : List ℕ) → Contains sent write → WritesTo write d s other → IsOfLogged devices areas logs d s ⊎ IsOver greatest write)
        → IsFound (IsSettled disks state) devices areas state.sessions before logs truth more slot
        → IsOverlaidTruth (devices_of image second) devices areas state.sessions logs truth }
{}
