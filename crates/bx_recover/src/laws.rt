//! Laws of recoveries.

ghost use Rattle.std.specs.Prelude.{◌≡◌, ◌↔◌, ℕ, Bool, List, ◌∷◌, reverse, Option};
ghost use Rattle.std.specs.List.{AllByRecursion};
ghost use Rattle.bx_disk.specs.Disks.{Image};
ghost use Rattle.bx_records.specs.Drafts.{Changed};
ghost use Rattle.bx_records.specs.Runs.{KindAndRuns};
ghost use Rattle.bx_redo.specs.Homes.{AreItsHomes};
ghost use Rattle.bx_redo.specs.bx_volume.specs.Overlay.{Logs};
ghost use Rattle.bx_redo.specs.bx_volume.specs.Records.{IsLog, IsLogged, Logged};
ghost use Rattle.bx_recover.specs.Done.{AreHome, BringsHome, HasDone, HasRun, StepsLead, RecoveryStep};
ghost use Rattle.bx_recover.specs.HomesOf.{AreNewestOf, home_runs};
ghost use Rattle.bx_recover.specs.Reading.{AreBodies, AreGates};
ghost use Rattle.bx_recover.specs.Recovering.{IsOut, RecoveryView, Steps, first_recovery};
ghost use Rattle.bx_recover.specs.declared.moves.Move.{Move};
ghost use Rattle.bx_recover.specs.declared.moves.Move.TheVariants.{Wait, Write};

/// A step is one: what a recovery is, and what comes, say what it is then and what it asks for or tells.
pub fn a_step_is_one()
    ensures { (old new other : RecoveryView) (arrived : Option (List ℕ)) (done : Bool) (move another : Move) → Steps old arrived done new move → Steps old arrived done other another → (new ≡ other) × (move ≡ another) }
{}

/// Whatever came, a recovery did all that is to be done before the stage that it is at.
pub fn what_a_recovery_did()
    ensures { (slot devices areas : ℕ) (steps : List RecoveryStep) (recovery : RecoveryView) → StepsLead (first_recovery slot devices areas) steps recovery → HasDone recovery steps recovery.stage }
{}

/// Homes are written only once the gates were written back as they were read, which is done, all bodies of the run were read, and its points told; and gates are closed only once that is done.
pub fn what_comes_before_a_write()
    ensures homes { (slot devices areas : ℕ) (steps : List RecoveryStep) (old new : RecoveryView) (step : RecoveryStep) (runs : KindAndRuns) → StepsLead (first_recovery slot devices areas) steps old
        → Steps old step.arrived step.done new step.said → step.said ≡ Write runs → runs.0 ≡ 16 → BringsHome old steps runs.1 }
    ensures closes { (slot devices areas : ℕ) (steps : List RecoveryStep) (old new : RecoveryView) (step : RecoveryStep) (runs : KindAndRuns) → StepsLead (first_recovery slot devices areas) steps old
        → Steps old step.arrived step.done new step.said → step.said ≡ Write runs → runs.0 ≡ 17 → AreHome new (step ∷ steps) }
{}

/// It waits exactly where a read of it is out and nothing came, or a write is and isn't done.
pub fn what_a_recovery_waits_for()
    ensures { (old new : RecoveryView) (arrived : Option (List ℕ)) (done : Bool) (move : Move) → Steps old arrived done new move → (move ≡ Wait) ↔ IsOut old.stage arrived done }
{}

/// Where the gates stand as they were written back, and bodies as they were read, the records that were read are those of the log that stands there.
pub fn what_was_read_is_the_log()
    ensures { (held : Image) (recovery : RecoveryView) (steps : List RecoveryStep) (records : List Logged) (is : HasRun recovery steps)
        → AreGates held recovery.devices recovery.slot is.settled.gates → AreBodies held recovery steps records → IsLog held recovery.devices recovery.areas recovery.slot records → recovery.records ≡ reverse records }
{}

/// What a recovery writes home are the homes of a log's blocks, where its records are the log's.
pub fn what_goes_home_is_the_logs()
    ensures { (devices areas slot : ℕ) (logs : Logs) (records : List Logged) (blocks : List Changed)
        → AreNewestOf records blocks → AllByRecursion (IsLogged areas) records → logs slot ≡ reverse records → AreItsHomes devices areas logs slot (home_runs devices blocks) }
{}
