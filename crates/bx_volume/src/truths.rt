//! Laws of the truth of a rack.

ghost use Rattle.bx_disk.specs.Disks.{Image};
ghost use Rattle.bx_rows.specs.declared.session.SessionRow.{SessionRow};
ghost use Rattle.bx_layout.specs.Labels.{IsOpenGate};
ghost use Rattle.bx_places.specs.Places.{IsBlock};
ghost use Rattle.bx_volume.specs.Records.{Logged, HasLog, gate_of};
ghost use Rattle.bx_truth.specs.Truth.{AreSame};
ghost use Rattle.bx_truth.specs.bx_views.specs.Truths.{Truth};
ghost use Rattle.bx_volume.specs.Overlay.{Logs, IsOverlaidTruth, IsHome};
ghost use Rattle.std.specs.Prelude.{◌≡◌, ℕ, ◌<◌, List, []};

/// What the devices hold is one truth: the records of each log slot are determined, and with them the blocks.
pub fn one_truth()
    ensures log { (rows : List SessionRow) (held : Image) (devices areas slot : ℕ) (a b : List Logged)
        → HasLog rows held devices areas slot a → HasLog rows held devices areas slot b → a ≡ b }
    ensures truth { (held : Image) (devices areas : ℕ) (rows : List SessionRow) (logs : Logs) (a b : Truth)
        → IsOverlaidTruth held devices areas rows logs a → IsOverlaidTruth held devices areas rows logs b → AreSame areas a b }
{}

/// Where the first gate of each log is closed, the truth is what stands in the homes.
pub fn closed_logs_leave_the_homes()
    ensures { (held : Image) (devices areas : ℕ) (rows : List SessionRow) (truth : Truth) → ((at : ℕ) → IsBlock areas at → IsHome held devices at (truth at))
        → ((slot : ℕ) → slot < 8 → IsOpenGate (gate_of held devices slot 0) → ⊥) → IsOverlaidTruth held devices areas rows (λ slot. []) truth }
{}
