//! Laws of logs: what writes to gates, bodies and homes make of the truth.

ghost use Rattle.bx_disk.specs.Disks.{Image, Disks, IsImage};
ghost use Rattle.bx_volume.specs.Images.{devices_of, member_disk};
ghost use Rattle.bx_rows.specs.Words.{is_taken};
ghost use Rattle.bx_rows.specs.declared.session.SessionRow.{SessionRow};
ghost use Rattle.bx_truth.specs.bx_records.specs.Drafts.{block_in};
ghost use Rattle.bx_layout.specs.Labels.{IsOpenGate};
ghost use Rattle.bx_places.specs.Places.{IsVolume, IsBlock, block_place, gate_place, body_place};
ghost use Rattle.bx_layout.specs.declared.block.Block.{Block};
ghost use Rattle.bx_volume.specs.Records.{Logged, IsInBody, gate_of, newest_in};
ghost use Rattle.bx_truth.specs.bx_views.specs.Truths.{Truth, with_draft};
ghost use Rattle.bx_volume.specs.Overlay.{Logs, IsOverlaidTruth, IsOfLogged, IsHome, WritesOnly, with_log};
ghost use Rattle.std.specs.Prelude.{◌≡◌, ◌≢◌, ◌⊎◌, ℕ, ◌+◌, ◌<◌, ◌≤◌, Bool, true, false, List, [], ◌∷◌, length, Some, None};

/// A home whose block a log has may hold anything.
pub fn logged_homes_do_not_matter()
    ensures { (held now : Image) (devices areas : ℕ) (rows : List SessionRow) (logs : Logs) (truth : Truth) (slot at : ℕ) (block : Block)
        → IsVolume devices areas → IsOverlaidTruth held devices areas rows logs truth → slot < 8 → newest_in (logs slot) at ≡ Some block → IsBlock areas at
        → WritesOnly held now (block_place at devices).0 (block_place at devices).1 9
        → IsOverlaidTruth now devices areas rows logs truth }
{}

/// So may several of them, of one write or of many: whatever they hold, the truth is the same, and while they are unsure and all else is
/// sure, each image that a crash may leave has that truth.
pub fn several_logged_homes_do_not_matter()
    ensures written { (held now : Image) (devices areas : ℕ) (rows : List SessionRow) (logs : Logs) (truth : Truth)
        → IsVolume devices areas → ((d s : ℕ) → (now d s ≡ held d s) ⊎ IsOfLogged devices areas logs d s)
        → IsOverlaidTruth held devices areas rows logs truth → IsOverlaidTruth now devices areas rows logs truth }
    ensures image { (disks : Disks) (image : Image) (second : ℕ → ℕ → Bool) (devices areas : ℕ) (rows : List SessionRow) (logs : Logs) (truth : Truth)
        → IsVolume devices areas → IsImage disks image
        → ((d s : ℕ) → (disks.unsure (member_disk d (second d s)) s ≡ false) ⊎ IsOfLogged devices areas logs d s)
        → IsOverlaidTruth (devices_of disks.reads second) devices areas rows logs truth → IsOverlaidTruth (devices_of image second) devices areas rows logs truth }
{}

/// What stands behind the end of the run may hold anything: a body from the first free one on, and a gate behind the first that is closed.
pub fn behind_the_run_nothing_matters()
    ensures bodies { (held now : Image) (devices areas : ℕ) (rows : List SessionRow) (logs : Logs) (truth : Truth) (slot body : ℕ)
        → IsOverlaidTruth held devices areas rows logs truth → slot < 8 → body < 8 → length (logs slot) ≤ body
        → WritesOnly held now (body_place slot body devices).0 (body_place slot body devices).1 145
        → IsOverlaidTruth now devices areas rows logs truth }
    ensures gates { (held now : Image) (devices areas : ℕ) (rows : List SessionRow) (logs : Logs) (truth : Truth) (slot gate : ℕ)
        → IsOverlaidTruth held devices areas rows logs truth → slot < 8 → gate < 8 → length (logs slot) < gate
        → WritesOnly held now (gate_place slot gate devices).0 (gate_place slot gate devices).1 1
        → IsOverlaidTruth now devices areas rows logs truth }
{}

/// The gate behind the run is written. Where it is closed still, nothing changed. Where it is open, with a record in its body and a closed
/// gate behind it, the truth is overlaid by the record's blocks, which no other log has.
pub fn a_gate_adds_its_record()
    ensures closed { (held now : Image) (devices areas : ℕ) (rows : List SessionRow) (logs : Logs) (truth : Truth) (slot : ℕ)
        → IsOverlaidTruth held devices areas rows logs truth → slot < 8 → is_taken rows slot ≡ true → length (logs slot) < 8
        → WritesOnly held now (gate_place slot (length (logs slot)) devices).0 (gate_place slot (length (logs slot)) devices).1 1
        → (IsOpenGate (gate_of now devices slot (length (logs slot))) → ⊥)
        → IsOverlaidTruth now devices areas rows logs truth }
    ensures opened { (held now : Image) (devices areas : ℕ) (rows : List SessionRow) (logs : Logs) (truth : Truth) (slot : ℕ) (more : Logged)
        → IsOverlaidTruth held devices areas rows logs truth → slot < 8 → is_taken rows slot ≡ true → length (logs slot) < 8
        → WritesOnly held now (gate_place slot (length (logs slot)) devices).0 (gate_place slot (length (logs slot)) devices).1 1
        → IsOpenGate (gate_of now devices slot (length (logs slot)))
        → IsInBody held devices areas slot (length (logs slot)) more
        → (length (logs slot) + 1 < 8 → IsOpenGate (gate_of held devices slot (length (logs slot) + 1)) → ⊥)
        → ((s at : ℕ) (block : Block) → s < 8 → s ≢ slot → block_in more.changed at ≡ Some block → newest_in (logs s) at ≡ None)
        → IsOverlaidTruth now devices areas rows (with_log logs slot (more ∷ logs slot)) (with_draft truth more.changed) }
{}

/// Once all blocks of a log are home, closing gate 0 leaves the truth.
pub fn closing_leaves_the_truth()
    ensures { (held now : Image) (devices areas : ℕ) (rows : List SessionRow) (logs : Logs) (truth : Truth) (slot : ℕ)
        → IsOverlaidTruth held devices areas rows logs truth → slot < 8 → is_taken rows slot ≡ true
        → WritesOnly held now (gate_place slot 0 devices).0 (gate_place slot 0 devices).1 1
        → (IsOpenGate (gate_of now devices slot 0) → ⊥)
        → ((at : ℕ) (block : Block) → IsBlock areas at → newest_in (logs slot) at ≡ Some block → IsHome held devices at block)
        → IsOverlaidTruth now devices areas rows (with_log logs slot []) truth }
{}
