//! Laws of crashes: on what the truth depends, and what images have while a gate is written.

ghost use Rattle.bx_disk.specs.Disks.{Image, Disks, IsImage};
ghost use Rattle.bx_rows.specs.Words.{is_taken};
ghost use Rattle.bx_rows.specs.declared.session.SessionRow.{SessionRow};
ghost use Rattle.bx_truth.specs.bx_records.specs.Drafts.{block_in};
ghost use Rattle.bx_layout.specs.Labels.{IsOpenGate};
ghost use Rattle.bx_places.specs.Places.{IsBlock, gate_place};
ghost use Rattle.bx_layout.specs.declared.block.Block.{Block};
ghost use Rattle.bx_volume.specs.Images.{devices_of, member_disk};
ghost use Rattle.bx_volume.specs.Records.{Logged, IsInBody, gate_of, newest_in};
ghost use Rattle.bx_truth.specs.bx_views.specs.Truths.{Truth, with_draft};
ghost use Rattle.bx_volume.specs.Overlay.{Logs, IsSureAs, IsOverlaidTruth, Matters, MattersMore, IsHome, with_log};
ghost use Rattle.std.specs.Prelude.{◌≡◌, ◌≢◌, ◌⊎◌, ℕ, ◌+◌, ◌<◌, Bool, true, false, List, [], ◌∷◌, length, Some, None};

/// The truth depends on the sectors that matter alone; and where these are sure, each image that a crash may leave has the truth that is read.
pub fn what_matters()
    ensures same { (held now : Image) (devices areas : ℕ) (rows : List SessionRow) (logs : Logs) (truth : Truth)
        → ((d s : ℕ) → Matters devices areas logs d s → now d s ≡ held d s)
        → IsOverlaidTruth held devices areas rows logs truth → IsOverlaidTruth now devices areas rows logs truth }
    ensures image { (disks : Disks) (image : Image) (second : ℕ → ℕ → Bool) (devices areas : ℕ) (rows : List SessionRow) (logs : Logs) (truth : Truth)
        → IsImage disks image → ((d s : ℕ) → Matters devices areas logs d s → disks.unsure (member_disk d (second d s)) s ≡ false)
        → IsOverlaidTruth (devices_of disks.reads second) devices areas rows logs truth → IsOverlaidTruth (devices_of image second) devices areas rows logs truth }
{}

/// While the gate behind a run may be open or closed, and all else that matters stays, what the devices hold is the truth without the record
/// in its body, or with it. While gate 0 of a log whose blocks are home is closed, it is the same truth, by the whole run or by none of it.
pub fn a_record_in_doubt()
    ensures opening { (held now : Image) (devices areas : ℕ) (rows : List SessionRow) (logs : Logs) (truth : Truth) (slot : ℕ) (more : Logged)
        → slot < 8 → is_taken rows slot ≡ true → length (logs slot) < 8
        → IsInBody held devices areas slot (length (logs slot)) more
        → (length (logs slot) + 1 < 8 → IsOpenGate (gate_of held devices slot (length (logs slot) + 1)) → ⊥)
        → ((s at : ℕ) (block : Block) → s < 8 → s ≢ slot → block_in more.changed at ≡ Some block → newest_in (logs s) at ≡ None)
        → ((d s : ℕ) → Matters devices areas logs d s → (d ≢ (gate_place slot (length (logs slot)) devices).0) ⊎ (s ≢ (gate_place slot (length (logs slot)) devices).1) → now d s ≡ held d s)
        → ((d s : ℕ) → Matters devices areas (with_log logs slot (more ∷ logs slot)) d s → (d ≢ (gate_place slot (length (logs slot)) devices).0) ⊎ (s ≢ (gate_place slot (length (logs slot)) devices).1) → now d s ≡ held d s)
        → IsOverlaidTruth held devices areas rows logs truth
        → IsOverlaidTruth now devices areas rows logs truth ⊎ IsOverlaidTruth now devices areas rows (with_log logs slot (more ∷ logs slot)) (with_draft truth more.changed) }
    ensures closing { (held now : Image) (devices areas : ℕ) (rows : List SessionRow) (logs : Logs) (truth : Truth) (slot : ℕ)
        → slot < 8 → is_taken rows slot ≡ true → 0 < length (logs slot)
        → ((at : ℕ) (block : Block) → IsBlock areas at → newest_in (logs slot) at ≡ Some block → IsHome held devices at block)
        → ((d s : ℕ) → Matters devices areas logs d s → (d ≢ (gate_place slot 0 devices).0) ⊎ (s ≢ (gate_place slot 0 devices).1) → now d s ≡ held d s)
        → ((d s : ℕ) → Matters devices areas (with_log logs slot []) d s → (d ≢ (gate_place slot 0 devices).0) ⊎ (s ≢ (gate_place slot 0 devices).1) → now d s ≡ held d s)
        → IsOverlaidTruth held devices areas rows logs truth
        → IsOverlaidTruth now devices areas rows logs truth ⊎ IsOverlaidTruth now devices areas rows (with_log logs slot []) truth }
{}

/// While a gate's write is out, and all else that matters with its record or without it is sure and as it was, each image that a crash may leave
/// has the truth without the record, or with it; and while gate 0 of a log whose blocks are home is closed, the same truth, by its run or by none. What
/// the gate itself reads as doesn't matter.
pub fn a_gate_is_out()
    ensures opening { (held : Image) (disks : Disks) (image : Image) (second : ℕ → ℕ → Bool) (devices areas : ℕ) (rows : List SessionRow) (logs : Logs) (truth : Truth) (slot : ℕ) (more : Logged)
        → IsImage disks image → slot < 8 → is_taken rows slot ≡ true → length (logs slot) < 8
        → IsOverlaidTruth held devices areas rows logs truth
        → IsInBody held devices areas slot (length (logs slot)) more
        → (length (logs slot) + 1 < 8 → IsOpenGate (gate_of held devices slot (length (logs slot) + 1)) → ⊥)
        → ((s at : ℕ) (block : Block) → s < 8 → s ≢ slot → block_in more.changed at ≡ Some block → newest_in (logs s) at ≡ None)
        → ((d s : ℕ) → MattersMore devices areas logs slot more d s → (d ≢ (gate_place slot (length (logs slot)) devices).0) ⊎ (s ≢ (gate_place slot (length (logs slot)) devices).1)
        → IsSureAs disks (member_disk d (second d s)) s (held d s))
        → IsOverlaidTruth (devices_of image second) devices areas rows logs truth
        ⊎ IsOverlaidTruth (devices_of image second) devices areas rows (with_log logs slot (more ∷ logs slot)) (with_draft truth more.changed) }
    ensures closing { (held : Image) (disks : Disks) (image : Image) (second : ℕ → ℕ → Bool) (devices areas : ℕ) (rows : List SessionRow) (logs : Logs) (truth : Truth) (slot : ℕ)
        → IsImage disks image → slot < 8 → is_taken rows slot ≡ true → 0 < length (logs slot)
        → IsOverlaidTruth held devices areas rows logs truth
        → ((at : ℕ) (block : Block) → IsBlock areas at → newest_in (logs slot) at ≡ Some block → IsHome held devices at block)
        → ((d s : ℕ) → Matters devices areas logs d s ⊎ Matters devices areas (with_log logs slot []) d s → (d ≢ (gate_place slot 0 devices).0) ⊎ (s ≢ (gate_place slot 0 devices).1)
        → IsSureAs disks (member_disk d (second d s)) s (held d s))
        → IsOverlaidTruth (devices_of image second) devices areas rows logs truth ⊎ IsOverlaidTruth (devices_of image second) devices areas rows (with_log logs slot []) truth }
{}
