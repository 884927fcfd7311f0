//! Laws of cells.

ghost use Rattle.std.specs.Prelude.{◌≡◌, ◌↔◌, ℕ, ◌+◌, ◌<◌, ◌≤◌, List, Some, None};
ghost use Rattle.bx_disk.specs.Disks.{Image, Disks, IsImage};
ghost use Rattle.bx_calls.specs.Regions.{AreApart};
ghost use Rattle.bx_calls.specs.Calls.{KeepsSure};
ghost use Rattle.bx_layout.specs.Labels.{IsOpenGate};
ghost use Rattle.bx_cell.specs.Halves.{Found, length_in, half_at, cell_in};
ghost use Rattle.bx_cell.specs.Images.{HasAllSure, EachSure};
ghost use Rattle.bx_cell.specs.Cells.{Known, Holds};
ghost use Rattle.bx_cell.specs.Laws.{HasHalf, IsFound};

/// An image has at most one value of a cell, in one half and under one number.
pub fn one_value()
    ensures { (image : Image) (one other : Known) → one.disk ≡ other.disk → one.base ≡ other.base → Holds one image → Holds other image → one.found ≡ other.found }
{}

/// What a cell is found to have is in a half that has it, and the other half doesn't come before it. Nothing is found
/// exactly where neither half has something.
pub fn cells_are_halves()
    ensures some { (sectors : ℕ → List ℕ) (base : ℕ) (found : Found) → (cell_in sectors base ≡ Some found) ↔ IsFound sectors base found }
    ensures none { (sectors : ℕ → List ℕ) (base : ℕ) → (cell_in sectors base ≡ None) ↔ ((half_at sectors 0 base ≡ None) × (half_at sectors 1 (base + 10) ≡ None)) }
{}

/// What a half is found to have stands in its sectors behind an open gate. Nothing is found exactly where the gate is
/// closed or the length is above 4096.
pub fn halves_are_read()
    ensures some { (sectors : ℕ → List ℕ) (half start : ℕ) (found : Found) → (half_at sectors half start ≡ Some found) ↔ HasHalf sectors half start found }
    ensures none { (sectors : ℕ → List ℕ) (half start : ℕ) → (half_at sectors half start ≡ None) ↔ (IsOpenGate (sectors start) → 4096 < length_in (sectors (start + 1))) }
{}

/// A cell is a matter of its twenty sectors alone.
pub fn cells_are_their_sectors()
    ensures { (sectors other : ℕ → List ℕ) (base : ℕ) → ((s : ℕ) → base ≤ s → s < base + 20 → other s ≡ sectors s) → cell_in other base ≡ cell_in sectors base }
{}

/// Each image that a crash may leave has all that is sure.
pub fn images_have_what_is_sure()
    ensures { (disks : Disks) (image : Image) → IsImage disks image → HasAllSure disks image }
{}

/// What is written elsewhere leaves a cell's value in each image.
pub fn others_leave_cells()
    ensures { (old new : Disks) (cell : Known) (disk sector count : ℕ) → AreApart cell.disk cell.base 20 disk sector count → KeepsSure old new disk sector count
        → EachSure old (Holds cell) → EachSure new (Holds cell) }
{}
