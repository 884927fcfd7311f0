//! Laws of steps one after the other.

ghost use Rattle.std.specs.Prelude.{ℕ, ◌+◌, ◌<◌, ◌≤◌};
ghost use Rattle.bx_clean.specs.Falling.{FreesOne, StripsOne};
ghost use Rattle.bx_views.specs.Truths.{Truth};
ghost use Rattle.bx_clean.specs.Used.{CleansInSteps, used_slots};

/// Of steps that follow on each other no more free a slot than slots were in use: each of these leaves fewer in use, and one that leaves a
/// page with a single entry leaves no more.
pub fn frees_come_to_an_end()
    ensures frees { (areas : ℕ) (truth now : Truth) → areas ≤ 64 → FreesOne areas truth now → used_slots areas now < used_slots areas truth }
    ensures strips { (areas : ℕ) (truth now : Truth) → areas ≤ 64 → StripsOne areas truth now → used_slots areas now ≤ used_slots areas truth }
    ensures all { (areas steps : ℕ) (truth last : Truth) → areas ≤ 64 → CleansInSteps areas steps truth last → steps + used_slots areas last ≤ used_slots areas truth }
{}
