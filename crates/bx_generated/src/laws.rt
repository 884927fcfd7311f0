//! Laws of generated schedules.

ghost use Rattle.std.specs.Prelude.{ℕ, ◌<◌, ◌≤◌, ◌^◌};
ghost use Rattle.bx_script.specs.Schedule.{BeginsSchedule};
ghost use Rattle.bx_generated.specs.Schedules.{generated};

/// Every line of a generated schedule is in the grammar, and in its place: the heading is the first, and no other.
pub fn in_grammar()
    ensures { (seed nodes calls : ℕ) → seed < 2 ^ 64 → 1 ≤ nodes → nodes ≤ 4 → calls ≤ 20000 → BeginsSchedule (generated seed nodes calls) }
{}
