//! What the lines of a schedule come to, in parts of a run.

ghost use Rattle.std.specs.Prelude.{◌≡◌, ◌++◌, ◌∷◌, ◌⊎◌, [], ℕ, Bool, List, None, Option, false, length, map, reverse, true};
ghost use Rattle.std.specs.FinSet as set;
ghost use Rattle.bx_base.specs.Faults.{Rose};
ghost use Rattle.bx_base.specs.declared.names.Actor.{Actor};
ghost use Rattle.bx_cluster.specs.Steps.{part_at};
ghost use Rattle.bx_cluster.specs.declared.outcome.Outcome.{Outcome};
ghost use Rattle.bx_driver.specs.Lanes.{lane_cmp};
ghost use Rattle.bx_driver.specs.Runs.{IsDue};
ghost use Rattle.bx_driver.specs.Steps.{EventStep, parts_with};
ghost use Rattle.bx_history.specs.Parts.{Part};
ghost use Rattle.bx_script.specs.Schedule.{is_heading};
ghost use Rattle.bx_script.specs.declared.line.Line.{Line};
ghost use Rattle.bx_script.specs.declared.line.Line.TheVariants.{Deliver as DeliverLine, Hold, Run};
ghost use Rattle.bx_world_events.specs.Causes.{IsThere};
ghost use Rattle.bx_world_events.specs.Refusals.{Seen};
ghost use Rattle.bx_world_events.specs.declared.event.Event.TheVariants.{Crash, Deliver, Restart};
ghost use Rattle.bx_world_events.specs.declared.event.EventError.{EventError};
ghost use Rattle.bx_schedule.specs.Doing.{AllCrash, AllRestart, IsLine};
ghost use Rattle.bx_schedule.specs.Execution.{Executes, Snapshot};
ghost use Rattle.bx_schedule.specs.Places.{HasAsMany, has_stopped};
ghost use Rattle.bx_schedule.specs.Placing.{ArePartsOf, IsByLines, is_down_by, nodes_after};
ghost use Rattle.bx_schedule.specs.Refusing.{IsRefusal};

/// The parts of a line's steps are those of the line, and which machines are down goes on by the lines, unless a fault rose by which a machine may have stopped.
pub fn lines_are_placed()
    ensures parts { (first now : ℕ) (held : set.FinSet lane_cmp) (before : List Line) (line : Line) (from to : Seen) (steps : List EventStep) → IsLine held line from steps to → (has_stopped steps ≡ true → Rose first now) → from.nodes ≡ nodes_after before → IsByLines (Rose first now) before from
        → ArePartsOf (Rose first now) before line (parts_with steps []) }
    ensures down { (first now : ℕ) (held : set.FinSet lane_cmp) (before : List Line) (line : Line) (from to : Seen) (steps : List EventStep) → IsLine held line from steps to → (has_stopped steps ≡ true → Rose first now) → IsByLines (Rose first now) before from → IsByLines (Rose first now) (line ∷ before) to }
    ensures nodes { (held : set.FinSet lane_cmp) (before : List Line) (line : Line) (from to : Seen) (steps : List EventStep) → is_heading line ≡ false → IsLine held line from steps to → from.nodes ≡ nodes_after before → to.nodes ≡ nodes_after (line ∷ before) }
    ensures many { (held : set.FinSet lane_cmp) (line : Line) (from to : Seen) (steps : List EventStep) → IsLine held line from steps to → HasAsMany from to }
{}

/// A machine that is down by a line, over those that were down at least, is down behind it; and no other is, over those that were down at most, unless a fault rose by which it may have stopped.
pub fn down_by_lines()
    ensures least { (held : set.FinSet lane_cmp) (line : Line) (from to : Seen) (steps : List EventStep) (who : Actor) (was : Bool) → IsLine held line from steps to → IsThere from who → (was ≡ true → from.down who ≡ true) → is_down_by line who was ≡ true → to.down who ≡ true }
    ensures most { (first now : ℕ) (held : set.FinSet lane_cmp) (line : Line) (from to : Seen) (steps : List EventStep) (who : Actor) (was : Bool) → IsLine held line from steps to → IsThere from who → (has_stopped steps ≡ true → Rose first now)
        → (from.down who ≡ true → (was ≡ true) ⊎ Rose first now) → to.down who ≡ true → (is_down_by line who was ≡ true) ⊎ Rose first now }
{}

/// The parts of steps come in front of those that there were.
pub fn parts_stand_apart()
    ensures { (steps : List EventStep) (parts : List Part) → parts_with steps parts ≡ parts_with steps [] ++ parts }
{}

/// Where all machines crash, each that was up has its turn, in their order, if no fault stopped one meanwhile; where all start again, each that was down has it.
pub fn each_has_its_turn()
    ensures crash { (from to : Seen) (steps : List EventStep) (all : AllCrash from steps to) → has_stopped steps ≡ false → map (λ step. step.event) steps ≡ map Crash (reverse all.machines) }
    ensures restart { (reading : ℕ) (from to : Seen) (steps : List EventStep) (all : AllRestart reading from steps to) → map (λ step. step.event) steps ≡ map (Restart reading) (reverse all.machines) }
{}

/// What an execution holds a line to: a run has as many parts as its limit says, or behind it nothing is due; one that did nothing had the limit 0, or nothing was due; a delivery is one event,
/// that of its packet; and a lane that is to be held is.
pub fn lines_are_executed()
    ensures goes_on { (first now reading limit : ℕ) (parts : List Part) (from to : Snapshot) → Executes (Rose first now) (Run reading limit) parts from to → (length parts ≡ limit) ⊎ IsDue to.seen from.held reading None }
    ensures rests { (first now reading limit : ℕ) (from to : Snapshot) → Executes (Rose first now) (Run reading limit) [] from to → (limit ≡ 0) ⊎ IsDue from.seen from.held reading None }
    ensures delivers { (first now reading number : ℕ) (parts : List Part) (from to : Snapshot) → Executes (Rose first now) (DeliverLine reading number) parts from to → (outcome : Outcome) × (parts ≡ part_at (Deliver reading number) outcome ∷ []) }
    ensures holds { (first now kind : ℕ) (a b : Actor) (parts : List Part) (from to : Snapshot) → Executes (Rose first now) (Hold a b kind) parts from to → set.contains to.held (record { from = a; to = b; kind = kind }) ≡ true }
{}

/// A line has one cause for which it is refused, or none.
pub fn one_cause()
    ensures { (seen : Seen) (line : Line) (a b : Option EventError) → IsRefusal seen line a → IsRefusal seen line b → a ≡ b }
{}
