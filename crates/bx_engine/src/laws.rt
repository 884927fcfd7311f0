//! Laws of the engine.

ghost use Rattle.std.specs.Prelude.{◌≡◌, ℕ};
ghost use Rattle.bx_model.specs.declared.entry.Entry.{Entry};
ghost use Rattle.bx_model.specs.declared.tree.Tree.{Tree};
ghost use Rattle.bx_views.specs.Attempts.{Deed};
ghost use Rattle.bx_steps.specs.Steps.{Enters, StepOfTree};

/// A step by a deed is a step of a history, under whatever number its call has there; and a deed leads from a tree to one tree at most.
pub fn steps_are_of_histories()
    ensures enters { (tree next : Tree) (deed : Deed) (number : ℕ) → StepOfTree tree deed next → (entry : Entry) × (entry.call ≡ number) × Enters tree deed entry next }
    ensures one { (tree a b : Tree) (deed : Deed) → StepOfTree tree deed a → StepOfTree tree deed b → a ≡ b }
{}
