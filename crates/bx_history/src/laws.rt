//! What the definitions come to.

ghost use Rattle.std.specs.Prelude.{◌≡◌, ◌++◌, ℕ, List, map};
ghost use Rattle.bx_script.specs.declared.trace_line.TraceLine.{TraceLine};
ghost use Rattle.bx_history.specs.Trace.{Entry, FitsNewest};
ghost use Rattle.bx_history.specs.Legal.{LeadsNewest};
ghost use Rattle.bx_history.specs.Parts.{Part};
ghost use Rattle.bx_history.specs.Placed.{Rules, PlacedNewest};
ghost use Rattle.bx_history.specs.Laws.{FrontFits, asked, point_of, points};

/// Steps of trees by entries: any relation.
pub trait Steps {
    /// What an entry changes.
    type Tree;

    ghost step: { Self.Tree → Entry → Self.Tree → Type 0 };
}

/// The points of a trace are, in order, those of the entries of a history that it fits.
pub fn points_are_entries()
    ensures { (kept : ℕ) (trace : List TraceLine) (history : List Entry) → FitsNewest kept trace history → points trace ≡ map point_of history }
{}

/// The points of a trace spell one history, but for the replies, which the steps of a tree tell.
pub fn points_spell_history()
    ensures { (kept : ℕ) (trace : List TraceLine) (a b : List Entry) → FitsNewest kept trace a → FitsNewest kept trace b → map asked a ≡ map asked b }
{}

/// Where what was asked determines a step's reply and the next tree, a trace fits one legal history alone, and it leads to one tree.
pub fn one_history<S: Steps>()
    ensures { ((tree : S.Tree) (a b : Entry) (x y : S.Tree) → asked a ≡ asked b → S.step tree a x → S.step tree b y → (a ≡ b) × (x ≡ y))
        → (kept : ℕ) (first last other : S.Tree) (trace : List TraceLine) (a b : List Entry)
        → FitsNewest kept trace a → LeadsNewest S.step first a last → FitsNewest kept trace b → LeadsNewest S.step first b other
        → (a ≡ b) × (last ≡ other) }
{}

/// The older lines of a trace fit the earlier entries of its history.
pub fn front_fits()
    ensures { (kept : ℕ) (newer older : List TraceLine) (history : List Entry) → FitsNewest kept (newer ++ older) history → FrontFits kept older history }
{}

/// The earlier entries of a legal history are one.
pub fn front_leads<S: Steps>()
    ensures { (first last : S.Tree) (later earlier : List Entry) → LeadsNewest S.step first (later ++ earlier) last
        → (middle : S.Tree) × LeadsNewest S.step first earlier middle }
{}

/// What a stage promises: any rules.
pub trait Stage {
    ghost rules: { Rules };
}

/// The older parts of a run that is placed are placed.
pub fn front_placed<S: Stage>()
    ensures { (newer older : List Part) → PlacedNewest S.rules (newer ++ older) → PlacedNewest S.rules older }
{}
