//! Laws of searches.

ghost use Rattle.std.specs.Prelude.{◌≡◌, ℕ, List};
ghost use Rattle.bx_base.specs.declared.names.Mode.{Mode};
ghost use Rattle.bx_blink.specs.declared.runs.RunEnd.{RunEnd};
ghost use Rattle.bx_blink.specs.declared.steps.Spot.{Spot};
ghost use Rattle.bx_blink.specs.declared.steps.End.{End};
ghost use Rattle.bx_blink.specs.Hints.{HintsAgree, HintsFit};
ghost use Rattle.bx_blink.specs.Runs.{Runs};
ghost use Rattle.bx_blink.specs.Walks.{Reads, Ends};
ghost use Rattle.bx_truth.specs.PageTrees.{Chunks, PageTree};
ghost use Rattle.bx_truth.specs.bx_views.specs.Truths.{Truth, no_hints};

/// A search has one end, so each of its answers comes exactly where the search ends so.
pub fn a_search_has_one_end()
    ensures walk { (reads : Reads) (target : ℕ) (asked : Mode) (key : List ℕ) (pages : ℕ) (spot : Spot) (a b : End) → Ends reads target asked key pages spot a → Ends reads target asked key pages spot b → a ≡ b }
    ensures run { (reads : Reads) (key : List ℕ) (pages : ℕ) (spot : Spot) (a b : RunEnd) → Runs reads pages key spot a → Runs reads pages key spot b → a ≡ b }
{}

/// No hints agree with any tree that is a leaf alone, so what the calls rest on can be met.
pub fn no_hints_agree_with_a_leaf()
    ensures agree { (areas root : ℕ) (chunks : Chunks) (tree : PageTree) → tree.height ≡ 0 → HintsAgree areas no_hints chunks root tree }
    ensures fit { (areas root : ℕ) (truth : Truth) (tree : PageTree) → tree.height ≡ 0 → HintsFit areas no_hints truth root tree }
{}
