//! Attempts of cleaning.

ghost use Rattle.std.specs.Prelude.{◌≡◌, ◌<◌, ◌≤◌, ℕ, IfOk};
ghost use Rattle.bx_clean.specs.Falling.{Falls};
ghost use Rattle.bx_clean.specs.Tidying.{IsClean, OnTidyPath};
ghost use Rattle.bx_model.specs.declared.tree.Tree.{Tree};
ghost use Rattle.bx_views.specs.declared.attempt.Attempt.TheVariants.{Answer};
ghost use Rattle.bx_views.specs.Attempts.{IfInner, IsFair, Tidies, all_clean};
ghost use Rattle.bx_views.specs.Truths.{IsTruth, Truth, with_draft};
ghost use Rattle.bx_steps.specs.Steps.{StandsWith};

use crate::replies::stopped;
use bx_base::{OutOfMemory, Raw};
use bx_clean::Tidied;
use bx_inodes::Stop;
use bx_views::{Attempt, Done, View};
use std::alloc::Global;

/// Attempts a step of cleaning an area, of a volume with so many areas, at most 64: `bx_clean::tidy`, as an attempt. Where the area is clean it
/// is an answer without bytes.
pub fn tidy<V: View>(alloc: Global, areas: u16, area: u16, view: &V) -> Result<Attempt, OutOfMemory>
    requires area { area < areas }
    requires few { areas ≤ 64 }
    ensures gives { (volume : ℕ) (truth : Truth) (tree : Tree) → IsTruth (V.held view.now) truth → StandsWith volume areas truth (V.hints view.now) tree
        → IfOk result (Tidies (StandsWith volume areas) (IsClean truth area) truth tree) }
    ensures gains { (volume : ℕ) (truth : Truth) (tree : Tree) → IsTruth (V.held view.now) truth → StandsWith volume areas truth (V.hints view.now) tree
        → IfOk result (IfInner (λ draft. Falls areas truth (with_draft truth draft))) }
    ensures fair { IfOk result (IsFair areas (V.held view.now) (OnTidyPath (V.held view.now) areas area)) }
{
    match bx_clean::tidy(alloc, view, area, areas) {
        Err(error) => Err(error),
        Ok(Tidied::Need(at, mode)) => stopped(alloc, 0, Stop::Need(at, mode)),
        Ok(Tidied::Inner(draft)) => Ok(Attempt::Inner(draft)),
        Ok(Tidied::Clean) => nothing_left(alloc),
    }
}

/// The answer that nothing is left to clean.
fn nothing_left(alloc: Global) -> Result<Attempt, OutOfMemory>
    ensures { IfOk result (λ attempt. attempt ≡ Answer all_clean) }
{
    let reply = Raw::of(alloc, &[])?;
    Ok(Attempt::Answer(Done {
        reply,
        spare: 8,
        made: 0,
    }))
}
