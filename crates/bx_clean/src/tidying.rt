//! The cleaning of an area.

ghost use Rattle.std.specs.Prelude.{◌<◌, ◌≤◌, ℕ, IfOk};
ghost use Rattle.bx_changes.specs.Procedures.{HintsFitAll, IsTruth, Stands, Tree, Truth};
ghost use Rattle.bx_clean.specs.Tidying.{HoldsDraft, NeedsFor, Stops, TidiesAt, TidiesIn, WritesThree};

use crate::files::clean_file;
use bx_base::{Mode, OutOfMemory};
use bx_chunks::ChunkError;
use bx_marks::first_dead;
use bx_records::Draft;
use bx_views::View;
use std::alloc::Global;

/// What a step of cleaning an area comes to.
#[derive(Drop)]
pub enum Tidied {
    /// The block with this number is to be held in this mode, and isn't.
    Need(u64, Mode),
    /// These blocks are to be written. They leave the tree of files as it is.
    Inner(Draft),
    /// The area has no dead file.
    Clean,
}

/// Takes one step of cleaning an area: a dead file in it loses a piece, or a page of its tree, or its tree, or at last its inode. So
/// repeated steps come to `Clean`. A step reads at most four blocks beside the own blocks of areas, and writes at most three, so that no step
/// reads a whole file.
///
/// `Need` names a block that isn't held and is on the path: the area's own block, shared, or exclusively one of the dead file's, or the own block
/// of the area of a slot that is freed. `Inner` comes exactly where nothing is needed and the area has a dead file, `Clean` where it has none.
/// On content that no volume has `Clean` comes too.
pub fn tidy<V: View>(alloc: Global, view: &V, area: u16, areas: u16) -> Result<Tidied, OutOfMemory>
    requires area { area < areas }
    requires few { areas ≤ 64 }
    ensures at { TidiesAt (V.held view.now) areas area result }
    ensures gives { (volume : ℕ) (truth : Truth) (tree : Tree) → IsTruth (V.held view.now) truth → Stands volume areas truth tree → HintsFitAll areas (V.hints view.now) truth
        → IfOk result (TidiesIn areas truth area) }
    ensures needs { IfOk result (NeedsFor areas (V.held view.now) area) }
    ensures held { IfOk result (HoldsDraft (V.held view.now)) }
    ensures few { IfOk result WritesThree }
{
    tidy_held(alloc, view, area, areas)
}

/// The same, by what is held.
fn tidy_held<V: View>(alloc: Global, view: &V, area: u16, areas: u16) -> Result<Tidied, OutOfMemory>
    ensures { TidiesAt (V.held view.now) areas area result }
{
    match first_dead(alloc, view, area) {
        Err(error) => stopped(error),
        Ok(None) => Ok(Tidied::Clean),
        Ok(Some(handle)) => match clean_file(alloc, view, areas, handle) {
            Err(error) => stopped(error),
            Ok(draft) => Ok(Tidied::Inner(draft)),
        },
    }
}

/// How an error ends a step: what is no volume's content counts as clean.
fn stopped(error: ChunkError) -> Result<Tidied, OutOfMemory>
    ensures { Stops error result }
{
    match error {
        ChunkError::Need(at, mode) => Ok(Tidied::Need(at, mode)),
        ChunkError::OutOfMemory => Err(OutOfMemory),
        ChunkError::Stale => Ok(Tidied::Clean),
        ChunkError::Crowded => Ok(Tidied::Clean),
        ChunkError::Full(_) => Ok(Tidied::Clean),
    }
}
