//! Searches in directories.

ghost use Rattle.std.specs.Prelude.{ℕ, List, []};
ghost use Rattle.bx_base.specs.declared.names.Mode.TheVariants.{Shared};
ghost use Rattle.bx_tree_files.specs.declared.file.Name.{Name as Entry};
ghost use Rattle.bx_truth.specs.Keys.{name_key};
ghost use Rattle.bx_views.specs.Truths.{Truth};
ghost use Rattle.bx_leaves.specs.bx_blink.specs.Answers.{NeedsFairly};
ghost use Rattle.bx_leaves.specs.bx_blink.specs.Runs.{NextAt, OnRun, Runs};
ghost use Rattle.bx_leaves.specs.bx_blink.specs.Walks.{reads_with, Ends, start, most, OnPath};
ghost use Rattle.bx_dirs.specs.Entries.{HasEntries, key_behind as behind};
ghost use Rattle.bx_dirs.specs.Searches.{FollowsAt, FollowsIn, LooksUpAt, LooksUpIn};

use crate::keys::{entry_in, key_behind};
use bx_keys::{key_by_name, place_in};
use bx_leaves::blink::{BlinkError, find, next};
use bx_tree_files::Name;
use bx_views::View;
use std::alloc::Global;

/// The number and the handle of the entry with a name, in the directory whose tree is under a root, by the root's handle.
///
/// `Need` names a block that isn't held and is on the path of the search for the name's key. `Absent` comes exactly where no entry has the
/// name, and `Stale` where what is held is no directory's tree: where the view agrees with one it never comes.
pub fn lookup<V: View>(
    alloc: Global,
    view: &V,
    root: u64,
    name: &[u8],
) -> Result<(u32, u64), BlinkError>
    ensures ends { LooksUpAt (Ends (reads_with (V.held view.now) (V.hints view.now) []) 0 Shared (name_key name.now) most (start root Shared)) (name_key name.now) result }
    ensures list { (areas : ℕ) (truth : Truth) (names : List Entry) → HasEntries areas (V.held view.now) (V.hints view.now) truth [] root names → LooksUpIn names name.now result }
    ensures fair { NeedsFairly (V.held view.now) (OnPath (reads_with (V.held view.now) (V.hints view.now) []) 0 Shared (name_key name.now) most (start root Shared)) result }
{
    let key = key_by_name(alloc, name)?;
    match find(alloc, view, root, key.bytes()) {
        Err(error) => Err(error),
        Ok(value) => match place_in(value.bytes()) {
            None => Err(BlinkError::Stale),
            Some(found) => Ok(found),
        },
    }
}

/// The first entry whose number is above one, in the directory whose tree is under a root, by the root's handle; `None` exactly where no
/// entry has such a number.
///
/// `Need` and `Stale` come as they do of `lookup`.
pub fn after<V: View>(
    alloc: Global,
    view: &V,
    root: u64,
    number: u32,
) -> Result<Option<Name>, BlinkError>
    ensures ends { FollowsAt (NextAt (Runs (reads_with (V.held view.now) (V.hints view.now) []) most (behind number) (start root Shared))) result }
    ensures list { (areas : ℕ) (truth : Truth) (names : List Entry) → HasEntries areas (V.held view.now) (V.hints view.now) truth [] root names → FollowsIn names number result }
    ensures fair { NeedsFairly (V.held view.now) (OnRun (reads_with (V.held view.now) (V.hints view.now) []) most (behind number) (start root Shared)) result }
{
    let key = key_behind(alloc, number)?;
    match next(alloc, view, root, key.bytes()) {
        Err(error) => Err(error),
        Ok(None) => Ok(None),
        Ok(Some((key, value))) => match entry_in(alloc, key.bytes(), value.bytes())? {
            None => Err(BlinkError::Stale),
            Some(entry) => Ok(Some(entry)),
        },
    }
}
