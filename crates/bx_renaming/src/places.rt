//! The directories between which RENAME moves a file.

ghost use Rattle.std.specs.Prelude.{◌≡◌, ◌⊎◌, [], Some, IfOk};
ghost use Rattle.bx_changes.specs.Procedures.{Exclusive, IsInodeOf, IsTruth, LiveAt, NeedsOn, NeverInner, OnInode, Stands, Tree, Truth, named as named_as, reads_with};
ghost use Rattle.bx_inodes.specs.Heads.{head_of as head_by};
ghost use Rattle.bx_model.specs.Moves.{move_places};
ghost use Rattle.bx_model.specs.Reading.{named_file};
ghost use Rattle.bx_renaming.specs.Path.{AreHeld, OnTarget};
ghost use Rattle.bx_renaming.specs.Places.{PlacesFor, place_error as error_of, places_from};

use bx_base::{Mode, OutOfMemory};
use bx_inodes::{Stop, head_of, inode_at};
use bx_linking::entries::Known;
use bx_model::{ACCES, Call, NOTDIR, STALE, Want, may};
use bx_places::named_handle;
use bx_records::Draft;
use bx_tree_files::{DIRECTORY, is_bad};
use bx_views::View;
use std::alloc::Global;

/// The directories between which a file moves.
#[derive(Drop)]
pub struct Places {
    /// The one that it leaves.
    pub source: Known,
    /// The one that it comes into.
    pub target: Known,
}

/// What a call asks to be moved, and where.
#[derive(Drop)]
pub struct Names<'a> {
    /// The file handle of the directory that the file leaves.
    pub from: &'a [u8],
    /// The name that it has there.
    pub name: &'a [u8],
    /// The file handle of the directory that it comes into.
    pub to: &'a [u8],
    /// The name that it gets there.
    pub new_name: &'a [u8],
}

/// A move of a file from one directory to another.
#[derive(Drop)]
pub(crate) struct Between<'a> {
    /// The two directories.
    pub(crate) places: &'a Places,
    /// The number of the entry that the file has in the first one.
    pub(crate) number: u32,
    /// The file.
    pub(crate) moved: &'a Known,
    /// The name that it has there.
    pub(crate) name: &'a [u8],
    /// The name that it gets in the second one.
    pub(crate) new_name: &'a [u8],
    /// The time, in seconds and microseconds.
    pub(crate) time: (u32, u32),
}

/// The directories that two file handles of a volume name, between which a caller may move a file from one name to another.
///
/// `Need` names the block of the first one's inode, exclusively, which isn't held so, or, where that is held, of the second one's. The status is `STALE`,
/// exactly where one of the file handles names no file, else `NOTDIR` where one is no directory, and `ACCES` of a bad name and where the caller may not
/// change one.
pub fn places_for<V: View>(
    alloc: Global,
    volume: u64,
    areas: u16,
    call: &Call,
    names: &Names<'_>,
    view: &V,
) -> Result<Places, Stop>
    ensures step { (truth : Truth) (tree : Tree) → IsTruth (V.held view.now) truth → Stands volume areas truth tree
        → PlacesFor areas truth tree (move_places tree call.now names.now.from.now names.now.name.now names.now.to.now names.now.new_name.now) result }
    ensures live { IfOk result (λ places. AreHeld (V.held view.now) (V.hints view.now) volume areas names.now.from.now names.now.to.now places.source.handle places.target.handle places.source.inode places.target.inode) }
    ensures need { NeedsOn areas (V.held view.now) (λ at mode. OnInode volume names.now.from.now Exclusive at mode ⊎ OnTarget (V.held view.now) (V.hints view.now) volume areas names.now.from.now names.now.to.now at mode) result }
    ensures inner { NeverInner result }
{
    let Some(handle) = named_handle(volume, names.from) else {
        return Err(Stop::Status(STALE));
    };
    let none = Draft::new(alloc);
    match inode_at(alloc, &none, view, areas, handle, Mode::Exclusive) {
        Err(stop) => Err(stop),
        Ok(inode) => {
            let source = Known { handle, inode };
            target_for(alloc, volume, areas, call, source, names, view)
        }
    }
}

/// The same from the first directory on.
fn target_for<V: View>(
    alloc: Global,
    volume: u64,
    areas: u16,
    call: &Call,
    source: Known,
    names: &Names<'_>,
    view: &V,
) -> Result<Places, Stop>
    ensures step { (truth : Truth) (tree : Tree) → IsTruth (V.held view.now) truth → Stands volume areas truth tree → (is : IsInodeOf areas truth tree source.handle source.inode)
        → PlacesFor areas truth tree (places_from call.now names.now.name.now names.now.new_name.now is.file (named_file tree names.now.to.now)) result }
    ensures same { IfOk result (λ places. places.source ≡ source) }
    ensures live { IfOk result (λ places. LiveAt (reads_with (V.held view.now) (V.hints view.now) []) areas places.target.handle Exclusive places.target.inode) }
    ensures named { IfOk result (λ places. named_as volume names.now.to.now ≡ Some places.target.handle) }
    ensures need { NeedsOn areas (V.held view.now) (OnInode volume names.now.to.now Exclusive) result }
    ensures inner { NeverInner result }
{
    let Some(handle) = named_handle(volume, names.to) else {
        return Err(Stop::Status(STALE));
    };
    let none = Draft::new(alloc);
    match inode_at(alloc, &none, view, areas, handle, Mode::Exclusive) {
        Err(stop) => Err(stop),
        Ok(inode) => {
            let target = Known { handle, inode };
            match place_error(alloc, call, names.name, names.new_name, &source, &target) {
                Err(_) => Err(Stop::OutOfMemory),
                Ok(Some(status)) => Err(Stop::Status(status)),
                Ok(None) => Ok(Places { source, target }),
            }
        }
    }
}

/// The error of two files and two names, between which a caller moves; `None` exactly where there is none.
fn place_error(
    alloc: Global,
    call: &Call,
    name: &[u8],
    new_name: &[u8],
    source: &Known,
    target: &Known,
) -> Result<Option<u32>, OutOfMemory>
    ensures { IfOk result (λ error. error ≡ error_of call.now name.now new_name.now (head_by source.now.handle source.now.inode) (head_by target.now.handle target.now.inode)) }
{
    if source.inode.kind != DIRECTORY || target.inode.kind != DIRECTORY {
        return Ok(Some(NOTDIR));
    }
    if is_bad(name) || is_bad(new_name) {
        return Ok(Some(ACCES));
    }
    let from = head_of(alloc, source.handle, &source.inode)?;
    let to = head_of(alloc, target.handle, &target.inode)?;
    if may(call, &from, Want::Change) && may(call, &to, Want::Change) {
        Ok(None)
    } else {
        Ok(Some(ACCES))
    }
}
