//! LOOKUP.

ghost use Rattle.std.specs.Prelude.{◌≡◌, ◌<◌, ◌≤◌, ◌^◌, ℕ, List, [], IfOk, Some};
ghost use Rattle.bx_dirs.specs.Entries.{HasEntries};
ghost use Rattle.bx_reads.specs.bx_files.specs.Paths.{IsBlockOf, OnSearch};
ghost use Rattle.bx_places.specs.Handles.{file_text};
ghost use Rattle.bx_reads.specs.bx_inodes.specs.Fitting.{HintsFitAll};
ghost use Rattle.bx_reads.specs.bx_inodes.specs.Inodes.{shown_size};
ghost use Rattle.bx_reads.specs.bx_inodes.specs.Stands.{Stands};
ghost use Rattle.bx_reads.specs.bx_inodes.specs.Stops.{NeedsOn, NeverInner};
ghost use Rattle.bx_model.specs.declared.tree.Tree.{Tree};
ghost use Rattle.bx_model.specs.declared.reply.Reply.TheVariants.{Handle};
ghost use Rattle.bx_model.specs.Reading.{lookup as lookup_of};
ghost use Rattle.bx_reads.specs.Answers.{IsOutcome};
ghost use Rattle.bx_tree_files.specs.Attributes.{attributes_of};
ghost use Rattle.bx_tree_files.specs.declared.file.Body.TheVariants.{Names};
ghost use Rattle.bx_tree_files.specs.declared.file.File.{File};
ghost use Rattle.bx_tree_files.specs.declared.file.Name.{Name};
ghost use Rattle.bx_tree_files.specs.Files.{file_at, size_of};
ghost use Rattle.bx_truth.specs.Keys.{name_key};
ghost use Rattle.bx_truth.specs.Stored.{HasFields};
ghost use Rattle.bx_views.specs.Truths.{IsTruth, Truth};
ghost use Rattle.bx_directory_reads.specs.Lookups.{MayMean, MeansIn, OnLooking, telling};

use crate::opening::directory_error;
use bx_base::{Mode, OutOfMemory, Raw};
use bx_dirs::blink::BlinkError;
use bx_layout::Inode;
use bx_model::{Call, NOENT, Reply, STALE, Want};
use bx_places::file_handle;
use bx_reads::inodes::{Stop, inode_at};
use bx_reads::{attributes_by, named_inode, needed};
use bx_records::Draft;
use bx_views::View;
use std::alloc::Global;

/// LOOKUP (RFC 1094, section 2.2.5), of a volume with at most 64 areas: the file handle and the attributes of the file that a name
/// means in the directory that a file handle of the volume names.
///
/// `Need` names a block that isn't held, shared: that of the directory's inode, or, where that is held, one on the path of the search for
/// the name, or that of the inode of what the name means. The status is `STALE`, exactly where the file handle names no file, else
/// `NOTDIR` where that is no directory, `ACCES` where the caller may not search it, and `NOENT` where the name means no file.
pub fn lookup<V: View>(
    alloc: Global,
    volume: u64,
    areas: u16,
    call: &Call,
    at: &[u8],
    name: &[u8],
    view: &V,
) -> Result<Reply, Stop>
    requires { areas ≤ 64 }
    ensures step { (truth : Truth) (tree : Tree) → IsTruth (V.held view.now) truth → Stands volume areas truth tree → HintsFitAll areas (V.hints view.now) truth
        → IsOutcome tree (lookup_of tree call.now at.now name.now) result }
    ensures need { NeedsOn areas (V.held view.now) (OnLooking (V.held view.now) (V.hints view.now) volume areas at.now name.now) result }
    ensures inner { NeverInner result }
{
    match named_inode(alloc, volume, areas, at, view) {
        Err(stop) => Err(stop),
        Ok((handle, inode)) => {
            if let Some(status) = directory_error(alloc, call, handle, &inode, Want::Search)? {
                return Err(Stop::Status(status));
            }
            match meant(alloc, areas, handle, &inode, name, view) {
                Err(stop) => Err(stop),
                Ok(found) => told(alloc, volume, areas, found, view),
            }
        }
    }
}

/// The number of the handle that a name means in the directory with a handle, by its inode.
///
/// `Need` names a block of the volume that isn't held and is on the path of the search for the name, shared. The status is `NOENT`, exactly
/// where the name means no file, and `STALE` where what is held is no directory.
fn meant<V: View>(
    alloc: Global,
    areas: u16,
    handle: u64,
    inode: &Inode,
    name: &[u8],
    view: &V,
) -> Result<u64, Stop>
    ensures means { (truth : Truth) (tree : Tree) (file : File) (parent next : ℕ) (names : List Name) → HasEntries areas (V.held view.now) (V.hints view.now) truth [] inode.now.tree names
        → file_at tree.files handle ≡ Some file → file.body ≡ Names parent next names → inode.now.parent ≡ parent → MeansIn tree file name.now result }
    ensures may { IfOk result (MayMean (V.held view.now) (V.hints view.now) handle inode.now name.now) }
    ensures need { NeedsOn areas (V.held view.now) (OnSearch (V.held view.now) (V.hints view.now) inode.now.tree (name_key name.now)) result }
    ensures inner { NeverInner result }
{
    if name == b".".as_slice() {
        return Ok(handle);
    }
    if name == b"..".as_slice() {
        return Ok(inode.parent);
    }
    match bx_dirs::lookup(alloc, view, inode.tree, name) {
        Ok((_, found)) => Ok(found),
        Err(BlinkError::Absent) => Err(Stop::Status(NOENT)),
        Err(BlinkError::Need(at, _)) => Err(needed(areas, at)),
        Err(BlinkError::Stale) => Err(Stop::Status(STALE)),
        Err(BlinkError::OutOfMemory) => Err(Stop::OutOfMemory),
        // a search changes nothing
        Err(
            BlinkError::Full(_) | BlinkError::NoRoom(_) | BlinkError::Present | BlinkError::Crowded,
        ) => unreachable!(),
    }
}

/// The file handle and the attributes of the file with a handle.
///
/// `Need` names the block of its inode, shared, which isn't held then. The status is `NOENT`, exactly where there is no such file.
fn told<V: View>(
    alloc: Global,
    volume: u64,
    areas: u16,
    handle: u64,
    view: &V,
) -> Result<Reply, Stop>
    ensures step { (truth : Truth) (tree : Tree) → IsTruth (V.held view.now) truth → Stands volume areas truth tree → IsOutcome tree (telling tree (file_at tree.files handle)) result }
    ensures need { NeedsOn areas (V.held view.now) (IsBlockOf handle) result }
    ensures inner { NeverInner result }
{
    let none = Draft::new(alloc);
    match inode_at(alloc, &none, view, areas, handle, Mode::Shared) {
        Ok(inode) => {
            let reply = handle_reply(alloc, volume, handle, &inode)?;
            Ok(reply)
        }
        Err(Stop::Status(_)) => Err(Stop::Status(NOENT)),
        Err(stop) => Err(stop),
    }
}

/// The reply with the file handle and the attributes of the file with a handle, by its inode.
fn handle_reply(
    alloc: Global,
    volume: u64,
    handle: u64,
    inode: &Inode,
) -> Result<Reply, OutOfMemory>
    ensures { (file : File) → file.handle ≡ handle → HasFields inode.now file → size_of file.body ≡ shown_size inode.now → size_of file.body < 2 ^ 31
        → IfOk result (λ reply. reply ≡ Handle (file_text volume handle) (attributes_of volume file)) }
{
    let words = attributes_by(alloc, volume, handle, inode)?;
    let bytes = Raw::of(alloc, file_handle(volume, handle).as_slice())?;
    Ok(Reply::Handle(bytes, words))
}
