//! The procedure that gives a file another name: RENAME.

ghost use Rattle.std.specs.Prelude.{◌≡◌, IfOk, IfSome, MatchResult, OnErr, OnOk, None, Ok, Err, Some};
ghost use Rattle.std.specs.Option.{option_copied};
ghost use Rattle.bx_model.specs.declared.reply.Reply.TheVariants.{Status as ReplyStatus};
ghost use Rattle.bx_model.specs.Edits.{changed};
ghost use Rattle.bx_tree_files.specs.Files.{IsFile, file_at};
ghost use Rattle.bx_model.specs.Moves.{IsPlace, move_between as move_between_of, move_places as move_places_of};
ghost use Rattle.bx_tree_moves.specs.Moving.{CanMoveIn, after_move, after_moves, displaced_of, with_moved_in, without_displaced};
ghost use Rattle.bx_model.specs.Renaming.{file_of_entry, is_same as is_same_file, rename as rename_of};
ghost use Rattle.bx_model.specs.Steps.{done};

use crate::move_errors::{changes_parent, move_error};
use bx_base::OutOfMemory;
use bx_model::{ACCES, Call, NFS_OK, NOENT, NOTDIR, Reply, STALE, Tree, Want, may};
use bx_tree_changes::{entry_of, unlink};
use bx_tree_files::{DIRECTORY, Edit, File, Name, is_bad};
use bx_tree_reads::named;

/// A file whose name another one takes.
#[derive(Clone, Copy)]
pub(crate) struct Displaced {
    /// Its handle.
    pub handle: u64,
    /// How many names it has.
    pub nlink: u32,
    /// Whether it is a directory, which has no entries then.
    pub is_directory: bool,
}

/// A move of a file that meets no error.
#[derive(Drop)]
pub(crate) struct Move<'a> {
    /// The handle of the directory that it leaves.
    pub source: u64,
    /// Its name there.
    pub name: &'a [u8],
    /// The handle of the directory that it comes into.
    pub target: u64,
    /// Its name there.
    pub new_name: &'a [u8],
    /// Its own handle.
    pub handle: u64,
    /// Whether it is a directory that comes into another one.
    pub counts: bool,
    /// The file that has had the new name.
    pub displaced: Option<Displaced>,
    /// When it moves.
    pub time: (u32, u32),
}

/// RENAME: gives a file another name, which may be another file's until then.
pub fn rename(
    tree: &mut Tree,
    call: &Call,
    from: &[u8],
    name: &[u8],
    to: &[u8],
    new_name: &[u8],
    now: (u32, u32),
    spare: u32,
) -> Result<Reply, OutOfMemory>
    ensures ok { IfOk result (λ reply. done tree.old (rename_of tree.old call.now from.now name.now to.now new_name.now now spare) ≡ (reply, tree.new)) }
    ensures err { OnErr result (tree.new ≡ tree.old) }
{
    match move_of(tree, call, from, name, to, new_name, now, spare) {
        Err(status) => Ok(Reply::Status(status)),
        Ok(None) => Ok(Reply::Status(NFS_OK)),
        Ok(Some(found)) => {
            make_move(tree, &found)?;
            Ok(Reply::Status(NFS_OK))
        }
    }
}

/// The move that a call wants, and none where both names are one file; else the first error.
fn move_of<'a>(
    tree: &Tree,
    call: &Call,
    from: &[u8],
    name: &'a [u8],
    to: &[u8],
    new_name: &'a [u8],
    now: (u32, u32),
    spare: u32,
) -> Result<Option<Move<'a>>, u32>
    ensures found { MatchResult result
        (λ found. rename_of tree.now call.now from.now name.now to.now new_name.now now spare ≡ Ok (ReplyStatus 0, after_moves tree.now found))
        (λ status. rename_of tree.now call.now from.now name.now to.now new_name.now now spare ≡ Err status) }
    ensures can { IfOk result (λ found. IfSome found (λ found. IfSome (file_at tree.now.files found.target) (CanMoveIn found found.displaced))) }
{
    let (source, target) = match move_places(tree, call, from, name, to, new_name) {
        Ok(places) => places,
        Err(status) => return Err(status),
    };
    move_between(tree, source, name, target, new_name, now, spare)
}

/// The directories between which a call moves a file; else the first error.
fn move_places<'a>(
    tree: &'a Tree,
    call: &Call,
    from: &[u8],
    name: &[u8],
    to: &[u8],
    new_name: &[u8],
) -> Result<(&'a File, &'a File), u32>
    ensures found { MatchResult result
        (λ found. move_places_of tree.now call.now from.now name.now to.now new_name.now ≡ Ok (found.0.now, found.1.now))
        (λ status. move_places_of tree.now call.now from.now name.now to.now new_name.now ≡ Err status) }
    ensures source { IfOk result (λ found. IsPlace tree.now found.0.now) }
    ensures target { IfOk result (λ found. IsPlace tree.now found.1.now) }
{
    let Some(source) = named(tree, from) else {
        return Err(STALE);
    };
    let Some(target) = named(tree, to) else {
        return Err(STALE);
    };
    if source.kind != DIRECTORY || target.kind != DIRECTORY {
        return Err(NOTDIR);
    }
    if is_bad(name) || is_bad(new_name) {
        return Err(ACCES);
    }
    if !may(call, source, Want::Change) || !may(call, target, Want::Change) {
        return Err(ACCES);
    }
    Ok((source, target))
}

/// The move between two directories, and none where both names are one file; else the first error.
fn move_between<'a>(
    tree: &Tree,
    source: &File,
    name: &'a [u8],
    target: &File,
    new_name: &'a [u8],
    now: (u32, u32),
    spare: u32,
) -> Result<Option<Move<'a>>, u32>
    requires source { IsPlace tree.now source.now }
    requires target { IsPlace tree.now target.now }
    ensures found { MatchResult result
        (λ found. move_between_of tree.now source.now name.now target.now new_name.now now spare ≡ Ok (ReplyStatus 0, after_moves tree.now found))
        (λ status. move_between_of tree.now source.now name.now target.now new_name.now now spare ≡ Err status) }
    ensures can { IfOk result (λ found. IfSome found (λ found. IfSome (file_at tree.now.files found.target) (CanMoveIn found found.displaced))) }
{
    let Some(entry) = entry_of(source, name) else {
        return Err(NOENT);
    };
    let Some(moved) = tree.files.get(entry.handle) else {
        return Err(STALE);
    };
    let other = match file_of(tree, entry_of(target, new_name)) {
        Ok(other) => other,
        Err(status) => return Err(status),
    };
    if is_same(moved, other) {
        return Ok(None);
    }
    if let Some(status) = move_error(tree, source, target, moved, other, spare) {
        return Err(status);
    }
    Ok(Some(Move {
        source: source.handle,
        name,
        target: target.handle,
        new_name,
        handle: moved.handle,
        counts: changes_parent(source, target, moved),
        displaced: displaced_from(other),
        time: now,
    }))
}

/// The file that an entry names; `STALE` where it isn't there.
fn file_of<'a>(tree: &'a Tree, entry: Option<&Name>) -> Result<Option<&'a File>, u32>
    ensures found { MatchResult result
        (λ found. file_of_entry tree.now (option_copied entry.entry) ≡ Ok (option_copied found))
        (λ status. file_of_entry tree.now (option_copied entry.entry) ≡ Err status) }
    ensures is_file { IfOk result (λ found. IfSome (option_copied found) IsFile) }
{
    let Some(entry) = entry else {
        return Ok(None);
    };
    match tree.files.get(entry.handle) {
        Some(file) => Ok(Some(file)),
        None => Err(STALE),
    }
}

/// Makes a move.
fn make_move(tree: &mut Tree, found: &Move<'_>) -> Result<(), OutOfMemory>
    requires { IfSome (file_at tree.old.files found.now.target) (CanMoveIn found.now found.now.displaced) }
    ensures ok { OnOk result (tree.new ≡ after_move tree.old found.now) }
    ensures err { OnErr result (tree.new ≡ tree.old) }
{
    move_in(tree, found)?;
    let (time, handle) = (found.time, found.handle);
    if let Some(displaced) = found.displaced {
        displace(tree, displaced, time);
    }
    tree.files.change(
        found.source,
        &Edit::TakenOut(found.name, found.counts),
        time,
    );
    tree.files
        .change(handle, &Edit::MovedTo(found.target), time);
    Ok(())
}

/// Puts the new entry into the directory that the file comes into.
fn move_in(tree: &mut Tree, found: &Move<'_>) -> Result<(), OutOfMemory>
    requires { IfSome (file_at tree.old.files found.now.target) (CanMoveIn found.now found.now.displaced) }
    ensures ok { OnOk result (tree.new ≡ changed tree.old found.now.target (with_moved_in found.now found.now.displaced)) }
    ensures err { OnErr result (tree.new ≡ tree.old) }
{
    let edit = match found.displaced {
        Some(displaced) => {
            Edit::Replaced(
                found.new_name,
                found.handle,
                displaced.is_directory,
                found.counts,
            )
        }
        None => Edit::Entered(found.new_name, found.handle, found.counts),
    };
    tree.files.edit(found.target, &edit, found.time)
}

/// Takes a file out of the tree whose name another one took, or one link from it.
fn displace(tree: &mut Tree, displaced: Displaced, now: (u32, u32))
    ensures { tree.new ≡ without_displaced now tree.old (Some displaced) }
{
    if displaced.is_directory {
        tree.files.remove(displaced.handle);
    } else {
        unlink(tree, displaced.handle, displaced.nlink, now);
    }
}

/// Whether both names are one file.
fn is_same(moved: &File, other: Option<&File>) -> bool
    ensures { result ≡ is_same_file moved.now (option_copied other.entry) }
{
    match other {
        Some(other) => moved.handle == other.handle,
        None => false,
    }
}

/// What a move needs of the file whose name is taken.
fn displaced_from(other: Option<&File>) -> Option<Displaced>
    ensures { result ≡ displaced_of (option_copied other.entry) }
{
    match other {
        Some(file) => Some(Displaced {
            handle: file.handle,
            nlink: file.nlink,
            is_directory: file.kind == DIRECTORY,
        }),
        None => None,
    }
}
