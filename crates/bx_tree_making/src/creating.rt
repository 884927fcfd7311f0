//! The procedures that make files: CREATE, SYMLINK and MKDIR.

ghost use Rattle.std.specs.Prelude.{◌≡◌, ◌<◌, ◌^◌, ◌==◌, ◌&&◌, nat_lt, true, false, if◌then◌else◌, IfErr, IfOk, IfSome, IsSome, MatchOption, MatchResult, OnErr, None, Some, Ok, Err};
ghost use Rattle.bx_model.specs.declared.reply.Reply.TheVariants.{Status as ReplyStatus};
ghost use Rattle.bx_model.specs.Edits.{is_unused as is_unused_handle};
ghost use Rattle.bx_tree_files.specs.FileEdits.{CanEnter};
ghost use Rattle.bx_tree_files.specs.Files.{IsFile, IsNumbered, file_at, kind_of, size_of};
ghost use Rattle.bx_model.specs.Making.{create as create_of, create_errors, create_over as create_over_of, created, mkdir as mkdir_of, new_file as new_file_of, new_place, symlink as symlink_of};
ghost use Rattle.bx_tree_files.specs.Names.{next_of};
ghost use Rattle.bx_model.specs.Steps.{taken};
ghost use Rattle.bx_tree_files.specs.Times.{is_given as is_given_word};
ghost use Rattle.bx_tree_files.specs.Changes.{most_bytes};
ghost use Rattle.bx_tree_making.specs.Asks.{Answers, IsPlace, IsRefused, asked};

use crate::making::{is_unused, make};
use bx_base::{OutOfMemory, Raw};
use bx_call_parts::{MOST_BYTES, resize_error};
use bx_model::{ACCES, Call, EXIST, FBIG, NFS_OK, Reply, STALE, Tree, Want, may};
use bx_places::file_handle;
use bx_tree_changes::{directory_for, edit_and_tell, entry_error, entry_of};
use bx_tree_files::{
    Body, Content, DIRECTORY, Edit, File, LINK, MODES, NameList, REGULAR, Sattr, given_or,
    is_given, time_or,
};
use bx_tree_reads::handle_reply;

/// The mode of a new regular file whose mode isn't given.
const FILE_MODE: u32 = 0o644;

/// The mode of a new link whose mode isn't given.
const LINK_MODE: u32 = 0o777;

/// The mode of a new directory whose mode isn't given.
const DIRECTORY_MODE: u32 = 0o755;

/// What a call asks for that makes a file, and what the file gets.
#[derive(Drop)]
pub struct Ask<'a> {
    /// The file handle of the directory in which it is made.
    pub at: &'a [u8],
    /// Its name there.
    pub name: &'a [u8],
    /// The attributes that are given.
    pub sattr: &'a Sattr,
    /// The time, in seconds and microseconds.
    pub time: (u32, u32),
    /// How many blocks are free.
    pub spare: u32,
    /// The handle for the file; 0 for none.
    pub made: u64,
}

/// MKDIR: makes a directory without entries. `None` exactly where `made` breaks its rule.
pub fn mkdir(tree: &mut Tree, call: &Call, ask: &Ask<'_>) -> Result<Option<Reply>, OutOfMemory>
    ensures acts { IfOk result (Answers tree.old tree.new (taken tree.old ask.now.made (asked mkdir_of tree.old call.now ask.now))) }
    ensures err { OnErr result (tree.new ≡ tree.old) }
{
    let parent = match place_for(tree, call, ask) {
        Ok(parent) => parent,
        Err(answer) => return Ok(answer),
    };
    let names = NameList::new(tree.files.allocator());
    let body = Body::Names(parent, 3, names);
    let file = new_file(call, ask, DIRECTORY_MODE, body);
    let reply = handle_reply(tree, &file)?;
    make(tree, parent, ask.name, ask.time, file)?;
    Ok(Some(reply))
}

/// SYMLINK: makes a link with a path. `None` exactly where `made` breaks its rule.
pub fn symlink(
    tree: &mut Tree,
    call: &Call,
    ask: &Ask<'_>,
    path: &[u8],
) -> Result<Option<Reply>, OutOfMemory>
    ensures acts { IfOk result (Answers tree.old tree.new (taken tree.old ask.now.made (asked (λ tree call at name. symlink_of tree call at name path.now) tree.old call.now ask.now))) }
    ensures err { OnErr result (tree.new ≡ tree.old) }
{
    if path.len() > MOST_BYTES as usize {
        return Err(OutOfMemory);
    }
    let parent = match place_for(tree, call, ask) {
        Ok(parent) => parent,
        Err(answer) => return Ok(answer),
    };
    let path = Raw::of(tree.files.allocator(), path)?;
    let file = new_file(call, ask, LINK_MODE, Body::Path(path));
    make(tree, parent, ask.name, ask.time, file)?;
    Ok(Some(Reply::Status(NFS_OK)))
}

/// CREATE: makes a regular file, or finds the one that is there, of which it sets a size that is given. `None`
/// exactly where `made` breaks its rule.
pub fn create(tree: &mut Tree, call: &Call, ask: &Ask<'_>) -> Result<Option<Reply>, OutOfMemory>
    ensures acts { IfOk result (Answers tree.old tree.new (taken tree.old ask.now.made (asked create_of tree.old call.now ask.now))) }
    ensures err { OnErr result (tree.new ≡ tree.old) }
{
    let directory = match directory_for(tree, call, ask.at, ask.name, Want::Search) {
        Ok(directory) => directory,
        Err(status) => return Ok(refused(status, ask.made)),
    };
    if let Some(entry) = entry_of(directory, ask.name) {
        let handle = entry.handle;
        return create_over(tree, call, ask, handle);
    }
    if let Some(status) = create_error(call, directory, ask.sattr, ask.spare) {
        return Ok(refused(status, ask.made));
    }
    if !is_unused(tree, ask.made) {
        return Ok(None);
    }
    let parent = directory.handle;
    let reply = create_new(tree, call, ask, parent)?;
    Ok(Some(reply))
}

/// Makes a regular file of the size given.
fn create_new(
    tree: &mut Tree,
    call: &Call,
    ask: &Ask<'_>,
    directory: u64,
) -> Result<Reply, OutOfMemory>
    requires unused { is_unused_handle tree.old ask.now.made ≡ true }
    requires fits { (is_given_word ask.now.sattr.now.size && nat_lt most_bytes ask.now.sattr.now.size) ≡ false }
    requires there { IsSome (file_at tree.old.files directory) }
    requires can { IfSome (file_at tree.old.files directory) (CanEnter ask.now.name.now) }
    ensures ok { IfOk result (λ reply. created tree.old call.now directory ask.now.name.now ask.now.sattr.now ask.now.time ask.now.made ≡ (reply, tree.new)) }
    ensures err { OnErr result (tree.new ≡ tree.old) }
{
    let size = given_or(ask.sattr.size, ask.sattr.size, 0);
    let content = Content::zeros(tree.files.allocator(), size);
    let file = new_file(call, ask, FILE_MODE, Body::Bytes(content));
    let reply = handle_reply(tree, &file)?;
    make(tree, directory, ask.name, ask.time, file)?;
    Ok(reply)
}

/// CREATE of a name that is there: sets a size that is given.
fn create_over(
    tree: &mut Tree,
    call: &Call,
    ask: &Ask<'_>,
    handle: u64,
) -> Result<Option<Reply>, OutOfMemory>
    ensures acts { IfOk result (Answers tree.old tree.new (taken tree.old ask.now.made (create_over_of tree.old call.now handle ask.now.sattr.now ask.now.time))) }
    ensures err { OnErr result (tree.new ≡ tree.old) }
{
    let (size, made) = (ask.sattr.size, ask.made);
    let Some(file) = tree.files.get(handle) else {
        return Ok(refused(STALE, made));
    };
    if file.kind != REGULAR {
        return Ok(refused(EXIST, made));
    }
    if let Some(status) = resize_error(call, file, size) {
        return Ok(refused(status, made));
    }
    if made != 0 {
        return Ok(None);
    }
    if !is_given(size) {
        let reply = handle_reply(tree, file)?;
        return Ok(Some(reply));
    }
    let bytes = file_handle(tree.volume, handle);
    let bytes = Raw::of(tree.files.allocator(), bytes.as_slice())?;
    let words = edit_and_tell(tree, handle, &Edit::Size(size), ask.time)?;
    Ok(Some(Reply::Handle(bytes, words)))
}

/// The handle of the directory that a new file may come into, under the handle that it gets; else what is answered.
fn place_for(tree: &Tree, call: &Call, ask: &Ask<'_>) -> Result<u64, Option<Reply>>
    ensures place { IfOk result (IsPlace tree.now call.now ask.now) }
    ensures refused { IfErr result (IsRefused tree.now call.now ask.now) }
{
    match directory_to_enter(tree, call, ask) {
        Err(status) => Err(refused(status, ask.made)),
        Ok(directory) => {
            if is_unused(tree, ask.made) {
                Ok(directory.handle)
            } else {
                Err(None)
            }
        }
    }
}

/// The directory that a new entry of this name may come into; else the first error.
fn directory_to_enter<'a>(tree: &'a Tree, call: &Call, ask: &Ask<'_>) -> Result<&'a File, u32>
    ensures found { MatchResult result
        (λ directory. new_place tree.now call.now ask.now.at.now ask.now.name.now ask.now.spare ≡ Ok directory.now)
        (λ status. new_place tree.now call.now ask.now.at.now ask.now.name.now ask.now.spare ≡ Err status) }
    ensures there { IfOk result (λ directory. file_at tree.now.files directory.now.handle ≡ Some directory.now) }
    ensures can { IfOk result (λ directory. CanEnter ask.now.name.now directory.now) }
{
    let directory = match directory_for(tree, call, ask.at, ask.name, Want::Change) {
        Ok(directory) => directory,
        Err(status) => return Err(status),
    };
    if entry_of(directory, ask.name).is_some() {
        return Err(EXIST);
    }
    if let Some(status) = entry_error(directory, ask.spare) {
        return Err(status);
    }
    Ok(directory)
}

/// The first error of making a regular file in a directory.
fn create_error(call: &Call, directory: &File, sattr: &Sattr, spare: u32) -> Option<u32>
    ensures found { MatchOption result (create_errors call.now directory.now sattr.now spare ≡ Ok tt) (λ status. create_errors call.now directory.now sattr.now spare ≡ Err status) }
    ensures number { result ≡ None → next_of directory.now.body < 4294967295 }
    ensures fits { result ≡ None → (is_given_word sattr.now.size && nat_lt most_bytes sattr.now.size) ≡ false }
{
    if !may(call, directory, Want::Change) {
        return Some(ACCES);
    }
    if is_given(sattr.size) && sattr.size > MOST_BYTES {
        return Some(FBIG);
    }
    entry_error(directory, spare)
}

/// A status where no file is made.
fn refused(status: u32, made: u64) -> Option<Reply>
    ensures { result ≡ (if made == 0 then Some (ReplyStatus status) else None) }
{
    if made == 0 {
        Some(Reply::Status(status))
    } else {
        None
    }
}

/// A new file.
fn new_file(call: &Call, ask: &Ask<'_>, mode: u32, body: Body) -> File
    requires mode { mode < 4096 }
    requires size { size_of body < 2 ^ 31 }
    requires numbers { IsNumbered 2 body }
    ensures new { result ≡ new_file_of call.now ask.now.sattr.now ask.now.time mode ask.now.made body }
    ensures is_file { IsFile result }
{
    let kind = kind(&body);
    let root = call.uid == 0;
    let (sattr, now) = (ask.sattr, ask.time);
    File {
        handle: ask.made,
        kind,
        mode: given_or(sattr.mode, sattr.mode % MODES, mode),
        nlink: if kind == DIRECTORY { 2 } else { 1 },
        uid: owner(root, sattr.uid, call.uid),
        gid: owner(root, sattr.gid, call.gid),
        atime: time_or(sattr.atime, now),
        mtime: time_or(sattr.mtime, now),
        ctime: now,
        body,
    }
}

/// The type's number of a file with this body.
fn kind(body: &Body) -> u32
    ensures { result ≡ kind_of body.now }
{
    match body {
        Body::Bytes(_) => REGULAR,
        Body::Path(_) => LINK,
        Body::Names(_, _, _) => DIRECTORY,
    }
}

/// The owner or the group of a new file: the caller's, but for the user 0 the one that is given.
fn owner(root: bool, given: u32, caller: u32) -> u32
    ensures { result ≡ (if root && is_given_word given then given else caller) }
{
    if root && is_given(given) {
        given
    } else {
        caller
    }
}
