//! The procedures that change a file: SETATTR and WRITE.

ghost use Rattle.std.specs.Prelude.{◌≡◌, ◌+◌, ◌<◌, ◌^◌, IfOk, IfSome, IsSome, MatchOption, OnErr, OnOk, Ok, Err, Some};
ghost use Rattle.bx_tree_files.specs.Attributes.{attributes_of};
ghost use Rattle.bx_model.specs.Edits.{changed};
ghost use Rattle.bx_tree_files.specs.FileEdits.{CanEdit, edited};
ghost use Rattle.bx_tree_files.specs.Files.{file_at};
ghost use Rattle.bx_model.specs.Steps.{done};
ghost use Rattle.bx_model.specs.Writing.{is_full as is_full_at, setattr as setattr_of, write as write_of, write_errors};

use bx_base::{OutOfMemory, Words};
use bx_call_parts::{MOST_BYTES, forbids, resize_error};
use bx_model::{ACCES, Call, FBIG, ISDIR, NOSPC, NXIO, PERM, Reply, STALE, Tree, Want, may};
use bx_tree_files::{DIRECTORY, Edit, File, LINK, Sattr, attribute_words, attributes, put_words};
use bx_tree_reads::{attributes_reply, named};

/// How many free blocks are enough for every procedure.
const ENOUGH: u32 = 8;

/// SETATTR: sets attributes of a file, and tells them.
pub fn setattr(
    tree: &mut Tree,
    call: &Call,
    at: &[u8],
    sattr: &Sattr,
    now: (u32, u32),
) -> Result<Reply, OutOfMemory>
    ensures ok { IfOk result (λ reply. done tree.old (setattr_of tree.old call.now at.now sattr.now now) ≡ (reply, tree.new)) }
    ensures err { OnErr result (tree.new ≡ tree.old) }
{
    let Some(file) = named(tree, at) else {
        return Ok(Reply::Status(STALE));
    };
    if forbids(call, file, sattr) {
        return Ok(Reply::Status(PERM));
    }
    if let Some(status) = resize_error(call, file, sattr.size) {
        return Ok(Reply::Status(status));
    }
    let handle = file.handle;
    let words = edit_and_tell(tree, handle, &Edit::Fields(sattr), now)?;
    Ok(Reply::Attributes(words))
}

/// WRITE: writes bytes into a regular file, and tells its attributes. No bytes change nothing.
pub fn write(
    tree: &mut Tree,
    call: &Call,
    at: &[u8],
    offset: u32,
    written: &[u8],
    now: (u32, u32),
    spare: u32,
) -> Result<Reply, OutOfMemory>
    ensures ok { IfOk result (λ reply. done tree.old (write_of tree.old call.now at.now offset written.now now spare) ≡ (reply, tree.new)) }
    ensures err { OnErr result (tree.new ≡ tree.old) }
{
    let Some(file) = named(tree, at) else {
        return Ok(Reply::Status(STALE));
    };
    if let Some(status) = write_error(call, file, offset, written.len(), spare) {
        return Ok(Reply::Status(status));
    }
    if written.is_empty() {
        return attributes_reply(tree, file);
    }
    let handle = file.handle;
    let words = edit_and_tell(tree, handle, &Edit::Data(offset, written), now)?;
    Ok(Reply::Attributes(words))
}

/// Makes an edit of a file that is there, and tells its attributes then.
pub fn edit_and_tell(
    tree: &mut Tree,
    handle: u64,
    edit: &Edit<'_>,
    now: (u32, u32),
) -> Result<Words, OutOfMemory>
    requires there { IsSome (file_at tree.old.files handle) }
    requires can { IfSome (file_at tree.old.files handle) (CanEdit edit.now) }
    ensures tells { IfOk result (λ words. IfSome (file_at tree.old.files handle) (λ file. words ≡ attributes_of tree.old.volume (edited now edit.now file))) }
    ensures changes { OnOk result (tree.new ≡ changed tree.old handle (edited now edit.now)) }
    ensures err { OnErr result (tree.new ≡ tree.old) }
{
    let Some(file) = tree.files.get(handle) else {
        unreachable!();
    };
    let mut words = attributes(tree.files.allocator(), tree.volume, file)?;
    tree.files.edit(handle, edit, now)?;
    let Some(file) = tree.files.get(handle) else {
        unreachable!();
    };
    put_words(&mut words, &attribute_words(tree.volume, file));
    Ok(words)
}

/// The first error of writing so many bytes from an offset on; no bytes meet no limit.
fn write_error(call: &Call, file: &File, offset: u32, count: usize, spare: u32) -> Option<u32>
    requires { count < 2 ^ 63 }
    ensures { MatchOption result (write_errors call.now file.now offset count spare ≡ Ok tt) (λ status. write_errors call.now file.now offset count spare ≡ Err status) }
{
    if file.kind == DIRECTORY {
        return Some(ISDIR);
    }
    if file.kind == LINK {
        return Some(NXIO);
    }
    if !may(call, file, Want::Write) {
        return Some(ACCES);
    }
    if 0 < count && offset as u64 + count as u64 > MOST_BYTES as u64 {
        return Some(FBIG);
    }
    if 0 < count && is_full(spare) {
        return Some(NOSPC);
    }
    None
}

/// Whether there are too few free blocks for a procedure that may take some.
pub(crate) fn is_full(spare: u32) -> bool
    ensures { result ≡ is_full_at spare }
{
    spare < ENOUGH
}
