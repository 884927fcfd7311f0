//! The procedures that change nothing.

ghost use Rattle.std.specs.Prelude.{◌≡◌, IfOk, IfSome, Some, min, take, drop};
ghost use Rattle.std.specs.Option.{option_copied};
ghost use Rattle.bx_tree_files.specs.Files.{IsFile, file_at};
ghost use Rattle.bx_model.specs.Mounting.{mount as mount_of, plain as plain_reply};
ghost use Rattle.bx_tree_files.specs.Names.{names_of, parent_of};
ghost use Rattle.bx_model.specs.Reading.{named_file, attributes_reply as reply_of_attributes, handle_reply as reply_of_handle, getattr as getattr_of, lookup as lookup_of, meant as file_meant, readlink as readlink_of, read as read_of, statfs as statfs_of, most_data};
ghost use Rattle.bx_model.specs.Steps.{done};

use bx_base::{OutOfMemory, Raw};
use bx_model::{ACCES, Call, ISDIR, NOENT, NOTDIR, NXIO, Reply, STALE, Tree, Want, may};
use bx_places::{file_handle, named_handle};
use bx_tree_files::{BLOCK_LEN, Body, File, NameList, attributes, words_of};

/// The most bytes that a READ gives (RFC 1094, section 2.3.9).
const MOST_DATA: u32 = 8192;

/// How many blocks an area has.
const AREA_BLOCKS: u32 = 960;

/// The program MOUNT.
const MOUNT: u32 = 100005;

/// MOUNT's procedure that lists the mounts.
const DUMP: u32 = 2;

/// MOUNT's procedure that takes a mount back.
const UMNT: u32 = 3;

/// MOUNT's procedure that lists the exports.
const EXPORT: u32 = 5;

/// GETATTR: the attributes of a file.
pub fn getattr(tree: &Tree, at: &[u8]) -> Result<Reply, OutOfMemory>
    ensures { IfOk result (λ reply. done tree.now (getattr_of tree.now at.now) ≡ (reply, tree.now)) }
{
    let Some(file) = named(tree, at) else {
        return Ok(Reply::Status(STALE));
    };
    attributes_reply(tree, file)
}

/// LOOKUP: the file that a name means in a directory.
pub fn lookup(tree: &Tree, call: &Call, at: &[u8], name: &[u8]) -> Result<Reply, OutOfMemory>
    ensures { IfOk result (λ reply. done tree.now (lookup_of tree.now call.now at.now name.now) ≡ (reply, tree.now)) }
{
    let Some(directory) = named(tree, at) else {
        return Ok(Reply::Status(STALE));
    };
    let Body::Names(parent, _, names) = &directory.body else {
        return Ok(Reply::Status(NOTDIR));
    };
    if !may(call, directory, Want::Search) {
        return Ok(Reply::Status(ACCES));
    }
    let Some(file) = meant(tree, directory, *parent, names, name) else {
        return Ok(Reply::Status(NOENT));
    };
    handle_reply(tree, file)
}

/// READLINK: a link's path.
pub fn readlink(tree: &Tree, at: &[u8]) -> Result<Reply, OutOfMemory>
    ensures { IfOk result (λ reply. done tree.now (readlink_of tree.now at.now) ≡ (reply, tree.now)) }
{
    let Some(file) = named(tree, at) else {
        return Ok(Reply::Status(STALE));
    };
    let Body::Path(path) = &file.body else {
        return Ok(Reply::Status(NXIO));
    };
    let path = Raw::of(tree.files.allocator(), path.bytes())?;
    Ok(Reply::Path(path))
}

/// READ: the bytes of a regular file from an offset on, at most so many.
pub fn read(tree: &Tree, call: &Call, at: &[u8], from: u32, most: u32) -> Result<Reply, OutOfMemory>
    ensures { IfOk result (λ reply. done tree.now (read_of tree.now call.now at.now from most) ≡ (reply, tree.now)) }
{
    let Some(file) = named(tree, at) else {
        return Ok(Reply::Status(STALE));
    };
    let content = match &file.body {
        Body::Names(_, _, _) => return Ok(Reply::Status(ISDIR)),
        Body::Path(_) => return Ok(Reply::Status(NXIO)),
        Body::Bytes(content) => content,
    };
    if !may(call, file, Want::Read) {
        return Ok(Reply::Status(ACCES));
    }
    let alloc = tree.files.allocator();
    let words = attributes(alloc, tree.volume, file)?;
    let bytes = content.part(from, most.min(MOST_DATA))?;
    Ok(Reply::Bytes(words, bytes))
}

/// STATFS: the sizes of a transfer and of a block, and how many blocks there are, and are free.
pub fn statfs(tree: &Tree, at: &[u8], spare: u32) -> Result<Reply, OutOfMemory>
    ensures { IfOk result (λ reply. done tree.now (statfs_of tree.now at.now spare) ≡ (reply, tree.now)) }
{
    if named(tree, at).is_none() {
        return Ok(Reply::Status(STALE));
    }
    let blocks = AREA_BLOCKS * tree.areas as u32;
    let words = [MOST_DATA, BLOCK_LEN, blocks, spare, spare];
    let words = words_of(tree.files.allocator(), &words)?;
    Ok(Reply::Space(words))
}

/// MNT and UMNT: the root's file handle, of the path `/`; nothing.
pub fn mount(tree: &Tree, procedure: u32, path: &[u8]) -> Result<Reply, OutOfMemory>
    ensures { IfOk result (λ reply. reply ≡ mount_of tree.now procedure path.now) }
{
    if procedure == UMNT {
        return Ok(Reply::Empty);
    }
    if path != b"/".as_slice() {
        return Ok(Reply::Status(NOENT));
    }
    let root = file_handle(tree.volume, tree.root);
    let root = Raw::of(tree.files.allocator(), root.as_slice())?;
    Ok(Reply::Mounted(root))
}

/// The file that a name means in a directory: `.` is the directory itself, and `..` its parent.
fn meant<'a>(
    tree: &'a Tree,
    directory: &'a File,
    parent: u64,
    names: &NameList,
    name: &[u8],
) -> Option<&'a File>
    requires is_file { IsFile directory.now }
    requires parent { parent ≡ parent_of directory.now.body }
    requires names { names.now ≡ names_of directory.now.body }
    ensures found { option_copied result ≡ file_meant tree.now directory.now name.now }
    ensures is_file { IfSome (option_copied result) IsFile }
{
    if name == b".".as_slice() {
        return Some(directory);
    }
    if name == b"..".as_slice() {
        return tree.files.get(parent);
    }
    let entry = names.named(name)?;
    tree.files.get(entry.handle)
}

/// A reply with a file's attributes.
pub fn attributes_reply(tree: &Tree, file: &File) -> Result<Reply, OutOfMemory>
    requires { IsFile file.now }
    ensures { IfOk result (λ reply. reply ≡ reply_of_attributes tree.now file.now) }
{
    let words = attributes(tree.files.allocator(), tree.volume, file)?;
    Ok(Reply::Attributes(words))
}

/// A reply with a file's file handle and attributes.
pub fn handle_reply(tree: &Tree, file: &File) -> Result<Reply, OutOfMemory>
    requires { IsFile file.now }
    ensures { IfOk result (λ reply. reply ≡ reply_of_handle tree.now file.now) }
{
    let alloc = tree.files.allocator();
    let handle = Raw::of(alloc, file_handle(tree.volume, file.handle).as_slice())?;
    let words = attributes(alloc, tree.volume, file)?;
    Ok(Reply::Handle(handle, words))
}

/// The file that a file handle names.
pub fn named<'a>(tree: &'a Tree, bytes: &[u8]) -> Option<&'a File>
    ensures found { option_copied result ≡ named_file tree.now bytes.now }
    ensures is_file { IfSome (option_copied result) IsFile }
    ensures there { IfSome (option_copied result) (λ file. file_at tree.now.files file.handle ≡ Some file) }
{
    let handle = named_handle(tree.volume, bytes)?;
    let file = tree.files.get(handle)?;
    Some(file)
}

/// What a procedure without arguments answers.
pub fn plain(program: u32, procedure: u32) -> Reply
    ensures { result ≡ plain_reply program procedure }
{
    match (program, procedure) {
        (MOUNT, DUMP) => Reply::Mounts,
        (MOUNT, EXPORT) => Reply::Exports,
        _ => Reply::Empty,
    }
}
