//! Replies to print, made of what their calls say.

use bx_base::{OutOfMemory, Raw, Words};
use bx_model::{Args, Call, Listed, ListedList, Reply};
use bx_rpc::MOUNT_PROGRAM;
use std::alloc::Global;

/// Attributes, 17 words.
const ATTRIBUTES: [u32; 17] = [
    1,
    0o100644,
    1,
    1000,
    1001,
    8192,
    4096,
    0,
    16,
    7,
    4,
    11,
    12,
    13,
    14,
    15,
    0xffff_ffff,
];

/// The five words of STATFS.
const SPACE: [u32; 5] = [8192, 4096, 960, 950, 949];

/// A status that is told alone: NFSERR_NOTEMPTY (RFC 1094, section 2.3.1).
const NOT_EMPTY: u32 = 66;

/// A reply of the kind that a procedure has. The bytes and the words that it holds are its call's, but for attributes and
/// the words of STATFS. So that long data is written too, a WRITE gets a READ's reply with the data.
pub(crate) fn reply(alloc: Global, call: &Call) -> Result<Reply, OutOfMemory> {
    match &call.args {
        Args::Refused(number) => Ok(Reply::Refused(*number, call.program)),
        Args::Nothing => Ok(without_arguments(call.program, call.procedure)),
        Args::Handle(handle) => of_file(alloc, call.procedure, handle.bytes()),
        Args::Set(_, _) => attributes(alloc),
        Args::Name(handle, _) => found(alloc, call.procedure, handle.bytes()),
        Args::Read(handle, _, _, _) => content(alloc, handle.bytes()),
        Args::Write(_, _, _, _, data) => content(alloc, data.bytes()),
        Args::Make(handle, _, _) => found(alloc, 4, handle.bytes()),
        Args::Rename(_, _, _, _) => Ok(Reply::Status(NOT_EMPTY)),
        Args::Link(_, _, _) | Args::Symlink(_, _, _, _) => Ok(Reply::Status(0)),
        Args::List(handle, cookie, count) => listing(alloc, handle.bytes(), *cookie, *count),
        Args::Path(path) => mounted(alloc, call.procedure, path.bytes()),
    }
}

fn without_arguments(program: u32, procedure: u32) -> Reply {
    match (program, procedure) {
        (MOUNT_PROGRAM, 2) => Reply::Mounts,
        (MOUNT_PROGRAM, 5) => Reply::Exports,
        _ => Reply::Empty,
    }
}

/// Attributes to a GETATTR, a path to a READLINK, and words to a STATFS.
fn of_file(alloc: Global, procedure: u32, handle: &[u8]) -> Result<Reply, OutOfMemory> {
    match procedure {
        5 => Ok(Reply::Path(Raw::of(alloc, handle)?)),
        17 => Ok(Reply::Space(words(alloc, &SPACE)?)),
        _ => attributes(alloc),
    }
}

fn attributes(alloc: Global) -> Result<Reply, OutOfMemory> {
    Ok(Reply::Attributes(words(alloc, &ATTRIBUTES)?))
}

/// A file handle and attributes to a LOOKUP; else a status alone.
fn found(alloc: Global, procedure: u32, handle: &[u8]) -> Result<Reply, OutOfMemory> {
    if procedure != 4 {
        return Ok(Reply::Status(NOT_EMPTY));
    }
    let attributes = words(alloc, &ATTRIBUTES)?;
    Ok(Reply::Handle(Raw::of(alloc, handle)?, attributes))
}

fn content(alloc: Global, content: &[u8]) -> Result<Reply, OutOfMemory> {
    let attributes = words(alloc, &ATTRIBUTES)?;
    Ok(Reply::Bytes(attributes, Raw::of(alloc, content)?))
}

/// Two entries, of which the names are the front and the whole of the handle.
fn listing(alloc: Global, handle: &[u8], cookie: u32, count: u32) -> Result<Reply, OutOfMemory> {
    let mut entries = ListedList::new(alloc);
    let front = handle.get(..1).unwrap_or(handle);
    entries.push(entry(alloc, 2, front, cookie)?)?;
    entries.push(entry(alloc, 9, handle, count)?)?;
    Ok(Reply::List(entries, cookie % 2))
}

fn entry(alloc: Global, fileid: u32, name: &[u8], cookie: u32) -> Result<Listed, OutOfMemory> {
    Ok(Listed {
        fileid,
        name: Raw::of(alloc, name)?,
        cookie,
    })
}

/// A file handle to a MNT of `/`, a status to one of another path, and nothing to an UMNT.
fn mounted(alloc: Global, procedure: u32, path: &[u8]) -> Result<Reply, OutOfMemory> {
    if procedure != 1 {
        return Ok(Reply::Empty);
    }
    if path != b"/".as_slice() {
        return Ok(Reply::Status(2));
    }
    Ok(Reply::Mounted(Raw::of(alloc, &[b'h'; 32])?))
}

fn words(alloc: Global, list: &[u32]) -> Result<Words, OutOfMemory> {
    let mut words = Words::new(alloc);
    for word in list {
        words.push(*word)?;
    }
    Ok(words)
}
