//! Answers as lines of text: a kind, its bytes as hex digits, and its numbers.

use bx_base::OutOfMemory;
use bx_model::{Listed, Reply, Tree};
use std::io;

/// Writes what a call was answered: nothing where `made` broke its rule.
pub(crate) fn tell_outcome(
    rt: &(impl Print + Alloc),
    outcome: Result<Option<Reply>, OutOfMemory>,
) -> io::Result<()> {
    match outcome {
        Ok(Some(reply)) => {
            let told = tell(rt, &reply);
            drop(reply);
            told
        }
        Ok(None) => println!(rt; "none"),
        Err(_) => println!(rt; "out of memory"),
    }
}

/// Writes a reply.
fn tell(rt: &(impl Print + Alloc), reply: &Reply) -> io::Result<()> {
    match reply {
        Reply::Refused(number, program) => put(rt, "refused", &[*number, *program], &[]),
        Reply::Status(status) => put(rt, "status", &[*status], &[]),
        Reply::Empty => put(rt, "empty", &[], &[]),
        Reply::Mounts => put(rt, "mounts", &[], &[]),
        Reply::Exports => put(rt, "exports", &[], &[]),
        Reply::List(entries, eof) => put_list(rt, entries.items(), *eof),
        Reply::Attributes(words) => put(rt, "attributes", words.items(), &[]),
        Reply::Space(words) => put(rt, "space", words.items(), &[]),
        Reply::Path(bytes) => put(rt, "path", &[], bytes.bytes()),
        Reply::Mounted(bytes) => put(rt, "mounted", &[], bytes.bytes()),
        Reply::Handle(handle, words) => put(rt, "handle", words.items(), handle.bytes()),
        Reply::Bytes(words, bytes) => put(rt, "bytes", words.items(), bytes.bytes()),
    }
}

/// Writes a page of a directory: whether it ends with the last entry, and behind it a line for each entry, with its fileid, its
/// cookie and its name.
fn put_list(rt: &(impl Print + Alloc), entries: &[Listed], eof: u32) -> io::Result<()> {
    put(rt, "list", &[eof], &[])?;
    for entry in entries {
        put(
            rt,
            "entry",
            &[entry.fileid, entry.cookie],
            entry.name.bytes(),
        )?;
    }
    Ok(())
}

/// Writes a line.
fn put(rt: &(impl Print + Alloc), kind: &str, words: &[u32], bytes: &[u8]) -> io::Result<()> {
    let digits = hex::encode(rt.alloc(), bytes)?;
    println!(rt; "{kind}:{digits} {words:?}")
}

/// Writes a tree's listing.
pub(crate) fn tell_listing(rt: &(impl Print + Alloc), tree: &Tree) -> io::Result<()> {
    let Ok(listing) = bx_listing::listing(tree) else {
        return println!(rt; "out of memory");
    };
    match str::from_utf8(listing.bytes()) {
        Ok(text) => print!(rt; "{text}"),
        Err(_) => println!(rt; "no text"),
    }
}
