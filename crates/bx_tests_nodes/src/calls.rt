//! Calls, as the words of their datagrams.

use bx_base::{OutOfMemory, Raw, push_u32};
use bx_node_tries::{Message, Waiting};
use std::alloc::Global;

/// A file of volume 7: the slot of its inode, and its generation.
#[derive(Clone, Copy)]
pub(crate) struct File(pub(crate) u32, pub(crate) u32);

pub(crate) const ROOT: File = File(0, 1);

/// A user, by whom a call is made.
pub(crate) type User = u32;

/// What a call asks for.
#[derive(Clone, Copy)]
pub(crate) enum Ask {
    /// The attributes of a file.
    Get(File),
    /// That a file has this mode.
    Set(File, u32),
    /// A directory in the root, whose name is this letter.
    Make(u8),
}

/// A word of a mode, an owner, a size or a time that leaves it as it is.
const ALONE: u32 = 0xffff_ffff;

/// The number of a procedure of NFS.
fn procedure(ask: Ask) -> u32 {
    match ask {
        Ask::Get(_) => 1,
        Ask::Set(_, _) => 2,
        Ask::Make(_) => 14,
    }
}

/// The words of a file's handle.
fn handle(file: File) -> [u32; 8] {
    [0x424f_5857, 0x4f4f_4431, 0, 7, file.0, file.1, 0, 0]
}

/// The words of attributes of which the mode alone is set.
fn mode_alone(mode: u32) -> [u32; 8] {
    [mode, ALONE, ALONE, ALONE, ALONE, ALONE, ALONE, ALONE]
}

fn put(bytes: &mut Vec<u8>, words: &[u32]) -> Result<(), OutOfMemory> {
    for word in words {
        push_u32(bytes, *word)?;
    }
    Ok(())
}

/// Puts what stands behind a call's head.
fn put_arguments(bytes: &mut Vec<u8>, ask: Ask) -> Result<(), OutOfMemory> {
    match ask {
        Ask::Get(file) => put(bytes, &handle(file)),
        Ask::Set(file, mode) => {
            put(bytes, &handle(file))?;
            put(bytes, &mode_alone(mode))
        }
        Ask::Make(letter) => {
            put(bytes, &handle(ROOT))?;
            put(bytes, &[1, u32::from(letter) << 24])?;
            put(bytes, &mode_alone(0o755))
        }
    }
}

/// The datagram of a call by a user: RPC's head, the credential of UNIX with an empty name of the machine and no further groups, no verifier.
fn datagram(alloc: Global, number: u32, user: User, ask: Ask) -> Result<Raw, OutOfMemory> {
    let mut bytes = Vec::new(alloc);
    put(&mut bytes, &[number, 0, 2, 100003, 2, procedure(ask)])?;
    put(&mut bytes, &[1, 20, 0, 0, user, user, 0])?;
    put(&mut bytes, &[0, 0])?;
    put_arguments(&mut bytes, ask)?;
    Ok(Raw::from(bytes))
}

/// A call of client 5 that waits; `None` where its datagram is no call.
pub(crate) fn call_of(
    alloc: Global,
    number: u32,
    user: User,
    ask: Ask,
) -> Result<Option<Waiting>, OutOfMemory> {
    let Some(message) = Message::read(datagram(alloc, number, user, ask)?) else {
        return Ok(None);
    };
    Ok(Some(Waiting {
        number: u64::from(number),
        client: 5,
        message,
        inners: 0,
        is_over: false,
    }))
}

/// Whether a reply has these words.
pub(crate) fn has_words(reply: &[u8], words: &[u32]) -> bool {
    let pieces = reply.chunks_exact(4);
    reply.len() % 4 == 0
        && reply.len() / 4 == words.len()
        && pieces
            .zip(words)
            .all(|(piece, word)| piece == word.to_be_bytes().as_slice())
}

/// The words of a reply with the root's attributes: its mode, and the second of its last change.
pub(crate) fn root_has(number: u32, mode: u32, changed: u32) -> [u32; 24] {
    [
        number, 1, 0, 0, 0, 0, 0, 2, mode, 2, 0, 0, 4096, 4096, 0, 8, 7, 2, 0, 0, 0, 0, changed, 0,
    ]
}
