//! Letters to the master.

ghost use Rattle.std.specs.Prelude.{◌≡◌, ◌++◌, OnOk};
ghost use Rattle.bx_clerk.specs.Clerks.{letters_from};

use bx_base::{Actor, OutOfMemory};
use bx_facts::Outbox;
use bx_lock_words::{Word, send};
use std::alloc::Global;

/// Puts a letter from a node to a lock server into the box, for each word.
pub(crate) fn send_each(
    alloc: Global,
    node: u32,
    server: u32,
    words: &[Word],
    out: &mut Outbox,
) -> Result<(), OutOfMemory>
    ensures { OnOk result (out.new ≡ out.old ++ letters_from node server words.now) }
{
    for word in words {
        send(alloc, Actor::Node(node), Actor::Server(server), *word, out)?;
    }
    Ok(())
}
