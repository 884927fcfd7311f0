//! Letters to nodes.

ghost use Rattle.std.specs.Prelude.{◌≡◌, ◌++◌, OnOk};
ghost use Rattle.bx_master.specs.Steps.{letters_of, node_in};

use bx_base::{Actor, OutOfMemory};
use bx_facts::Outbox;
use bx_global::GlobalState;
use bx_lock_words::{Word, send};
use bx_rows::{SessionRow, find_row};
use std::alloc::Global;

/// The node of a session, 0 where it has no row.
fn node_of(row: &Option<SessionRow>) -> u32
    ensures { result ≡ node_in row.now }
{
    match row {
        None => 0,
        Some(row) => row.node,
    }
}

/// Puts a letter for each word into the box, to the node of its session.
pub(crate) fn send_each(
    alloc: Global,
    server: u32,
    known: &GlobalState,
    words: &[Word],
    out: &mut Outbox,
) -> Result<(), OutOfMemory>
    ensures { OnOk result (out.new ≡ out.old ++ letters_of server known.now words.now) }
{
    for word in words {
        let row = find_row(known.sessions.items(), word.session());
        let to = Actor::Node(node_of(&row));
        send(alloc, Actor::Server(server), to, *word, out)?;
    }
    Ok(())
}
