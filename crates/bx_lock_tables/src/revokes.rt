//! What is asked back for a want that waits.

ghost use Rattle.std.specs.Prelude.{◌≡◌, ◌++◌, OnOk};
ghost use Rattle.bx_lock_tables.specs.Queue.{revoke_of, revokes_for};

use crate::rows::{Row, clash};
use crate::verdict::is_live;
use bx_base::OutOfMemory;
use bx_global::GlobalState;
use bx_lock_words::{Revoke, Want, Word};

/// Asks for all back that stands against a want, of the sessions that live.
pub fn push_revokes(
    known: &GlobalState,
    rows: &[Row],
    want: &Want,
    words: &mut Vec<Word>,
) -> Result<(), OutOfMemory>
    ensures { OnOk result (words.new.items ≡ words.old.items ++ revokes_for known.now rows.now want.now) }
{
    for row in rows {
        if let Some(word) = revoke_of(known, row, want) {
            words.push(word)?;
        }
    }
    Ok(())
}

/// What asks for a row back that stands against a want, where its session lives.
fn revoke_of(known: &GlobalState, row: &Row, want: &Want) -> Option<Word>
    ensures { result ≡ revoke_of known.now want.now row.now }
{
    let clashes = row.stands && row.session != want.session && clash(want.mode, row.mode);
    if !clashes || !is_live(known, row.session) {
        return None;
    }
    Some(Word::Revokes(Revoke {
        session: row.session,
        block: want.block,
        number: row.number,
        asking: want.session,
    }))
}
