//! Whether a want is granted.

ghost use Rattle.std.specs.Prelude.{◌≡◌};
ghost use Rattle.bx_lock_tables.specs.Rows.{dead_has, has_earlier, has_up_to, is_again, is_old, lives, verdict_of};

use crate::rows::{Row, any_clash, find_row, mode_to};
use bx_global::GlobalState;
use bx_lock_words::Want;
use bx_rows::find_row as find_session;

/// What becomes of a want.
#[derive(Clone, Copy)]
pub enum Verdict {
    /// It is passed over.
    Refuses,
    /// It waits.
    Waits,
    /// It is granted, and this is listed.
    Grants(Row),
}

/// Whether a session lives in a state.
pub fn is_live(known: &GlobalState, session: u64) -> bool
    ensures { result ≡ lives known.now session }
{
    match find_session(known.sessions.items(), session) {
        None => false,
        Some(row) => row.dead == 0,
    }
}

/// Whether a session up to this one has a row.
fn any_up_to(known: &GlobalState, last: u64) -> bool
    ensures { result ≡ has_up_to known.now last }
{
    known.sessions.items().iter().any(|row| row.number <= last)
}

/// Whether a session of an earlier term still has a row.
fn any_earlier(known: &GlobalState, last_dead: Option<u64>) -> bool
    ensures { result ≡ has_earlier known.now last_dead }
{
    match last_dead {
        None => false,
        Some(last) => any_up_to(known, last),
    }
}

/// Whether a session that doesn't live has the block.
fn any_dead(known: &GlobalState, rows: &[Row]) -> bool
    ensures { result ≡ dead_has known.now rows.now }
{
    rows.iter()
        .any(|row| row.stands && !is_live(known, row.session))
}

/// Whether a want has the number of what stands.
fn repeats(row: &Option<Row>, want: &Want) -> bool
    ensures { result ≡ is_again row.now want.now }
{
    match row {
        None => false,
        Some(row) => row.stands && row.number == want.number,
    }
}

/// Whether a want's number isn't above the last one that was granted.
fn comes_late(row: &Option<Row>, want: &Want) -> bool
    ensures { result ≡ is_old row.now want.now }
{
    match row {
        None => want.number == 0,
        Some(row) => want.number <= row.number,
    }
}

/// What becomes of a want at a reading, of a block with these rows. Sessions up to `last_dead` are of earlier terms, and `index`
/// is what a grant carries now.
pub fn judge(
    known: &GlobalState,
    last_dead: Option<u64>,
    index: u64,
    reading: u64,
    rows: &[Row],
    want: &Want,
) -> Verdict
    ensures { result ≡ verdict_of known.now last_dead index reading rows.now want.now }
{
    let row = find_row(rows, want.session);
    if !is_live(known, want.session) {
        return Verdict::Refuses;
    }
    let again = repeats(&row, want);
    if comes_late(&row, want) && !again {
        return Verdict::Refuses;
    }
    if any_clash(rows, want.session, want.mode)
        || any_dead(known, rows)
        || any_earlier(known, last_dead)
    {
        return Verdict::Waits;
    }
    if reading > known.term_end {
        return Verdict::Refuses;
    }
    match row {
        Some(row) if again => Verdict::Grants(row),
        _ => Verdict::Grants(Row {
            session: want.session,
            mode: mode_to(&row, want.mode),
            number: want.number,
            index,
            stands: true,
        }),
    }
}
