//! The last sequence of each session that was taken.

ghost use Rattle.std.specs.Prelude.{◌≡◌, ◌<◌, IfOk, IfSome, length, position};
ghost use Rattle.bx_mirror_tables.specs.Lasts.{is_of, last_in, noted};

use bx_base::OutOfMemory;
use std::alloc::Global;

/// The last sequence that was taken of a session.
#[derive(Clone, Copy, PartialEq, Eq)]
pub struct Last {
    /// The session.
    pub session: u64,
    /// The sequence.
    pub sequence: u64,
}

/// The last sequence of a session, 0 where nothing of it was taken.
pub fn last_of(lasts: &[Last], session: u64) -> u64
    ensures { result ≡ last_in lasts.now session }
{
    match place_of(lasts, session) {
        Some(at) => lasts[at].sequence,
        None => 0,
    }
}

/// Where a session stands.
fn place_of(lasts: &[Last], session: u64) -> Option<usize>
    ensures value { result ≡ position (is_of session) lasts.now }
    ensures within { IfSome result (λ at. at < length lasts.now) }
{
    lasts.iter().position(|last| last.session == session)
}

/// The last sequences with that of a session: it is put in the place of the one that is there, or at the end.
pub fn noted(
    alloc: Global,
    lasts: &[Last],
    session: u64,
    sequence: u64,
) -> Result<Vec<Last>, OutOfMemory>
    ensures { IfOk result (λ all. all.items ≡ noted lasts.now session sequence) }
{
    let mut all = Vec::from_slice(alloc, lasts)?;
    let last = Last { session, sequence };
    match place_of(lasts, session) {
        Some(at) => {
            all[at] = last;
            Ok(all)
        }
        None => {
            all.push(last)?;
            Ok(all)
        }
    }
}
