//! A mode of the root that is set while all disks crash: it is there exactly where its call acted.

use crate::calls::{Ask, ROOT, User, has_words, root_has};
use crate::desk::{VOLUME, begin, runs, shape};
use crate::recovered::{crash, recovers, shows};
use bx_base::{CallNo, Raw};
use bx_disk::{Noise, Rack};
use bx_facts::FactError;
use bx_memory_rack::MemRack;
use bx_plain_parts::PlainParts;
use std::alloc::Global;
use std::test::Fail;

/// Which user sets the mode, after how many rounds all disks crash, with which noise, and the words of the reply by then.
#[derive(Clone, Copy)]
struct Case(User, u32, Noise, Option<&'static [u32]>);

const CASES: [Case; 13] = [
    Case(0, 0, Noise::Seed(0), None),
    Case(0, 1, Noise::Seed(1), None),
    Case(0, 2, Noise::Seed(2), None),
    Case(0, 3, Noise::Seed(3), None),
    Case(0, 4, Noise::Seed(4), None),
    Case(0, 4, Noise::Keep, None),
    Case(0, 5, Noise::Seed(5), None),
    Case(0, 5, Noise::Keep, None),
    Case(0, 5, Noise::Drop, None),
    Case(0, 6, Noise::Seed(6), Some(&SET)),
    Case(0, 6, Noise::Keep, Some(&SET)),
    Case(1000, 1, Noise::Keep, None),
    Case(1000, 2, Noise::Keep, Some(&REFUSED)),
];

/// The reply with the root's attributes, its mode set at 1 s.
const SET: [u32; 24] = [
    1, 1, 0, 0, 0, 0, 0, 2, 0o40755, 2, 0, 0, 4096, 4096, 0, 8, 7, 2, 0, 0, 0, 0, 1, 0,
];

/// The reply that the user may not do so.
const REFUSED: [u32; 7] = [1, 1, 0, 0, 0, 0, 1];

/// In how many rounds a call is answered.
const MOST: u32 = 6;

/// The listing of a new volume.
const NEW: &str =
    "file 0000000000000001 2 40777 2 0 0 4096 0.000000 0.000000 0.000000\ndir 0000000000000001 3\n";

/// .. and with the mode.
const CHANGED: &str =
    "file 0000000000000001 2 40755 2 0 0 4096 0.000000 0.000000 1.000000\ndir 0000000000000001 3\n";

/// The call of a user comes to a node on a new volume, which goes on for so many rounds, and then all disks crash. Says what is left of them, and the reply.
fn life(
    alloc: Global,
    user: User,
    rounds: u32,
    noise: Noise,
) -> Result<(MemRack, Option<Raw>), FactError> {
    let mut rack = MemRack::new(alloc, &[], &[])?;
    PlainParts::begin(alloc, &mut rack, VOLUME, shape(1))?;
    let mut desk = begin(alloc, 1)?;
    desk.call(0, 1, user, Ask::Set(ROOT, 0o755))?;
    let reply = runs(&mut desk, &mut rack, rounds, 1000)?;
    crash(&mut rack, noise)?;
    Ok((rack, reply))
}

/// Whether new nodes on the disks answer that the root is as it was, or changed.
fn tells<R: Rack>(alloc: Global, rack: &mut R, is_changed: bool) -> Result<bool, FactError> {
    let mut desk = begin(alloc, 1)?;
    desk.call(0, 2, 0, Ask::Get(ROOT))?;
    let reply = runs(&mut desk, rack, MOST, 2000)?;
    let words = if is_changed {
        root_has(2, 0o40755, 1)
    } else {
        root_has(2, 0o40777, 0)
    };
    Ok(reply.is_some_and(|reply| has_words(reply.bytes(), &words)))
}

/// Whether disks that crashed hold the mode exactly where it may be set and the call was told or is found, before their recovery and after it.
fn agrees<R: Rack>(alloc: Global, rack: &mut R, may: bool, told: bool) -> Result<bool, FactError> {
    let was_changed = shows(alloc, rack, CHANGED)?;
    let found = recovers(alloc, rack, CallNo::from(told))?;
    let more = recovers(alloc, rack, 1)?;
    let acted = may && (told || found == 1);
    let listing = if acted { CHANGED } else { NEW };
    let is_listed = shows(alloc, rack, listing)?;
    let is_told = tells(alloc, rack, acted)?;
    Ok(was_changed == acted && more == 0 && is_listed && is_told)
}

/// Whether the reply has these words, or there is none.
fn is_reply(reply: Option<&Raw>, words: Option<&[u32]>) -> bool {
    match (reply, words) {
        (Some(reply), Some(words)) => has_words(reply.bytes(), words),
        (None, None) => true,
        (Some(_), None) | (None, Some(_)) => false,
    }
}

/// Whether a case comes out as it should.
fn holds(alloc: Global, case: Case) -> Result<bool, FactError> {
    let Case(user, rounds, noise, words) = case;
    let (mut rack, reply) = life(alloc, user, rounds, noise)?;
    let agrees = agrees(alloc, &mut rack, user == 0, reply.is_some())?;
    Ok(is_reply(reply.as_ref(), words) && agrees)
}

#[test]
fn a_mode_is_there_exactly_where_its_call_acted(rt: HostRuntime) -> Result<(), Fail> {
    for (number, case) in CASES.iter().enumerate() {
        assert!(rt; holds(rt.alloc(), *case)?, "case {number}");
    }
    Ok(())
}
