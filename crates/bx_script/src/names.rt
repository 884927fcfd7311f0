//! The names of machines, of kinds of packets, and of what a crash makes of unsure sectors.

ghost use Rattle.std.specs.Prelude.{◌≡◌, ◌<◌};
ghost use Rattle.bx_script.specs.Reading.{kind_named, lock_kind, machine_named, member_at, member_kind, noise_of, seed_of, write_kind};

use crate::field::{number, word};
use crate::line::{MAX_DEVICES, MAX_NODES};
use bx_base::Actor;
use bx_disk::Noise;

/// The greatest number of a node.
const LAST_NODE: u32 = MAX_NODES - 1;

/// The greatest number of a replica.
const LAST_REPLICA: u32 = 2;

/// The greatest number of a lock server.
const LAST_SERVER: u32 = 1;

/// The greatest number of a device.
const LAST_DEVICE: u32 = MAX_DEVICES - 1;

/// The machine that a field names: a letter and its number among the machines of its kind.
#[tactic(auto, unfolding(crate::specs::Reading::machine_named))]
pub(crate) fn machine(field: &[u8]) -> Option<Actor>
    ensures { result ≡ machine_named field.now }
{
    let [letter, digits @ ..] = field else {
        return None;
    };
    match *letter {
        b'n' => Some(Actor::Node(word(digits, LAST_NODE)?)),
        b'p' => Some(Actor::Replica(word(digits, LAST_REPLICA)?)),
        b'l' => Some(Actor::Server(word(digits, LAST_SERVER)?)),
        b'a' => member(digits, 0),
        b'b' => member(digits, 1),
        _ => None,
    }
}

/// The member of the device that digits name: A where `side` is 0, B where it is 1.
#[tactic(auto, unfolding(crate::specs::Reading::member_at))]
fn member(digits: &[u8], side: u32) -> Option<Actor>
    requires { side < 2 }
    ensures { result ≡ member_at side digits.now }
{
    let device = word(digits, LAST_DEVICE)?;
    Some(Actor::Member(2 * device + side))
}

/// The number of the kind of packets that a field names: of the register, or another.
#[tactic(auto, unfolding(crate::specs::Reading::kind_named))]
pub(crate) fn kind(field: &[u8]) -> Option<u8>
    ensures { result ≡ kind_named field.now }
{
    if field == b"ask".as_slice() {
        Some(1)
    } else if field == b"decided".as_slice() {
        Some(2)
    } else if field == b"prepare".as_slice() {
        Some(3)
    } else if field == b"promise".as_slice() {
        Some(4)
    } else if field == b"accept".as_slice() {
        Some(5)
    } else if field == b"accepted".as_slice() {
        Some(6)
    } else if field == b"refused".as_slice() {
        Some(7)
    } else {
        lock_kind(field)
    }
}

/// .. of the lock service, or another.
#[tactic(auto, unfolding(crate::specs::Reading::lock_kind))]
fn lock_kind(field: &[u8]) -> Option<u8>
    ensures { result ≡ lock_kind field.now }
{
    if field == b"want".as_slice() {
        Some(8)
    } else if field == b"grant".as_slice() {
        Some(9)
    } else if field == b"revoke".as_slice() {
        Some(10)
    } else if field == b"release".as_slice() {
        Some(11)
    } else if field == b"renew".as_slice() {
        Some(12)
    } else if field == b"lease".as_slice() {
        Some(13)
    } else {
        write_kind(field)
    }
}

/// .. of writes to members, or another.
#[tactic(auto, unfolding(crate::specs::Reading::write_kind))]
fn write_kind(field: &[u8]) -> Option<u8>
    ensures { result ≡ write_kind field.now }
{
    if field == b"body".as_slice() {
        Some(14)
    } else if field == b"gate".as_slice() {
        Some(15)
    } else if field == b"home".as_slice() {
        Some(16)
    } else if field == b"shut".as_slice() {
        Some(17)
    } else if field == b"settle".as_slice() {
        Some(18)
    } else {
        member_kind(field)
    }
}

/// .. of what members say, and what they copy.
#[tactic(auto, unfolding(crate::specs::Reading::member_kind))]
fn member_kind(field: &[u8]) -> Option<u8>
    ensures { result ≡ member_kind field.now }
{
    if field == b"wrote".as_slice() {
        Some(19)
    } else if field == b"read".as_slice() {
        Some(20)
    } else if field == b"data".as_slice() {
        Some(21)
    } else if field == b"copy".as_slice() {
        Some(22)
    } else if field == b"copied".as_slice() {
        Some(23)
    } else if field == b"alive".as_slice() {
        Some(24)
    } else {
        None
    }
}

/// `keep`, `drop` or `seed:N`.
#[tactic(auto, unfolding(crate::specs::Reading::noise_of))]
pub(crate) fn noise(field: &[u8]) -> Option<Noise>
    ensures { result ≡ noise_of field.now }
{
    match field {
        b"keep" => Some(Noise::Keep),
        b"drop" => Some(Noise::Drop),
        _ => seed(field),
    }
}

/// `seed:N`.
#[tactic(auto, unfolding(crate::specs::Reading::seed_of))]
fn seed(field: &[u8]) -> Option<Noise>
    ensures { result ≡ seed_of field.now }
{
    let digits = field.strip_prefix(b"seed:")?;
    Some(Noise::Seed(number(digits, u64::MAX)?))
}
