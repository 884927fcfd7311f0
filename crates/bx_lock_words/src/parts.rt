//! Parts of bodies, read from the front of bytes.

ghost use Rattle.std.specs.Prelude.{◌≡◌, IfErr};
ghost use Rattle.bx_base.specs.Reading.{Gives};
ghost use Rattle.bx_base.specs.declared.error.ReadError.TheVariants.{Malformed};
ghost use Rattle.bx_lock_words.specs.Reading.{grant_at, mode_at, numbers_at, release_at, revoke_at, want_at};

use crate::words::{Grant, Release, Revoke, Want};
use bx_base::{Mode, ReadError, u32_at, u64_at};

/// Two numbers, and the bytes behind them.
#[tactic(auto, unfolding(crate::specs::Reading::numbers_at))]
pub(crate) fn numbers_of(bytes: &[u8]) -> Result<((u64, u64), &[u8]), ReadError>
    ensures value { Gives (λ x. (x.0, x.1.now)) result (numbers_at bytes.now) }
    ensures cause { IfErr result (λ error. error ≡ Malformed) }
{
    let (first, rest) = u64_at(bytes)?;
    let (second, rest) = u64_at(rest)?;
    Ok(((first, second), rest))
}

/// A mode, and the bytes behind it.
#[tactic(auto, unfolding(crate::specs::Reading::mode_at))]
fn mode_of(bytes: &[u8]) -> Result<(Mode, &[u8]), ReadError>
    ensures value { Gives (λ x. (x.0, x.1.now)) result (mode_at bytes.now) }
    ensures cause { IfErr result (λ error. error ≡ Malformed) }
{
    let (number, rest) = u32_at(bytes)?;
    match number {
        0 => Ok((Mode::Shared, rest)),
        1 => Ok((Mode::Exclusive, rest)),
        _ => Err(ReadError::Malformed),
    }
}

/// A want, and the bytes behind it.
#[tactic(auto, unfolding(crate::specs::Reading::want_at))]
pub(crate) fn want_of(bytes: &[u8]) -> Result<(Want, &[u8]), ReadError>
    ensures value { Gives (λ x. (x.0, x.1.now)) result (want_at bytes.now) }
    ensures cause { IfErr result (λ error. error ≡ Malformed) }
{
    let ((session, block), rest) = numbers_of(bytes)?;
    let (mode, rest) = mode_of(rest)?;
    let (number, rest) = u64_at(rest)?;
    let want = Want {
        session,
        block,
        mode,
        number,
    };
    Ok((want, rest))
}

/// A grant, and the bytes behind it.
#[tactic(auto, unfolding(crate::specs::Reading::grant_at))]
pub(crate) fn grant_of(bytes: &[u8]) -> Result<(Grant, &[u8]), ReadError>
    ensures value { Gives (λ x. (x.0, x.1.now)) result (grant_at bytes.now) }
    ensures cause { IfErr result (λ error. error ≡ Malformed) }
{
    let ((session, block), rest) = numbers_of(bytes)?;
    let (mode, rest) = mode_of(rest)?;
    let ((number, index), rest) = numbers_of(rest)?;
    let grant = Grant {
        session,
        block,
        mode,
        number,
        index,
    };
    Ok((grant, rest))
}

/// A revoke, and the bytes behind it.
#[tactic(auto, unfolding(crate::specs::Reading::revoke_at))]
pub(crate) fn revoke_of(bytes: &[u8]) -> Result<(Revoke, &[u8]), ReadError>
    ensures value { Gives (λ x. (x.0, x.1.now)) result (revoke_at bytes.now) }
    ensures cause { IfErr result (λ error. error ≡ Malformed) }
{
    let ((session, block), rest) = numbers_of(bytes)?;
    let ((number, asking), rest) = numbers_of(rest)?;
    let revoke = Revoke {
        session,
        block,
        number,
        asking,
    };
    Ok((revoke, rest))
}

/// A release, and the bytes behind it.
#[tactic(auto, unfolding(crate::specs::Reading::release_at))]
pub(crate) fn release_of(bytes: &[u8]) -> Result<(Release, &[u8]), ReadError>
    ensures value { Gives (λ x. (x.0, x.1.now)) result (release_at bytes.now) }
    ensures cause { IfErr result (λ error. error ≡ Malformed) }
{
    let ((session, block), rest) = numbers_of(bytes)?;
    let ((number, index), rest) = numbers_of(rest)?;
    let release = Release {
        session,
        block,
        number,
        index,
    };
    Ok((release, rest))
}
