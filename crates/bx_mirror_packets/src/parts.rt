//! What bodies begin with, read from the front of bytes.

ghost use Rattle.std.specs.Prelude.{◌≡◌};
ghost use Rattle.bx_base.specs.Reading.{Gives};
ghost use Rattle.bx_mirror_packets.specs.Reading.{extent_at, head_at, piece_at};

use bx_base::{ReadError, u32_at, u64_at};
use bx_rows::pair_of;

/// What writes and reads and their answers begin with.
#[derive(Clone, Copy)]
pub(crate) struct Head {
    /// The session.
    pub(crate) session: u64,
    /// The device.
    pub(crate) device: u32,
    /// The device's epoch.
    pub(crate) epoch: u64,
    /// The number of the write or the read.
    pub(crate) number: u64,
}

impl Head {
    /// The head of a session's write or read.
    pub(crate) fn of(session: u64, device: u32, epoch: u64, number: u64) -> Head
        ensures { result ≡ record { session = session; device = device; epoch = epoch; number = number } }
    {
        Head {
            session,
            device,
            epoch,
            number,
        }
    }
}

/// What pieces of copies begin with.
#[derive(Clone, Copy)]
pub(crate) struct Piece {
    /// The device.
    pub(crate) device: u32,
    /// The device's epoch.
    pub(crate) epoch: u64,
    /// The first sector.
    pub(crate) place: u64,
}

/// The head at the front, and the bytes behind it.
#[tactic(auto, unfolding(crate::specs::Reading::head_at))]
pub(crate) fn head_of(bytes: &[u8]) -> Result<(Head, &[u8]), ReadError>
    ensures { Gives (λ x. (x.0, x.1.now)) result (head_at bytes.now) }
{
    let (session, rest) = u64_at(bytes)?;
    let ((device, epoch), rest) = pair_of(rest)?;
    let (number, rest) = u64_at(rest)?;
    Ok((Head::of(session, device, epoch, number), rest))
}

/// What a piece of a copy begins with, and the bytes behind it.
#[tactic(auto, unfolding(crate::specs::Reading::piece_at))]
pub(crate) fn piece_of(bytes: &[u8]) -> Result<(Piece, &[u8]), ReadError>
    ensures { Gives (λ x. (x.0, x.1.now)) result (piece_at bytes.now) }
{
    let ((device, epoch), rest) = pair_of(bytes)?;
    let (place, rest) = u64_at(rest)?;
    let piece = Piece {
        device,
        epoch,
        place,
    };
    Ok((piece, rest))
}

/// A first sector and how many there are, and the bytes behind them.
#[tactic(auto, unfolding(crate::specs::Reading::extent_at))]
pub(crate) fn extent_of(bytes: &[u8]) -> Result<((u64, u32), &[u8]), ReadError>
    ensures { Gives (λ x. (x.0, x.1.now)) result (extent_at bytes.now) }
{
    let (place, rest) = u64_at(bytes)?;
    let (sectors, rest) = u32_at(rest)?;
    Ok(((place, sectors), rest))
}
