//! What a line that a cluster refuses is to a replay.

ghost use Rattle.std.specs.Prelude.{◌≡◌};
ghost use Rattle.bx_replay.specs.Stops.{stop_of};

use bx_opens::EventError;
use bx_stops::{Reason, Stop};

/// Why a replay stops where the line with this number is refused so.
pub(crate) fn stop_of(number: u64, error: EventError) -> Stop
    ensures { result ≡ stop_of number error }
{
    match error {
        EventError::NoSuchMachine => Stop::Refused(number, Reason::NoMachine),
        EventError::ClockBack(by) => Stop::Refused(number, Reason::ClockBack(by)),
        EventError::NoSuchPacket(packet) => Stop::Refused(number, Reason::NoPacket(packet)),
        EventError::Up => Stop::Refused(number, Reason::Up),
        EventError::Down => Stop::Refused(number, Reason::Down),
        EventError::NothingToSync => Stop::Refused(number, Reason::NothingToSync),
        EventError::StillNeeded => Stop::Refused(number, Reason::StillNeeded),
        EventError::OutOfMemory => Stop::OutOfMemory,
    }
}
