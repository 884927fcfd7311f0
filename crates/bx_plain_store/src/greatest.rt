//! The greatest reading of a clock.

ghost use Rattle.std.specs.Prelude.{◌≡◌, max};
ghost use Rattle.bx_facts.specs.Inputs.{greatest_with};

use bx_facts::Input;

/// The greater of two readings.
pub(crate) fn later(greatest: u64, reading: u64) -> u64
    ensures { result ≡ max greatest reading }
{
    if greatest < reading {
        reading
    } else {
        greatest
    }
}

/// The greatest reading, with that of an input.
pub(crate) fn heard(greatest: u64, input: &Input) -> u64
    ensures { result ≡ greatest_with greatest input.now }
{
    match input {
        Input::Packet(_packet, reading) => later(greatest, *reading),
        Input::Tick(reading) => later(greatest, *reading),
        Input::Synced => greatest,
    }
}
