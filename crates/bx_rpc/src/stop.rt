//! Why the checks of a call stop short.

use bx_xdr::base::OutOfMemory;

/// Why the checks of a call stop short.
#[derive(Drop)]
pub(crate) enum Stop {
    /// The call is refused: the number of the refusal, and the program that its reply goes by, or 0.
    Refused(u32, u32),
    /// Memory ran out.
    OutOfMemory,
}

impl From<OutOfMemory> for Stop {
    ghost use Rattle.std.specs.Prelude.{◌≡◌};
    ghost use Rattle.bx_rpc.specs.declared.stop.Stop.TheVariants as stops;

    ghost from_gives = { λ _ stop. stop ≡ stops.OutOfMemory };

    fn from(_error: OutOfMemory) -> Stop {
        Stop::OutOfMemory
    }
}
