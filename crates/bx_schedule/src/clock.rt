//! The clock of a schedule.

ghost use Rattle.std.specs.Prelude.{◌≡◌, IfErr, IfSome, None, OnErr, OnOk, Some, max};
ghost use Rattle.bx_cluster.specs.Steps.{greatest_reading};
ghost use Rattle.bx_schedule.specs.Refusing.{back_at};

use bx_lease::BackBy;
use bx_world_events::{ClockRule, EventError};

/// Takes a reading of a line. It is refused where it lies too far behind the greatest one, and then nothing changes. It takes no memory.
pub(crate) fn take_reading(clock: &mut ClockRule, reading: u64) -> Result<(), EventError>
    ensures taken { OnOk result ((back_at clock.old reading ≡ None) × (clock.new ≡ max clock.old reading)) }
    ensures why { IfErr result (λ error. back_at clock.old reading ≡ Some error) }
    ensures same { OnErr result (clock.new ≡ clock.old) }
{
    match clock.take(reading) {
        Ok(()) => Ok(()),
        Err(BackBy(by)) => Err(EventError::ClockBack(by)),
    }
}

/// The clock behind an event that isn't refused for its reading. It takes no memory.
pub(crate) fn clock_after(clock: ClockRule, reading: Option<u64>) -> ClockRule
    requires { IfSome reading (λ its. back_at clock its ≡ None) }
    ensures { result ≡ greatest_reading reading clock }
{
    let Some(its) = reading else {
        return clock;
    };
    let mut later = clock;
    match take_reading(&mut later, its) {
        Ok(()) => later,
        Err(_) => clock,
    }
}
