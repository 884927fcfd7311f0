//! What holds where all machines crash, or start again.

ghost use Rattle.std.specs.Prelude.{◌≡◌, ℕ, None};
ghost use Rattle.bx_base.specs.declared.names.Actor.{Actor};
ghost use Rattle.bx_world_events.specs.Refusals.{Seen, clock_back, refusal};
ghost use Rattle.bx_world_events.specs.declared.event.Event.TheVariants.{Crash, Restart};
ghost use Rattle.bx_driver.specs.Machines.{IsDown, IsUp};

/// A machine that is up isn't refused a crash, and one that is down is refused a restart for nothing but its reading.
pub fn each_may_go()
    ensures crash { (seen : Seen) (who : Actor) → IsUp seen who → refusal seen (Crash who) ≡ None }
    ensures restart { (seen : Seen) (reading : ℕ) (who : Actor) → IsDown seen who → refusal seen (Restart reading who) ≡ clock_back seen (Restart reading who) }
{}
