//! Tidies.

ghost use Rattle.std.specs.Prelude.{◌≡◌, ℕ, true, option_map, IfSome, None};
ghost use Rattle.bx_node_steps.specs.Tidying.{IsToClean, Ticks, is_tidying};

use crate::machine::{Machine, Stage, Tidy};

impl Machine {
    /// Its clock ticks: where no call waits, a tidy that rests does so no more, and where there is none one begins. It takes no memory.
    pub fn tick(&mut self)
        ensures { Ticks self.old self.new }
    {
        let now = self.ticks;
        self.ticks = now.saturating_add(1);
        if self.has_calls() {
            return;
        }
        let tick = match self.tidy {
            Some(tidy) => tidy.tick,
            None => now,
        };
        self.tidy = Some(Tidy { tick, rests: false });
    }

    /// Whether a tidy is under way: there is one, and it doesn't rest.
    pub fn is_tidying(&self) -> bool
        ensures { result ≡ is_tidying self.now }
    {
        match self.tidy {
            Some(tidy) => !tidy.rests,
            None => false,
        }
    }

    /// Its tidy rests, until a tick at which no call waits.
    pub fn rest(&mut self)
        ensures { self.new ≡ record self.old { tidy = option_map (λ tidy. record { tick = tidy.tick; rests = true }) self.old.tidy } }
    {
        if let Some(tidy) = self.tidy {
            self.tidy = Some(Tidy {
                tick: tidy.tick,
                rests: true,
            });
        }
    }

    /// The area that is to be cleaned now: where a tidy is under way, no call waits, and the log rests.
    pub fn to_clean(&self) -> Option<u16>
        ensures some { IfSome result (IsToClean self.now) }
        ensures none { result ≡ None → (area : ℕ) → IsToClean self.now area → ⊥ }
    {
        let tidy = self.tidy?;
        if tidy.rests {
            return None;
        }
        if self.has_calls() {
            return None;
        }
        let Stage::Idle = self.stage else {
            return None;
        };
        let (_, areas) = self.cache.volume();
        Some((tidy.tick % u64::from(areas)) as u16)
    }
}
