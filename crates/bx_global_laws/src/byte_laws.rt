//! What holds of the bytes of a state and of a cell.

ghost use Rattle.std.specs.Prelude.{◌≡◌, ℕ, ◌+◌, ◌*◌, ◌≤◌, List, length};
ghost use Rattle.bx_global.specs.Allowed.{IsAllowed};
ghost use Rattle.bx_global.specs.Bytes.{IsHeld, Spells, SpellsHeld, held_text, state_text};
ghost use Rattle.bx_global.specs.declared.held.Held.{Held};
ghost use Rattle.bx_global.specs.declared.state.GlobalState.{GlobalState};

/// What is written of a state that meets the conditions is read as that state, and so of what a cell holds.
pub fn written_reads()
    ensures state { (state : GlobalState) → IsAllowed state → Spells state (state_text state) }
    ensures held { (held : Held) (devices : ℕ) → IsHeld devices held → SpellsHeld held (held_text held) devices }
{}

/// The same bytes are never two states, nor two things that a cell holds.
pub fn one_reading()
    ensures state { (a b : GlobalState) (bytes : List ℕ) → Spells a bytes → Spells b bytes → a ≡ b }
    ensures held { (a b : Held) (bytes : List ℕ) (devices others : ℕ) → SpellsHeld a bytes devices → SpellsHeld b bytes others → a ≡ b }
{}

/// How many bytes a state has: at most 516 where it meets the conditions. What a cell holds has at most 1084.
pub fn most_bytes()
    ensures rows { (state : GlobalState) → length (state_text state) ≡ 52 + 44 * length state.sessions + 28 * length state.devices }
    ensures state { (state : GlobalState) → IsAllowed state → length (state_text state) ≤ 516 }
    ensures held { (held : Held) (devices : ℕ) → IsHeld devices held → length (held_text held) ≤ 1084 }
{}
