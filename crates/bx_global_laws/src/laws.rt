//! What holds of each change.

ghost use Rattle.std.specs.Prelude.{◌≡◌, ℕ, ◌+◌, ◌<◌, ◌≤◌, Some, None, IsSomeAnd, slice_get};
ghost use Rattle.bx_global.specs.Allowed.{IsAllowed, IsChange};
ghost use Rattle.bx_global.specs.Opening.{formatted_state, opening_state};
ghost use Rattle.bx_global.specs.Table.{Closes, Concerns, Follows, IsLegal, Shifts, effect};
ghost use Rattle.bx_global.specs.declared.change.Change.TheVariants.{Take};
ghost use Rattle.bx_global.specs.declared.change.Change.{Change};
ghost use Rattle.bx_global.specs.declared.state.GlobalState.{GlobalState};
ghost use Rattle.bx_rows.specs.Rows.{GoesOn};
ghost use Rattle.bx_rows.specs.Words.{row_in};
ghost use Rattle.bx_rows.specs.declared.device.DeviceRow.{DeviceRow};
ghost use Rattle.bx_rows.specs.declared.session.SessionRow.{SessionRow};

/// Numbers rise, and none falls.
pub fn numbers_rise()
    ensures index { (s : GlobalState) (change : Change) → (effect s change).index ≡ s.index + 1 }
    ensures term { (s : GlobalState) (change : Change) → s.term ≤ (effect s change).term }
    ensures term_end { (s : GlobalState) (change : Change) → IsLegal s change → s.term_end ≤ (effect s change).term_end }
    ensures next_session { (s : GlobalState) (change : Change) → s.next_session ≤ (effect s change).next_session }
    ensures epoch { (s : GlobalState) (change : Change) (n : ℕ) (row : DeviceRow) → slice_get s.devices n ≡ Some row → IsSomeAnd (slice_get (effect s change).devices n) (λ new. row.epoch ≤ new.epoch) }
{}

/// A session's row stays until the session is closed. Its number, node, boot, slot and end stay as they are, and once
/// dead it stays dead. A closed session has no row, and a number that is gone doesn't come back.
pub fn sessions_end()
    ensures stays { (s : GlobalState) (change : Change) (number : ℕ) (row : SessionRow) → row_in s.sessions number ≡ Some row → (Closes change number → ⊥) → IsSomeAnd (row_in (effect s change).sessions number) (GoesOn row) }
    ensures closed { (s : GlobalState) (change : Change) (number : ℕ) → Closes change number → row_in (effect s change).sessions number ≡ None }
    ensures gone { (s : GlobalState) (change : Change) (number : ℕ) → number < s.next_session → row_in s.sessions number ≡ None → row_in (effect s change).sessions number ≡ None }
{}

/// A change leaves all sessions and devices that it doesn't concern as they are. Only a lock server that becomes master
/// changes who is master and which term it is.
pub fn others_stay()
    ensures sessions { (s : GlobalState) (change : Change) (number : ℕ) → (Concerns s change number → ⊥) → row_in (effect s change).sessions number ≡ row_in s.sessions number }
    ensures devices { (s : GlobalState) (change : Change) (n : ℕ) → (Shifts change n → ⊥) → slice_get (effect s change).devices n ≡ slice_get s.devices n }
    ensures master { (s : GlobalState) (change : Change) → ((by boot reading : ℕ) → change ≡ Take by boot reading → ⊥) → ((effect s change).master ≡ s.master) × ((effect s change).master_boot ≡ s.master_boot) × ((effect s change).term ≡ s.term) }
{}

/// A legal change of a state that meets the conditions makes one that meets them.
pub fn stays_allowed()
    ensures { (s : GlobalState) (change : Change) → IsAllowed s → IsChange change → IsLegal s change → IsAllowed (effect s change) }
{}

/// The states to begin with meet the conditions, for at most 4 nodes and 1 to 4 devices.
pub fn begins_allowed()
    ensures opening { (nodes devices : ℕ) → nodes ≤ 4 → 1 ≤ devices → devices ≤ 4 → IsAllowed (opening_state nodes devices) }
    ensures formatted { (devices : ℕ) → 1 ≤ devices → devices ≤ 4 → IsAllowed (formatted_state devices) }
{}

/// A legal change leaves a device's row as it is, or leads to a mode that one step leads to, in the next epoch.
pub fn modes_follow()
    ensures { (s : GlobalState) (change : Change) (n : ℕ) (row : DeviceRow) → IsLegal s change → slice_get s.devices n ≡ Some row → IsSomeAnd (slice_get (effect s change).devices n) (Follows row) }
{}
