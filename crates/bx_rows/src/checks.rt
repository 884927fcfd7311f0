//! What is tested of rows that were read, whose numbers fit their fields.

ghost use Rattle.std.specs.Prelude.{◌≡◌, ◌≢◌, ◌<◌, ◌↔◌, IsTrue};
ghost use Rattle.std.specs.List.{AllByRecursion};
ghost use Rattle.bx_rows.specs.Conditions.{AreRising, HaveOwnSlots, IsPlaced};

use crate::device::DeviceRow;
use crate::rows::{NODES, SLOTS};
use crate::session::SessionRow;

/// Whether each row of a session has a node, a slot, an end within the term and a mark.
pub fn are_placed(rows: &[SessionRow], term_end: u64) -> bool
    ensures { IsTrue result ↔ AllByRecursion (IsPlaced term_end) rows.now }
{
    rows.iter().all(|row| is_placed(row, term_end))
}

/// Whether a row of a session has a node, a slot, an end within the term and a mark.
fn is_placed(row: &SessionRow, term_end: u64) -> bool
    ensures { IsTrue result ↔ IsPlaced term_end row.now }
{
    row.node < NODES && row.slot < SLOTS && row.until <= term_end && row.dead < 2
}

/// Whether the numbers rise, and stay below the next one.
pub fn are_rising(rows: &[SessionRow], next_session: u64) -> bool
    ensures { IsTrue result ↔ AreRising rows.now next_session }
{
    match rows {
        [] => true,
        [row, later @ ..] => {
            row.number < next_session
                && are_above(later, row.number)
                && are_rising(later, next_session)
        }
    }
}

/// Whether all numbers are above one.
fn are_above(rows: &[SessionRow], number: u64) -> bool
    ensures { IsTrue result ↔ AllByRecursion (λ row. number < row.number) rows.now }
{
    rows.iter().all(|row| number < row.number)
}

/// Whether no two rows have the same slot.
pub fn have_own_slots(rows: &[SessionRow]) -> bool
    ensures { IsTrue result ↔ HaveOwnSlots rows.now }
{
    match rows {
        [] => true,
        [row, others @ ..] => have_other_slots(others, row.slot) && have_own_slots(others),
    }
}

/// Whether no row has this slot.
fn have_other_slots(rows: &[SessionRow], slot: u32) -> bool
    ensures { IsTrue result ↔ AllByRecursion (λ row. row.slot ≢ slot) rows.now }
{
    rows.iter().all(|row| row.slot != slot)
}

/// Whether each device has a mode.
pub fn have_modes(rows: &[DeviceRow]) -> bool
    ensures { IsTrue result ↔ AllByRecursion (λ row. row.mode < 5) rows.now }
{
    rows.iter().all(|row| row.mode < 5)
}
