//! The state of the cluster, read off the disks of replicas, which stay as they are.

ghost use Rattle.std.specs.Prelude.{◌≡◌, ◌+◌, ◌<◌, ◌≤◌, ◌⊎◌, length, None, Some, IfOk, IfSome, IfNone, slice_index};
ghost use Rattle.bx_acceptor.specs.Standing.{IsFound, IsNotFound};
ghost use Rattle.bx_cell.specs.Halves.{Found};
ghost use Rattle.bx_disk.specs.Kept.{Fails, FailsOn};
ghost use Rattle.bx_facts.specs.Labelled.{IsFirstLabel};
ghost use Rattle.bx_global.specs.Bytes.{IsHeld};
ghost use Rattle.bx_global.specs.declared.state.GlobalState.{GlobalState};
ghost use Rattle.bx_paxos.specs.Reading.{ReadsState};
ghost use Rattle.bx_paxos_found.specs.Finding.{IsSeen, LackMajority, count_of, held_of};
ghost use Rattle.bx_paxos_found.specs.Choosing.{chosen_of};

use crate::choosing::chosen;
use crate::labels::{is_of_volume, is_whole, volume_label};
use crate::looking::{CELL, Seen};
use crate::making::{count_of, held_of};
use bx_cell::read_cell;
use bx_disk::{Rack, RackError};
use bx_global::{GlobalState, Held};
use bx_layout::Label;
use std::alloc::Global;

/// Reads the cell of a replica; `None` exactly where none can be read.
fn cell_seen<R: Rack>(
    alloc: Global,
    rack: &mut R,
    replica: u32,
    devices: u32,
) -> Result<Option<Seen>, RackError>
    requires { 21 ≤ slice_index (R.state rack.old).sizes replica }
    ensures some { R.tells rack.old → IfOk result (λ seen. IfSome seen (λ x. (found : Found) × (found.number ≡ x.number) × IsFound devices ((R.state rack.old).reads replica) found x.held)) }
    ensures none { R.tells rack.old → IfOk result (λ seen. IfNone seen (IsNotFound devices ((R.state rack.old).reads replica))) }
    ensures held { IfOk result (λ seen. IfSome seen (λ x. IsHeld devices x.held)) }
    ensures stays { R.state rack.new ≡ R.state rack.old }
    ensures rack { FailsOn R.Rack rack.old rack.new replica result }
{
    let Some(cell) = read_cell(alloc, rack, replica, CELL)? else {
        return Ok(None);
    };
    match Held::read(alloc, cell.value.bytes(), devices)? {
        Some(held) => Ok(Some(Seen {
            number: cell.number,
            held,
        })),
        None => Ok(None),
    }
}

/// Looks at a replica, where the first label is known: `None` exactly where it isn't labelled, or its disk has no cell that can be read.
fn view<R: Rack>(
    alloc: Global,
    rack: &mut R,
    first: &Label,
    replica: u32,
    devices: u32,
) -> Result<Option<Seen>, RackError>
    requires low { replica < 3 }
    ensures seen { R.tells rack.old → IsFirstLabel (R.state rack.old).sizes (R.state rack.old).reads first.now → first.now.devices ≡ devices → IfOk result (IsSeen devices (R.state rack.old).sizes (R.state rack.old).reads replica) }
    ensures held { IfOk result (λ seen. IfSome seen (λ x. IsHeld devices x.held)) }
    ensures stays { R.state rack.new ≡ R.state rack.old }
    ensures rack { Fails R.Rack rack.old rack.new result }
{
    if !is_whole(rack, replica) {
        return Ok(None);
    }
    let labelled = is_of_volume(rack, first, replica)?;
    if labelled {
        let seen = cell_seen(alloc, rack, replica, devices)?;
        Ok(seen)
    } else {
        Ok(None)
    }
}

/// What three replicas are read as: `None` exactly where fewer than two are seen.
fn read_as(first: Option<Seen>, second: Option<Seen>, third: Option<Seen>) -> Option<GlobalState>
    ensures some { IfSome result (λ state. (2 ≤ count_of first + (count_of second + count_of third)) × (chosen_of (held_of first) (held_of second) (held_of third) ≡ Some state)) }
    ensures none { IfNone result ((count_of first + (count_of second + count_of third) < 2) ⊎ (chosen_of (held_of first) (held_of second) (held_of third) ≡ None)) }
{
    if count_of(&first) + (count_of(&second) + count_of(&third)) < 2 {
        return None;
    }
    chosen(held_of(first), held_of(second), held_of(third))
}

/// Reads the cluster's state off the disks of replicas, for a volume of so many devices, and changes nothing. A disk that isn't there or lacks sectors counts
/// as one without a label. `None` exactly where fewer than two replicas are labelled and have a cell that can be read.
pub fn read_state<R: Rack>(
    alloc: Global,
    rack: &mut R,
    devices: u32,
) -> Result<Option<GlobalState>, RackError>
    ensures some { R.tells rack.old → IfOk result (λ read. IfSome read (λ state. (length state.devices ≡ devices) × ((made : GlobalState) → length made.devices ≡ devices → ReadsState made (R.state rack.old).sizes (R.state rack.old).reads state))) }
    ensures none { R.tells rack.old → IfOk result (λ read. IfNone read (LackMajority devices (R.state rack.old).sizes (R.state rack.old).reads)) }
    ensures stays { R.state rack.new ≡ R.state rack.old }
    ensures rack { Fails R.Rack rack.old rack.new result }
{
    let Some(label) = volume_label(rack, devices)? else {
        return Ok(None);
    };
    let first = view(alloc, rack, &label, 0, devices)?;
    let second = view(alloc, rack, &label, 1, devices)?;
    let third = view(alloc, rack, &label, 2, devices)?;
    Ok(read_as(first, second, third))
}
