//! The state of the cluster, read off the disks of replicas.

ghost use Rattle.std.specs.Prelude.{◌≡◌, ℕ, ◌+◌, ◌^◌, ◌<◌, ◌≤◌, ◌⊎◌, ◌↔◌, length, Option, IfOk, IsErrOf, OnOk, IsTrue, slice_index};
ghost use Rattle.bx_cell.specs.Images.{EachSure};
ghost use Rattle.bx_disk.specs.Kept.{Counted};
ghost use Rattle.bx_facts.specs.Chains.{IsAboveBoots, most_boot};
ghost use Rattle.bx_facts.specs.Disks.{SameDisks};
ghost use Rattle.bx_facts.specs.declared.input.OpenError.TheVariants.{Disk as OpenFails, NoLabel, NoMajority, Spent};
ghost use Rattle.bx_global.specs.Allowed.{IsAllowed};
ghost use Rattle.bx_global.specs.declared.held.Held.{Held};
ghost use Rattle.bx_global.specs.declared.state.GlobalState.{GlobalState};
ghost use Rattle.bx_paxos.specs.Reading.{ReadsState};
ghost use Rattle.bx_paxos.specs.Shown.{HasFound, StandsAsFound};
ghost use Rattle.bx_paxos_found.specs.Finding.{AreAtTheEnd, AreFollowed, IsGreatestBoot, LackMajority};
ghost use Rattle.bx_paxos_found.specs.Origins.{origin_in};

use crate::labels::volume_label;
use crate::looking::look;
use crate::making::{FoundState, make};
use bx_disk::Rack;
use bx_facts::OpenError;
use std::alloc::Global;

/// Makes the whole disks of replicas sure, and reads the cluster's state off them, for a volume of so many devices. A disk that isn't there or lacks
/// sectors counts as one without a label. `NoMajority` exactly where fewer than two are labelled and have a cell that can be read, or no index is left
/// behind the state; else `Spent` exactly where the greatest boot in these cells is that one, and is above 4611686018427387903.
pub fn find<R: Rack>(alloc: Global, rack: &mut R, devices: u32) -> Result<FoundState, OpenError>
    ensures reads { (made : GlobalState) → length made.devices ≡ devices → R.tells rack.old → IfOk result (λ f. ReadsState made (R.state rack.old).sizes (R.state rack.old).reads f.state) }
    ensures found { R.tells rack.old → IfOk result (λ f. (was : ℕ → Option Held) × HasFound f.state (origin_in f.origins) was × EachSure (R.state rack.new) (StandsAsFound f.state (origin_in f.origins) was (R.state rack.new).sizes)) }
    ensures allowed { IfOk result (λ f. IsAllowed f.state) }
    ensures devices { IfOk result (λ f. length f.state.devices ≡ devices) }
    ensures index { IfOk result (λ f. f.state.index + 1 < 2 ^ 64) }
    ensures boots { IfOk result (λ f. IsAboveBoots f.state (f.boot + 1)) }
    ensures no_majority { R.tells rack.old → IsErrOf result NoMajority → LackMajority devices (R.state rack.old).sizes (R.state rack.old).reads ⊎ AreAtTheEnd devices (R.state rack.old).sizes (R.state rack.old).reads }
    ensures majority { R.tells rack.old → OnOk result (LackMajority devices (R.state rack.old).sizes (R.state rack.old).reads → ⊥) }
    ensures spent { (boot : ℕ) → R.tells rack.old → IsErrOf result (Spent boot) → IsGreatestBoot devices (R.state rack.old).sizes (R.state rack.old).reads boot × AreFollowed devices (R.state rack.old).sizes (R.state rack.old).reads }
    ensures above { (boot : ℕ) → IsErrOf result (Spent boot) → most_boot < boot }
    ensures greatest { R.tells rack.old → IfOk result (λ f. IsGreatestBoot devices (R.state rack.old).sizes (R.state rack.old).reads f.boot) }
    ensures few { IfOk result (λ f. f.boot ≤ most_boot) }
    ensures no_label { (disk : ℕ) → IsErrOf result (NoLabel disk) → ⊥ }
    ensures disks { R.tells rack.old → SameDisks (R.state rack.old) (R.state rack.new) }
    ensures rack { Counted R.Rack rack.old rack.new result OpenFails }
{
    let Ok(found) = volume_label(rack, devices) else {
        return Err(OpenError::Disk);
    };
    let Some(label) = found else {
        return Err(OpenError::NoMajority);
    };
    let first = look(alloc, rack, &label, 0, devices)?;
    let second = look(alloc, rack, &label, 1, devices)?;
    let third = look(alloc, rack, &label, 2, devices)?;
    make(first, second, third)
}
