//! The closing of the log.

ghost use Rattle.std.specs.Prelude.{◌≡◌, ℕ, ◌<◌, List, [], ◌∷◌, IfOk, OnOk, OnErr};
ghost use Rattle.bx_disk.specs.Kept.{Fails};
ghost use Rattle.bx_plain_repair.specs.Bench.{AreLong};
ghost use Rattle.bx_plain_repair.specs.Left.{IsClosed};
ghost use Rattle.bx_plain_repair.specs.Resting.{StandsAs, closes_log, shuts_log};
ghost use Rattle.bx_plain_repair.specs.Spared.{SparesOthers};
ghost use Rattle.bx_model.specs.declared.tree.Tree.{Tree};
ghost use Rattle.bx_redo.specs.Steps.{shut_text};
ghost use Rattle.bx_volume.specs.Records.{Logged};
ghost use Rattle.bx_layout.specs.Labels.{gate_text};
ghost use Rattle.bx_layout.specs.declared.gate.Gate.TheVariants.{Closed as Shut};

use crate::through::write_through;
use bx_base::{List, OutOfMemory, Raw};
use bx_disk::{Rack, RackError};
use bx_layout::Gate;
use bx_places::SECTOR;
use bx_records::Run;
use std::alloc::Global;

/// The sector of a member at which gate 0 of slot 0 stands.
const GATE: u64 = 1;

/// The first of the sectors at which the seven other gates stand.
const OTHERS: u64 = 2;

/// Closes gate 0 of a log whose blocks are home: it has no records any more.
pub(crate) fn close_first<R: Rack>(alloc: Global, rack: &mut R) -> Result<(), RackError>
    requires long { AreLong (R.state rack.old).sizes }
    ensures closes { (volume floor count : ℕ) (tree : Tree) (records : List Logged) → R.tells rack.old → 0 < count → StandsAs volume floor tree records (closes_log count) (R.state rack.old)
        → OnOk result (StandsAs volume floor tree [] shuts_log (R.state rack.new)) }
    ensures stands { (volume floor count : ℕ) (tree : Tree) (records : List Logged) → R.tells rack.old → 0 < count → StandsAs volume floor tree records (closes_log count) (R.state rack.old)
        → OnErr result (StandsAs volume floor tree records (closes_log count) (R.state rack.new)) }
    ensures spares { R.tells rack.old → SparesOthers (R.state rack.old) (R.state rack.new) }
    ensures rack { Fails R.Rack rack.old rack.new result }
{
    let runs = first_gate(alloc)?;
    write_through(rack, runs)?;
    Ok(())
}

/// Closes the other gates of a log that has no records: all eight are closed then.
pub(crate) fn close_others<R: Rack>(alloc: Global, rack: &mut R) -> Result<(), RackError>
    requires long { AreLong (R.state rack.old).sizes }
    ensures closes { (volume floor : ℕ) (tree : Tree) → R.tells rack.old → StandsAs volume floor tree [] shuts_log (R.state rack.old) → OnOk result (IsClosed volume tree (R.state rack.new)) }
    ensures stands { (volume floor : ℕ) (tree : Tree) → R.tells rack.old → StandsAs volume floor tree [] shuts_log (R.state rack.old)
        → OnErr result (StandsAs volume floor tree [] shuts_log (R.state rack.new)) }
    ensures spares { R.tells rack.old → SparesOthers (R.state rack.old) (R.state rack.new) }
    ensures rack { Fails R.Rack rack.old rack.new result }
{
    let runs = other_gates(alloc)?;
    write_through(rack, runs)?;
    Ok(())
}

/// The run that closes gate 0.
fn first_gate(alloc: Global) -> Result<List<Run>, OutOfMemory>
    ensures { IfOk result (λ runs. runs ≡ record { device = 0; place = 1; bytes = gate_text Shut } ∷ []) }
{
    let mut sector = [0; SECTOR];
    Gate::Closed.write(&mut sector);
    one_run(alloc, GATE, Raw::of(alloc, &sector)?)
}

/// The run that closes the others.
fn other_gates(alloc: Global) -> Result<List<Run>, OutOfMemory>
    ensures { IfOk result (λ runs. runs ≡ record { device = 0; place = 2; bytes = shut_text } ∷ []) }
{
    one_run(alloc, OTHERS, closed_gates(alloc)?)
}

/// The sectors of the seven gates behind gate 0, closed.
#[tactic(auto, unfolding(bx_redo::specs::Steps::shut_text))]
fn closed_gates(alloc: Global) -> Result<Raw, OutOfMemory>
    ensures { IfOk result (λ bytes. bytes ≡ shut_text) }
{
    let bytes = vec![in alloc; 0u8; 3584]?;
    Ok(Raw::from(bytes))
}

/// One run, from a sector of the one device on.
fn one_run(alloc: Global, place: u64, bytes: Raw) -> Result<List<Run>, OutOfMemory>
    ensures { IfOk result (λ runs. runs ≡ record { device = 0; place = place; bytes = bytes } ∷ []) }
{
    let mut runs = List::new(alloc);
    runs.push(Run {
        device: 0,
        place,
        bytes,
    })?;
    Ok(runs)
}
