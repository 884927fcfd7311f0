//! Acceptors.

ghost use Rattle.std.specs.Prelude.{◌≡◌, ℕ, ◌+◌, ◌^◌, ◌<◌, ◌≤◌, ◌⊎◌, None, Some, IfOk, IfSome, IsErrOf, OnErr, OnOk, slice_index};
ghost use Rattle.bx_base.specs.declared.names.Actor.{Actor};
ghost use Rattle.bx_disk.specs.Counts.{NoneRose};
ghost use Rattle.bx_disk.specs.Kept.{CountedOn};
ghost use Rattle.bx_calls.specs.Calls.{LeavesOnly};
ghost use Rattle.bx_calls.specs.Regions.{IsSynced};
ghost use Rattle.bx_cell.specs.Images.{EachSure};
ghost use Rattle.bx_cell.specs.Cells.{HasEither, next, with_value};
ghost use Rattle.bx_facts.specs.declared.input.FactError.TheVariants.{Disk as DiskFails, OutOfMemory as MemoryFails};
ghost use Rattle.bx_global.specs.Allowed.{IsAllowed};
ghost use Rattle.bx_global.specs.Bytes.{held_text};
ghost use Rattle.bx_packets.specs.declared.message.Message.{Message};
ghost use Rattle.bx_places.specs.Places.{replica_sectors};
ghost use Rattle.bx_acceptor.specs.Disks.{Syncs, Writes};
ghost use Rattle.bx_answers.specs.Handling.{Changes, MayBecome};
ghost use Rattle.bx_acceptor.specs.Standing.{Answers, BecomesBy, Brings, HasCell, IsAcceptorView, Takes, TakesIn, devices_of, stopped, without_cell};
ghost use Rattle.bx_acceptor.specs.Starting.{StartsWith};

use crate::hearing::heard;
use crate::origin::Origin;
use crate::serving::serve;
use crate::starting::begin;
use bx_answers::first_held;
use bx_base::OutOfMemory;
use bx_cell::Cell;
use bx_disk::Rack;
use bx_facts::{FactError, Input};
use bx_global::{GlobalState, Held};
use bx_post::Outbox;
use std::alloc::Global;
use std::marker::Model;

/// The acceptor of a replica, whose number is that of its disk. It answers a packet only once what the answer says stands
/// in the cell on its disk. Without a cell that can be read it takes no packet, and after a fault it takes none until it
/// starts again.
#[derive(Drop)]
pub struct Acceptor {
    alloc: Global,
    replica: u32,
    first: GlobalState,
    origin: Origin,
    held: Held,
    cell: Option<Cell>,
}

impl Model for Acceptor {
    ghost use Rattle.bx_acceptor.specs.Standing.{IsAcceptorView, AcceptorView};

    ghost Value = { AcceptorView };

    ghost view = { λ a. record { replica = a.replica; first = a.first; origin = a.origin; held = a.held; cell = a.cell } };

    ghost invariant = { λ a. IsAcceptorView (record { replica = a.replica; first = a.first; origin = a.origin; held = a.held; cell = a.cell }) };
}

impl Acceptor {
    /// The state that it knows: the last one of which it knows that it was decided. It takes no memory.
    pub fn known(&self) -> &GlobalState
        ensures { result.now ≡ self.now.held.decided }
    {
        &self.held.decided
    }

    /// The acceptor of a replica of a volume that begins with a state. It has no cell until it starts.
    pub fn new(
        alloc: Global,
        replica: u32,
        state: &GlobalState,
        origin: Origin,
    ) -> Result<Acceptor, OutOfMemory>
        requires state { IsAllowed state.now }
        requires index { state.now.index + 1 < 2 ^ 64 }
        ensures { IfOk result (λ a. a ≡ without_cell replica state.now origin) }
    {
        Ok(Acceptor {
            alloc,
            replica,
            first: state.copy(alloc)?,
            origin,
            held: first_held(alloc, state)?,
            cell: None,
        })
    }

    /// The number of its replica, which is that of its disk.
    pub fn replica(&self) -> u32
        ensures { result ≡ self.now.replica }
    {
        self.replica
    }

    /// Starts, with what its disk holds. Where that has no cell that can be read, or the replica takes no part, it knows the first state, and
    /// takes no packet. Where its cell stands as it was found, it knows the first state and keeps its promise.
    pub fn restart<R: Rack>(&mut self, rack: &mut R) -> Result<(), FactError>
        requires room { replica_sectors ≤ slice_index (R.state rack.old).sizes self.old.replica }
        ensures starts { R.tells rack.old → OnOk result (StartsWith self.old.replica self.old.first self.old.origin ((R.state rack.old).reads self.old.replica) self.new.held self.new.cell) }
        ensures failed { OnErr result (self.new ≡ stopped self.old) }
        ensures stays { (self.new.replica ≡ self.old.replica) × (self.new.first ≡ self.old.first) × (self.new.origin ≡ self.old.origin) }
        ensures standing { IsAcceptorView self.new }
        ensures holds { R.tells rack.old → OnOk result (EachSure (R.state rack.new) (HasCell self.new)) }
        ensures sure { R.tells rack.old → OnOk result (IsSynced (R.state rack.new) self.old.replica) }
        ensures disks { R.tells rack.old → Syncs (R.state rack.old) (R.state rack.new) (R.moment rack.old) (R.moment rack.new) (R.left_since rack.old) (R.left_since rack.new) self.old.replica }
        ensures memory { IsErrOf result MemoryFails → NoneRose (R.faults rack.old) (R.faults rack.new) (R.faults_of rack.old) (R.faults_of rack.new) }
        ensures rack { CountedOn R.Rack rack.old rack.new self.old.replica result DiskFails }
    {
        self.cell = None;
        let (held, cell) = begin(self.alloc, rack, self.replica, &self.first, self.origin)?;
        self.held = held;
        self.cell = cell;
        Ok(())
    }

    /// Takes what comes. A packet that says nothing to an acceptor is passed over, and so are the clock and syncs.
    pub fn take<R: Rack>(
        &mut self,
        rack: &mut R,
        input: &Input,
        out: &mut Outbox,
    ) -> Result<(), FactError>
        requires room { IfSome self.old.cell (λ _. replica_sectors ≤ slice_index (R.state rack.old).sizes self.old.replica) }
        ensures answers { (message : Message) (from : Actor) → Brings (devices_of self.old) input.now message from → Takes self.old message
            → OnOk result (Answers self.old.replica self.old.held message from self.new.held out.old out.new) }
        ensures ignores { ((message : Message) (from : Actor) → Brings (devices_of self.old) input.now message from → Takes self.old message → ⊥)
            → (self.new ≡ self.old) × (out.new ≡ out.old) × (rack.new ≡ rack.old) }
        ensures took { OnOk result (TakesIn self.old input.now self.new out.old out.new (rack.new ≡ rack.old)) }
        ensures became { BecomesBy self.old input.now self.new.held }
        ensures unsent { OnErr result (out.new ≡ out.old) }
        ensures becomes { (message : Message) (from : Actor) → Brings (devices_of self.old) input.now message from → MayBecome self.old.held message self.new.held }
        ensures stored { OnOk result (IfSome self.old.cell (λ cell. (self.new.cell ≡ Some (with_value cell (held_text self.new.held))) ⊎ ((self.new ≡ self.old) × (rack.new ≡ rack.old)))) }
        ensures spare { (message : Message) (from : Actor) → Brings (devices_of self.old) input.now message from → (Changes self.old.held message → ⊥) → rack.new ≡ rack.old }
        ensures fault { IsErrOf result DiskFails → self.new.cell ≡ None }
        ensures failed { OnErr result ((self.new ≡ self.old) ⊎ (self.new.cell ≡ None)) }
        ensures stays { (self.new.replica ≡ self.old.replica) × (self.new.first ≡ self.old.first) × (self.new.origin ≡ self.old.origin) }
        ensures standing { IsAcceptorView self.new }
        ensures holds { R.tells rack.old → EachSure (R.state rack.old) (HasCell self.old) → OnOk result (EachSure (R.state rack.new) (HasCell self.new)) }
        ensures any_moment { IfSome self.old.cell (λ cell. R.tells rack.old → EachSure (R.state rack.old) (HasCell self.old)
            → LeavesOnly (R.moment rack.old) (R.moment rack.new) (R.left_since rack.old) (R.left_since rack.new) (HasEither (R.state rack.old) self.old.replica 1 cell.found (next cell.found (held_text self.new.held)))) }
        ensures either { IfSome self.old.cell (λ cell. R.tells rack.old → EachSure (R.state rack.old) (HasCell self.old)
            → EachSure (R.state rack.new) (HasEither (R.state rack.old) self.old.replica 1 cell.found (next cell.found (held_text self.new.held)))) }
        ensures disks { R.tells rack.old → Writes (R.state rack.old) (R.state rack.new) (R.moment rack.old) (R.moment rack.new) (R.left_since rack.old) (R.left_since rack.new) self.old.replica }
        ensures memory { IsErrOf result MemoryFails → NoneRose (R.faults rack.old) (R.faults rack.new) (R.faults_of rack.old) (R.faults_of rack.new) }
        ensures rack { CountedOn R.Rack rack.old rack.new self.old.replica result DiskFails }
    {
        let devices = self.first.devices.len() as u32;
        let Some((from, message)) = heard(self.alloc, &self.cell, input, devices)? else {
            return Ok(());
        };
        let Some(mut cell) = self.cell.take() else {
            return Ok(());
        };
        let held = &mut self.held;
        serve(
            self.alloc,
            rack,
            self.replica,
            &mut cell,
            held,
            message,
            from,
            out,
        )?;
        self.cell = Some(cell);
        Ok(())
    }

    /// Stops until it starts again. What it knows stays. It takes no memory.
    pub fn crash(&mut self)
        ensures { self.new ≡ stopped self.old }
    {
        self.cell = None;
    }
}
