//! A register on one machine.

ghost use Rattle.std.specs.Prelude.{◌≡◌, ◌+◌, ◌^◌, ◌<◌, ◌≤◌, ℕ, [], Contains};
ghost use Rattle.bx_global.specs.Allowed.{IsAllowed};
ghost use Rattle.bx_facts.specs.Chains.{IsAboveBoots};

use crate::busy::{is_in, take_out};
use bx_base::{Actor, OutOfMemory};
use bx_disk::Rack;
use bx_facts::{FactError, Input, OpenError, Outbox, ProposeError, Register};
use bx_global::{Change, GlobalState};
use std::alloc::Global;
use std::marker::Model;

/// One state, which every machine knows. No change is ever decided, so a proposal stays out until its machine starts again.
#[derive(Drop)]
pub struct PlainRegister {
    alloc: Global,
    nodes: u32,
    state: GlobalState,
    busy: Vec<Actor>,
}

impl Model for PlainRegister {
    ghost use Rattle.bx_plain.specs.Standing.{IsPlain, Plain};

    ghost Value = { Plain };

    ghost view = { λ g. record { nodes = g.nodes; state = g.state; busy = g.busy.items } };

    ghost invariant = { λ g. IsPlain (record { nodes = g.nodes; state = g.state; busy = g.busy.items }) };
}

impl PlainRegister {
    /// A register of so many nodes that knows this state, in which no boot is above 0. It takes no memory.
    pub fn new(alloc: Global, nodes: u32, state: GlobalState) -> PlainRegister
        requires allowed { IsAllowed state }
        requires boots { IsAboveBoots state 1 }
        ensures made { (result.state ≡ state) × (result.nodes ≡ nodes) }
        ensures new { result.busy ≡ [] }
    {
        PlainRegister {
            alloc,
            nodes,
            state,
            busy: Vec::new(alloc),
        }
    }
}

impl Register for PlainRegister {
    ghost use Rattle.std.specs.Prelude.{[], refl, IfOk, IsErrOf, OnErr, OnOk};
    ghost use Rattle.bx_base.specs.declared.names.Actor.{Actor};
    ghost use Rattle.bx_disk.specs.Kept.{Counted};
    ghost use Rattle.bx_facts.specs.Chains.{most_boot};
    ghost use Rattle.bx_facts.specs.Disks.{SameDisks, SameLabels, SameMembers, TellNoState};
    ghost use Rattle.bx_facts.specs.declared.input.FactError.TheVariants.{Disk as DiskFails};
    ghost use Rattle.bx_facts.specs.declared.input.OpenError.TheVariants.{Disk as OpenFails, NoLabel, NoMajority, Spent};
    ghost use Rattle.bx_facts.specs.Pasts.{found_register, opening_register};
    ghost use Rattle.bx_plain.specs.Standing.{IsUnchanged, is_allowed, is_legal, is_next, is_place, needs_little, needs_of, one_value};

    ghost made = { λ g. g.state };

    ghost nodes = { λ g. g.nodes };

    ghost is_new = { λ g. g.busy ≡ [] };

    ghost knows = { λ g who. g.state };

    ghost is_busy = { λ g who. Contains g.busy who };

    ghost needs = { λ g disk. needs_of g disk };

    ghost keeps = { λ g x past. IsUnchanged g.state past };

    ghost reads_as = { λ made sizes image s. s ≡ made };

    ghost boot_in = { λ made sizes image boot. boot ≡ 0 };

    fn known(&self, _who: Actor) -> &GlobalState {
        &self.state
    }

    fn propose(
        &mut self,
        who: Actor,
        change: &Change,
        _out: &mut Outbox,
    ) -> Result<(), ProposeError> {
        if self.state.changed(self.alloc, change)?.is_none() {
            return Err(ProposeError::NotLegal);
        }
        if is_in(&self.busy, &who) {
            return Err(ProposeError::Busy);
        }
        self.busy.push(who).map_err(OutOfMemory::from)?;
        Ok(())
    }

    fn take<R: Rack>(
        &mut self,
        _rack: &mut R,
        _at: Actor,
        _input: &Input,
        _out: &mut Outbox,
    ) -> Result<(), FactError> {
        Ok(())
    }

    fn crash(&mut self, _who: Actor) {}

    fn restart<R: Rack>(
        &mut self,
        _rack: &mut R,
        who: Actor,
        _boot: u64,
        _out: &mut Outbox,
    ) -> Result<(), FactError> {
        take_out(&mut self.busy, &who);
        Ok(())
    }

    fn format<R: Rack>(&mut self, _rack: &mut R) -> Result<(), FactError>
        ensures keeps { R.tells _rack.old → self.old.busy ≡ [] → OnOk result (IsUnchanged self.new.state (opening_register self.old.state)) }
        ensures knows { self.old.busy ≡ [] → (who : Actor) → OnOk result (self.new.state ≡ self.old.state) }
        ensures idle { self.old.busy ≡ [] → (who : Actor) → OnOk result (Contains self.new.busy who → ⊥) }
        ensures made { (self.new.state ≡ self.old.state) × (self.new.nodes ≡ self.old.nodes) }
        ensures members { R.tells _rack.old → SameMembers (R.state _rack.old) (R.state _rack.new) × SameLabels (R.state _rack.old) (R.state _rack.new) }
        ensures rack { Counted R.Rack _rack.old _rack.new result DiskFails }
        ensures quiet { _rack.new ≡ _rack.old }
        ensures formats { OnErr result ⊥ }
    {
        let _state = &self.state;
        Ok(())
    }

    fn open<R: Rack>(&mut self, _rack: &mut R) -> Result<u64, OpenError>
        ensures keeps { R.tells _rack.old → self.old.busy ≡ [] → IfOk result (λ boot. IsUnchanged self.new.state (found_register self.new.state boot)) }
        ensures found { R.tells _rack.old → self.old.busy ≡ [] → OnOk result (self.new.state ≡ self.old.state) }
        ensures few { IfOk result (λ boot. boot ≤ most_boot) }
        ensures no_label { (disk : ℕ) → IsErrOf result (NoLabel disk) → ⊥ }
        ensures no_majority { R.tells _rack.old → self.old.busy ≡ [] → IsErrOf result NoMajority → TellNoState (λ sizes image s. s ≡ self.old.state) (R.state _rack.old) }
        ensures majority { R.tells _rack.old → self.old.busy ≡ [] → OnOk result (TellNoState (λ sizes image s. s ≡ self.old.state) (R.state _rack.old) → ⊥) }
        ensures greatest { R.tells _rack.old → self.old.busy ≡ [] → IfOk result (λ boot. boot ≡ 0) }
        ensures spent { (boot : ℕ) → R.tells _rack.old → self.old.busy ≡ [] → IsErrOf result (Spent boot) → (boot ≡ 0) × (TellNoState (λ sizes image s. s ≡ self.old.state) (R.state _rack.old) → ⊥) }
        ensures above { (boot : ℕ) → IsErrOf result (Spent boot) → most_boot < boot }
        ensures boots { self.old.busy ≡ [] → IfOk result (λ boot. ∥ IsAboveBoots self.new.state (boot + 1) ∥₁) }
        ensures knows { self.old.busy ≡ [] → (who : Actor) → OnOk result (self.new.state ≡ self.new.state) }
        ensures idle { self.old.busy ≡ [] → (who : Actor) → OnOk result (Contains self.new.busy who → ⊥) }
        ensures needs { self.old.busy ≡ [] → (disk : ℕ) → OnOk result (needs_of self.new disk ≡ 0) }
        ensures made { (self.new.state ≡ self.old.state) × (self.new.nodes ≡ self.old.nodes) }
        ensures disks { R.tells _rack.old → SameDisks (R.state _rack.old) (R.state _rack.new) }
        ensures rack { Counted R.Rack _rack.old _rack.new result OpenFails }
        ensures opens { self.old.state.index + 1 < 2 ^ 64 → result ≡ Ok 0 }
    {
        if self.state.index == u64::MAX {
            return Err(OpenError::NoMajority);
        }
        Ok(0)
    }

    ghost begins_knows = { λ g who new. refl };

    ghost places = { λ g x past who keeps. is_place g.state past keeps };

    ghost legal = { λ g x past keeps. is_legal g.state past keeps };

    ghost allowed = { λ g x past s keeps place. is_allowed g.state past s keeps place };

    ghost reads_next = { λ g x past image s keeps is reads. is_next g.state past s keeps reads };

    ghost reads_one = { λ made sizes image s other is also. one_value made s other is also };

    ghost one_boot = { λ made sizes image boot other is also. one_value 0 boot other is also };

    ghost reads_some = { λ g x past image n m keeps is apart left right. (g.state, refl) };

    ghost elsewhere = { λ g x y past keeps lengths same labels. keeps };

    ghost survives = { λ g x y past n keeps down lengths crash. keeps };

    ghost loses = { λ g x past letters keeps fewer. record { changes = keeps.changes; first = keeps.first; allowed = keeps.allowed } };

    ghost needs_little = { λ g disk. needs_little };

    ghost needs_up = { λ g x past n keeps down. refl };

    ghost needs_none = { λ g disk far. refl };
}
