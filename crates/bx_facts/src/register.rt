//! Registers: what the cluster has decided.

ghost use Rattle.std.specs.Prelude.{◌≡◌, ◌≢◌, ℕ, ◌+◌, ◌<◌, ◌≤◌, ◌⊎◌, Bool, true, false, List, OnOk, IfOk, IsErrOf, length};
ghost use Rattle.bx_records.specs.bx_base.specs.declared.names.Actor.{Actor};
ghost use Rattle.bx_records.specs.bx_base.specs.declared.names.Actor.TheVariants.{Replica};
ghost use Rattle.bx_calls.specs.bx_disk.specs.Disks.{Image, Disks, IsImage};
ghost use Rattle.bx_calls.specs.bx_disk.specs.Counts.{NoneRose};
ghost use Rattle.bx_calls.specs.bx_disk.specs.Kept.{Counted};
ghost use Rattle.bx_calls.specs.Calls.{LeavesOnly};
ghost use Rattle.bx_global.specs.Allowed.{IsAllowed};
ghost use Rattle.bx_global.specs.Table.{IsLegal};
ghost use Rattle.bx_global.specs.declared.change.Change.{Change};
ghost use Rattle.bx_global.specs.declared.state.GlobalState.{GlobalState};
ghost use Rattle.bx_records.specs.bx_places.specs.Places.{replica_sectors};
ghost use Rattle.bx_post.specs.declared.packets.Letter.{Letter};
ghost use Rattle.bx_facts.specs.declared.input.FactError.TheVariants.{Disk as DiskFails, OutOfMemory as MemoryFails};
ghost use Rattle.bx_facts.specs.declared.input.OpenError.TheVariants.{Disk as OpenFails, NoLabel, NoMajority, Spent};
ghost use Rattle.bx_facts.specs.declared.input.ProposeError.TheVariants.{NotLegal, Busy};
ghost use Rattle.bx_facts.specs.Chains.{last, AreLegal, IsAboveBoots, IsNext, IsPlace, most_boot};
ghost use Rattle.bx_facts.specs.Disks.{Crashes, HasRoom, NeedsAt, NeedsNoMore, OnlyDiskOf, ReadsOnly, SameDisks, SameLabels, SameLengths, SameMembers, SameReplicas, TellNoState, wanted_by};
ghost use Rattle.bx_facts.specs.Inputs.{AreAmong, IsRegisters, SendsOnly};
ghost use Rattle.bx_facts.specs.Labelled.{IsReplicaLabelled};
ghost use Rattle.bx_facts.specs.Machines.{IsMachine, OnlyAt, OnlyFactsAt, SameFacts, disk_of};
ghost use Rattle.bx_facts.specs.Pasts.{Decides, MayHear, RegisterPast, found_register, opening_register, proposing, register_crashed, register_failed, register_restarted, register_with};

use crate::input::{FactError, Input, OpenError, ProposeError};
use bx_calls::disk::Rack;
use bx_global::{Change, GlobalState};
use bx_post::Outbox;
use bx_records::base::Actor;

/// What the machines have agreed on: a chain of states, of which each machine knows one place. What was done with a register is no part
/// of it: a clause says what fits it after a call, of each past that fitted it before.
pub trait Register: Drop {
    /// The state that it was made with. The number of its devices says what a cell is read as.
    ghost made: { Self → GlobalState };

    /// How many nodes the cluster has.
    ghost nodes: { Self → ℕ };

    /// Whether nothing was done with it yet.
    ghost is_new: { Self → Type 0 };

    /// The state that a machine knows.
    ghost knows: { Self → Actor → GlobalState };

    /// Whether a machine has a proposal out.
    ghost is_busy: { Self → Actor → Type 0 };

    /// How many sectors it needs of each disk now; 0 of a disk whose machine is down.
    ghost needs: { Self → ℕ → ℕ };

    /// This past is one that led to it, and the disks hold what its calls left on them.
    ghost keeps: { Self → Disks → RegisterPast → Type 0 };

    /// An image of disks of these sizes is read as this state, for a register that was made with the first one.
    ghost reads_as: { GlobalState → List ℕ → Image → GlobalState → Type 0 };

    /// This is the greatest boot in an image of disks of these sizes, for a register that was made with the state.
    ghost boot_in: { GlobalState → List ℕ → Image → ℕ → Type 0 };

    /// The state that a machine knows. It takes no memory.
    fn known(&self, who: Actor) -> &GlobalState
        requires there { IsMachine (nodes self.now) who }
        ensures knows { result.now ≡ knows self.now who }
        ensures allowed { ∥ IsAllowed result.now ∥₁ };

    /// Hands a change to a machine, which tries to have it decided. `NotLegal` exactly where it isn't legal on what the machine
    /// knows; else `Busy` exactly where the machine has a proposal out.
    fn propose(&mut self, who: Actor, change: &Change, out: &mut Outbox) -> Result<(), ProposeError>
        requires there { IsMachine (nodes self.old) who }
        ensures keeps { (x : Disks) (past : RegisterPast) → keeps self.old x (register_with past out.old) → past.down who ≡ false → OnOk result (keeps self.new x (register_with (proposing past change.now) out.new)) }
        ensures refused { (x : Disks) (past : RegisterPast) → keeps self.old x (register_with past out.old) → IsErrOf result NotLegal ⊎ IsErrOf result Busy → keeps self.new x (register_with past out.old) × (out.new ≡ out.old) × SameFacts (is_busy self.old) (is_busy self.new) }
        ensures legal { OnOk result (IsLegal (knows self.old who) change.now × (is_busy self.old who → ⊥) × is_busy self.new who) }
        ensures not_legal { IsErrOf result NotLegal → IsLegal (knows self.old who) change.now → ⊥ }
        ensures busy { IsErrOf result Busy → IsLegal (knows self.old who) change.now × is_busy self.old who }
        ensures others { OnlyFactsAt who (is_busy self.old) (is_busy self.new) }
        ensures knows { (other : Actor) → knows self.new other ≡ knows self.old other }
        ensures needs { NeedsNoMore (needs self.old) (needs self.new) }
        ensures sent { OnOk result (SendsOnly IsRegisters out.old out.new) }
        ensures made { (made self.new ≡ made self.old) × (nodes self.new ≡ nodes self.old) };

    /// Does one event of a machine. At a disk fault what is in the box isn't sent. For want of memory it isn't used again, and no disk failed.
    fn take<R: Rack>(
        &mut self,
        rack: &mut R,
        at: Actor,
        input: &Input,
        out: &mut Outbox,
    ) -> Result<(), FactError>
        requires there { IsMachine (nodes self.old) at }
        requires room { HasRoom (needs self.old) (R.state rack.old).sizes }
        ensures keeps { (past : RegisterPast) → R.tells rack.old → keeps self.old (R.state rack.old) (register_with past out.old) → MayHear (register_with past out.old) at input.now → OnOk result (Decides (keeps self.new (R.state rack.new)) (knows self.new at) (register_with past out.new)) }
        ensures keeps_faulted { (past : RegisterPast) → R.tells rack.old → keeps self.old (R.state rack.old) (register_with past out.old) → MayHear (register_with past out.old) at input.now → IsErrOf result DiskFails → Decides (keeps self.new (R.state rack.new)) (knows self.new at) (register_with past out.old) }
        ensures any_moment { (past : RegisterPast) → R.tells rack.old → keeps self.old (R.state rack.old) (register_with past out.old) → MayHear (register_with past out.old) at input.now → LeavesOnly (R.moment rack.old) (R.moment rack.new) (R.left_since rack.old) (R.left_since rack.new) (ReadsOnly (reads_as (made self.old)) (R.state rack.old) (IsNext past.proposed (last past.chain))) }
        ensures rises { (who : Actor) → (knows self.old who).index ≤ (knows self.new who).index }
        ensures knows { OnlyAt at (knows self.old) (knows self.new) }
        ensures others { OnlyFactsAt at (is_busy self.old) (is_busy self.new) }
        ensures still_busy { is_busy self.old at → (knows self.new at).index ≡ (knows self.old at).index → OnOk result (is_busy self.new at) }
        ensures was_busy { OnOk result (is_busy self.new at → is_busy self.old at × ((knows self.new at).index ≡ (knows self.old at).index)) }
        ensures needs { NeedsNoMore (needs self.old) (needs self.new) }
        ensures sent { OnOk result (SendsOnly IsRegisters out.old out.new) }
        ensures made { (made self.new ≡ made self.old) × (nodes self.new ≡ nodes self.old) }
        ensures members { R.tells rack.old → SameMembers (R.state rack.old) (R.state rack.new) × SameLabels (R.state rack.old) (R.state rack.new) }
        ensures disks { R.tells rack.old → OnlyDiskOf at (R.state rack.old) (R.state rack.new) }
        ensures memory { IsErrOf result MemoryFails → NoneRose (R.faults rack.old) (R.faults rack.new) (R.faults_of rack.old) (R.faults_of rack.new) }
        ensures rack { Counted R.Rack rack.old rack.new result DiskFails };

    /// A machine stops, and needs no disk then. It takes no memory.
    fn crash(&mut self, who: Actor)
        ensures keeps { (x : Disks) (past : RegisterPast) → keeps self.old x past → keeps self.new x (register_crashed past who) }
        ensures others { OnlyFactsAt who (is_busy self.old) (is_busy self.new) }
        ensures knows { (other : Actor) → knows self.new other ≡ knows self.old other }
        ensures needs { NeedsNoMore (needs self.old) (needs self.new) }
        ensures down { (n : ℕ) → who ≡ Replica n → needs self.new n ≡ 0 }
        ensures made { (made self.new ≡ made self.old) × (nodes self.new ≡ nodes self.old) };

    /// A machine that is down starts again, with a boot above those that it had or that were found. It has no proposal out then.
    fn restart<R: Rack>(
        &mut self,
        rack: &mut R,
        who: Actor,
        boot: u64,
        out: &mut Outbox,
    ) -> Result<(), FactError>
        requires there { IsMachine (nodes self.old) who }
        requires room { HasRoom (needs self.old) (R.state rack.old).sizes }
        requires disk { HasRoom (wanted_by (disk_of who) replica_sectors) (R.state rack.old).sizes }
        ensures keeps { (past : RegisterPast) → R.tells rack.old → keeps self.old (R.state rack.old) (register_with past out.old) → past.down who ≡ true → past.boots who < boot → OnOk result (keeps self.new (R.state rack.new) (register_with (register_restarted past who boot) out.new)) }
        ensures keeps_faulted { (past : RegisterPast) → R.tells rack.old → keeps self.old (R.state rack.old) (register_with past out.old) → past.down who ≡ true → past.boots who < boot → IsErrOf result DiskFails → keeps self.new (R.state rack.new) (register_with (register_failed past who boot) out.old) }
        ensures any_moment { (past : RegisterPast) → R.tells rack.old → keeps self.old (R.state rack.old) (register_with past out.old) → past.down who ≡ true → past.boots who < boot → LeavesOnly (R.moment rack.old) (R.moment rack.new) (R.left_since rack.old) (R.left_since rack.new) (ReadsOnly (reads_as (made self.old)) (R.state rack.old) (IsNext past.proposed (last past.chain))) }
        ensures knows { OnlyAt who (knows self.old) (knows self.new) }
        ensures others { OnlyFactsAt who (is_busy self.old) (is_busy self.new) }
        ensures idle { OnOk result (is_busy self.new who → ⊥) }
        ensures needs { NeedsAt who replica_sectors (needs self.old) (needs self.new) }
        ensures sent { OnOk result (SendsOnly IsRegisters out.old out.new) }
        ensures made { (made self.new ≡ made self.old) × (nodes self.new ≡ nodes self.old) }
        ensures members { R.tells rack.old → SameMembers (R.state rack.old) (R.state rack.new) × SameLabels (R.state rack.old) (R.state rack.new) }
        ensures disks { R.tells rack.old → OnlyDiskOf who (R.state rack.old) (R.state rack.new) }
        ensures rack { Counted R.Rack rack.old rack.new result DiskFails };

    /// Writes what the replicas' disks hold of the state that it was made with. Every machine knows it then.
    fn format<R: Rack>(&mut self, rack: &mut R) -> Result<(), FactError>
        requires room { (n : ℕ) → n < 3 → HasRoom (wanted_by (disk_of (Replica n)) replica_sectors) (R.state rack.old).sizes }
        ensures keeps { R.tells rack.old → is_new self.old → OnOk result (keeps self.new (R.state rack.new) (opening_register (made self.old))) }
        ensures knows { is_new self.old → (who : Actor) → OnOk result (knows self.new who ≡ made self.old) }
        ensures idle { is_new self.old → (who : Actor) → OnOk result (is_busy self.new who → ⊥) }
        ensures made { (made self.new ≡ made self.old) × (nodes self.new ≡ nodes self.old) }
        ensures members { R.tells rack.old → SameMembers (R.state rack.old) (R.state rack.new) × SameLabels (R.state rack.old) (R.state rack.new) }
        ensures rack { Counted R.Rack rack.old rack.new result DiskFails };

    /// Begins with the state that the disks are read as, which every machine knows then; each is to start again before it does anything, and
    /// needs no disk until then. The answer is the greatest boot on the disks. `NoMajority` exactly where they tell no state that another may
    /// follow; else `Spent` exactly where the greatest boot is that one, and is above 4611686018427387903; `NoLabel` never.
    fn open<R: Rack>(&mut self, rack: &mut R) -> Result<u64, OpenError>
        ensures keeps { R.tells rack.old → is_new self.old → IfOk result (λ boot. keeps self.new (R.state rack.new) (found_register (knows self.new (Replica 0)) boot)) }
        ensures found { R.tells rack.old → is_new self.old → OnOk result (reads_as (made self.old) (R.state rack.old).sizes (R.state rack.old).reads (knows self.new (Replica 0))) }
        ensures few { IfOk result (λ boot. boot ≤ most_boot) }
        ensures no_label { (disk : ℕ) → IsErrOf result (NoLabel disk) → ⊥ }
        ensures no_majority { R.tells rack.old → is_new self.old → IsErrOf result NoMajority → TellNoState (reads_as (made self.old)) (R.state rack.old) }
        ensures majority { R.tells rack.old → is_new self.old → OnOk result (TellNoState (reads_as (made self.old)) (R.state rack.old) → ⊥) }
        ensures greatest { R.tells rack.old → is_new self.old → IfOk result (boot_in (made self.old) (R.state rack.old).sizes (R.state rack.old).reads) }
        ensures spent { (boot : ℕ) → R.tells rack.old → is_new self.old → IsErrOf result (Spent boot) → boot_in (made self.old) (R.state rack.old).sizes (R.state rack.old).reads boot × (TellNoState (reads_as (made self.old)) (R.state rack.old) → ⊥) }
        ensures above { (boot : ℕ) → IsErrOf result (Spent boot) → most_boot < boot }
        ensures boots { is_new self.old → IfOk result (λ boot. ∥ IsAboveBoots (knows self.new (Replica 0)) (boot + 1) ∥₁) }
        ensures knows { is_new self.old → (who : Actor) → OnOk result (knows self.new who ≡ knows self.new (Replica 0)) }
        ensures idle { is_new self.old → (who : Actor) → OnOk result (is_busy self.new who → ⊥) }
        ensures needs { is_new self.old → (disk : ℕ) → OnOk result (needs self.new disk ≡ 0) }
        ensures made { (made self.new ≡ made self.old) × (nodes self.new ≡ nodes self.old) }
        ensures disks { R.tells rack.old → SameDisks (R.state rack.old) (R.state rack.new) }
        ensures rack { Counted R.Rack rack.old rack.new result OpenFails };

    /// A new one knows what it was made with.
    ghost begins_knows: { (g : Self) (who : Actor) → is_new g → knows g who ≡ made g };

    /// Each known state is a place of the chain.
    ghost places: { (g : Self) (x : Disks) (past : RegisterPast) (who : Actor) → keeps g x past → IsPlace past.chain (knows g who) };

    /// Each change of the chain was legal.
    ghost legal: { (g : Self) (x : Disks) (past : RegisterPast) → keeps g x past → AreLegal past.chain.first past.chain.changes };

    /// Each state of the chain meets the conditions on states.
    ghost allowed: { (g : Self) (x : Disks) (past : RegisterPast) (s : GlobalState) → keeps g x past → IsPlace past.chain s → IsAllowed s };

    /// An image is read as the last state, or as one that a proposed change makes of it.
    ghost reads_next: { (g : Self) (x : Disks) (past : RegisterPast) (image : Image) (s : GlobalState) → keeps g x past → IsImage x image → reads_as (made g) x.sizes image s → IsNext past.proposed (last past.chain) s };

    /// An image is read as one state at most, and one boot is the greatest in it.
    ghost reads_one: { (made : GlobalState) (sizes : List ℕ) (image : Image) (s other : GlobalState) → reads_as made sizes image s → reads_as made sizes image other → other ≡ s };

    ghost one_boot: { (made : GlobalState) (sizes : List ℕ) (image : Image) (boot other : ℕ) → boot_in made sizes image boot → boot_in made sizes image other → other ≡ boot };

    /// An image in which two replicas are labelled, for a volume of as many devices, is read as some state.
    ghost reads_some: { (g : Self) (x : Disks) (past : RegisterPast) (image : Image) (n m : ℕ) → keeps g x past → IsImage x image → n ≢ m → IsReplicaLabelled (length (made g).devices) x.sizes image n → IsReplicaLabelled (length (made g).devices) x.sizes image m → (s : GlobalState) × reads_as (made g) x.sizes image s };

    /// Other disks don't matter, of whatever length.
    ghost elsewhere: { (g : Self) (x y : Disks) (past : RegisterPast) → keeps g x past → SameLengths x y → SameReplicas x y → SameLabels x y → keeps g y past };

    /// The disk of a machine that is down may crash.
    ghost survives: { (g : Self) (x y : Disks) (past : RegisterPast) (n : ℕ) → keeps g x past → past.down (Replica n) ≡ true → SameLengths x y → Crashes n x y → keeps g y past };

    /// Letters may be lost, and come in any order and number; those of other layers don't matter.
    ghost loses: { (g : Self) (x : Disks) (past : RegisterPast) (letters : List Letter) → keeps g x past → AreAmong IsRegisters letters past.letters → keeps g x (record past { letters = letters }) };

    /// It never needs more than a replica's sectors of a disk.
    ghost needs_little: { (g : Self) (disk : ℕ) → needs g disk ≤ replica_sectors };

    /// A replica that is down needs nothing of its disk.
    ghost needs_up: { (g : Self) (x : Disks) (past : RegisterPast) (n : ℕ) → keeps g x past → past.down (Replica n) ≡ true → needs g n ≡ 0 };

    /// It needs nothing of the disks of members.
    ghost needs_none: { (g : Self) (disk : ℕ) → 3 ≤ disk → needs g disk ≡ 0 };
}
