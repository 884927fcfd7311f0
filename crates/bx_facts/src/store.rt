//! Stores: mirrored devices.

ghost use Rattle.std.specs.Prelude.{◌≡◌, ◌≢◌, ℕ, ◌+◌, ◌-◌, ◌*◌, ◌<◌, ◌≤◌, ◌⊎◌, Bool, true, false, List, [], OnOk, IfOk, IfSome, IsErrOf, Option, Some, None, IsNone, IsSome, is_some};
ghost use Rattle.bx_records.specs.bx_base.specs.declared.names.Actor.{Actor};
ghost use Rattle.bx_records.specs.bx_base.specs.declared.names.Actor.TheVariants.{Node, Member};
ghost use Rattle.bx_calls.specs.bx_disk.specs.Disks.{Disks, blanked, sector_of};
ghost use Rattle.bx_calls.specs.bx_disk.specs.Counts.{NoneRose};
ghost use Rattle.bx_calls.specs.bx_disk.specs.Kept.{Counted};
ghost use Rattle.bx_calls.specs.Calls.{LeavesOnly};
ghost use Rattle.bx_global.specs.Allowed.{IsAllowed};
ghost use Rattle.bx_global.specs.Table.{IsLegal};
ghost use Rattle.bx_global.specs.declared.change.Change.{Change};
ghost use Rattle.bx_global.specs.declared.state.GlobalState.{GlobalState};
ghost use Rattle.bx_records.specs.bx_layout.specs.Labels.{SpellsLabel};
ghost use Rattle.bx_post.specs.declared.packets.Letter.{Letter};
ghost use Rattle.bx_facts.specs.declared.input.FactError.TheVariants.{Disk as DiskFails, OutOfMemory as MemoryFails};
ghost use Rattle.bx_facts.specs.declared.input.Input.{Input};
ghost use Rattle.bx_facts.specs.Chains.{IsStoresKind, IsStoresOwn, LivesIn, last, session_by};
ghost use Rattle.bx_facts.specs.Disks.{Crashes, HasRoom, NeedsAt, NeedsNoMore, OnlyDiskOf, SameLabels, SameMemberLengths, SameMembers, SameReplicas, wanted_by};
ghost use Rattle.bx_facts.specs.Inputs.{AreAmong, IsStores, SendsOnly};
ghost use Rattle.bx_facts.specs.Machines.{IsMachine, OnlyAt, disk_of};
ghost use Rattle.bx_facts.specs.Pasts.{MayRestart, MayTake};
ghost use Rattle.bx_facts.specs.Writes.{AreRuns, Asked, GoesOn, HasSettled, IsDone, IsOfStore, IsOnly, IsOnlyOther, IsSettled, Made, MayWrite, NamesUpTo, Sent, StorePast, found_store, label_on, member_disk, opening_store, store_crashed, store_failed, store_grown, store_heard, store_restarted, store_room, store_with, without_session, writing};

use crate::input::{FactError, Input};
use bx_calls::disk::Rack;
use bx_global::{Change, GlobalState};
use bx_post::Outbox;
use bx_records::Runs;
use bx_records::base::{Actor, OutOfMemory, Raw};

/// Devices, each on two members. All that is said of a sector is said of what is settled there: what each member that an audit
/// would read has, and surely. What was done with a store is no part of it: a clause says what fits it after a call, of each past
/// that fitted it before.
pub trait Store: Drop {
    /// Whether each machine's part is its own, and a node's session ends with its restart.
    ghost is_separate: { Type 0 };

    /// Whether a node's session is told by its boot.
    ghost by_boot: { Bool };

    /// What it is made for.
    ghost made: { Self → Made };

    /// Whether it is made for this state: a new one has the sessions of it.
    ghost is_for: { Self → GlobalState → Type 0 };

    /// Whether nothing was done with it yet.
    ghost is_new: { Self → Type 0 };

    /// The session that a node's packets carry.
    ghost own: { Self → ℕ → Option ℕ };

    /// A node's write that is out.
    ghost out_of: { Self → ℕ → Option Sent };

    /// A node's read that is out, or whose answer wasn't taken yet.
    ghost asked: { Self → ℕ → Option Asked };

    /// The answer to it.
    ghost answer: { Self → ℕ → Option (List ℕ) };

    /// Whether a member owes an answer to a sync.
    ghost owes: { Self → Actor → Bool };

    /// How many sectors it needs of each disk now; 0 of a disk whose machine is down.
    ghost needs: { Self → ℕ → ℕ };

    /// This past is one that led to it, and the disks hold what its calls left on them.
    ghost keeps: { Self → Disks → StorePast → Type 0 };

    /// A sector of a device is settled with this content, in the last state.
    ghost settled: { Self → Disks → StorePast → ℕ → ℕ → List ℕ → Type 0 };

    /// It is, and each answer to a reader that knows a state of this index or a later one has it.
    ghost stands: { Self → Disks → StorePast → ℕ → ℕ → List ℕ → ℕ → Type 0 };

    /// Each answer to a node's read that may come has this in a sector.
    ghost will_read: { Self → Disks → StorePast → ℕ → ℕ → List ℕ → Type 0 };

    /// What a machine must propose after an input.
    ghost hands: { Self → GlobalState → Actor → Input → Option Change → Type 0 };

    /// What an event of a machine makes of it, exactly.
    ghost steps: { Self → GlobalState → Actor → Input → Self → Type 0 };

    /// The session that the node's packets carry; `None` exactly where it has no live session that it knows. It takes no memory.
    fn session(&self, node: u32) -> Option<u64>
        ensures { result ≡ own self.now node };

    /// Whether the node's read is out, or its answer wasn't taken yet. It takes no memory.
    fn is_reading(&self, node: u32) -> bool
        ensures { result ≡ is_some (asked self.now node) };

    /// Sends a write, of the node's session.
    fn write(
        &mut self,
        node: u32,
        runs: &Runs,
        until: u64,
        out: &mut Outbox,
    ) -> Result<(), OutOfMemory>
        requires none_out { out_of self.old node ≡ None }
        requires session { IsSome (own self.old node) }
        requires runs { AreRuns (made self.old) runs.now.1 }
        ensures keeps { (x : Disks) (past : StorePast) (session : ℕ) → keeps self.old x (store_with past out.old) → past.told.down (Node node) ≡ false → own self.old node ≡ Some session → MayWrite past.writes past.told.greatest (last past.told.chain) (record { session = session; until = until; runs = runs.now.1 }) → OnOk result (keeps self.new x (store_with (writing past (record { session = session; until = until; runs = runs.now.1 })) out.new)) }
        ensures goes_on { (x : Disks) (past : StorePast) (session : ℕ) → keeps self.old x (store_with past out.old) → past.told.down (Node node) ≡ false → own self.old node ≡ Some session → MayWrite past.writes past.told.greatest (last past.told.chain) (record { session = session; until = until; runs = runs.now.1 }) → OnOk result (GoesOn ((writing past (record { session = session; until = until; runs = runs.now.1 })).writes) past.told.greatest (asked self.old) (settled self.old x (store_with past out.old)) (settled self.new x (store_with (writing past (record { session = session; until = until; runs = runs.now.1 })) out.new)) (will_read self.old x (store_with past out.old)) (will_read self.new x (store_with (writing past (record { session = session; until = until; runs = runs.now.1 })) out.new)) (stands self.old x (store_with past out.old)) (stands self.new x (store_with (writing past (record { session = session; until = until; runs = runs.now.1 })) out.new))) }
        ensures is_out { (session : ℕ) → own self.old node ≡ Some session → OnOk result (out_of self.new node ≡ Some (record { session = session; until = until; runs = runs.now.1 })) }
        ensures others { (other : ℕ) → other ≢ node → out_of self.new other ≡ out_of self.old other }
        ensures stays { (other : ℕ) → (own self.new other ≡ own self.old other) × (asked self.new other ≡ asked self.old other) × (answer self.new other ≡ answer self.old other) }
        ensures owes { is_separate → (other : Actor) → owes self.new other ≡ owes self.old other }
        ensures needs { NeedsNoMore (needs self.old) (needs self.new) }
        ensures sent { OnOk result (SendsOnly IsStores out.old out.new) }
        ensures made { made self.new ≡ made self.old };

    /// Whether the node has no write out. It takes no memory.
    fn done(&self, node: u32) -> bool
        ensures no_write { result ≡ true → out_of self.now node ≡ None }
        ensures out { out_of self.now node ≡ None → result ≡ true };

    /// Sends a read, of at least one sector behind the label.
    fn read(
        &mut self,
        node: u32,
        device: u32,
        place: u64,
        sectors: u32,
        out: &mut Outbox,
    ) -> Result<(), OutOfMemory>
        requires none_out { asked self.old node ≡ None }
        requires session { IsSome (own self.old node) }
        requires device { device < (made self.old).devices }
        requires behind_label { 1 ≤ place }
        requires some { 1 ≤ sectors }
        requires within { place + sectors ≤ store_room (made self.old) }
        ensures keeps { (x : Disks) (past : StorePast) → keeps self.old x (store_with past out.old) → past.told.down (Node node) ≡ false → OnOk result (keeps self.new x (store_with past out.new)) }
        ensures goes_on { (x : Disks) (past : StorePast) → keeps self.old x (store_with past out.old) → past.told.down (Node node) ≡ false → OnOk result (GoesOn past.writes past.told.greatest (asked self.old) (settled self.old x (store_with past out.old)) (settled self.new x (store_with past out.new)) (will_read self.old x (store_with past out.old)) (will_read self.new x (store_with past out.new)) (stands self.old x (store_with past out.old)) (stands self.new x (store_with past out.new))) }
        ensures promise { (x : Disks) (past : StorePast) (sector : ℕ) (content : List ℕ) (index : ℕ) → keeps self.old x (store_with past out.old) → past.told.down (Node node) ≡ false → place ≤ sector → sector < place + sectors → IsOnly past.writes past.told.greatest device sector content → stands self.old x (store_with past out.old) device sector content index → index ≤ past.told.knew (Node node) → OnOk result (will_read self.new x (store_with past out.new) node sector content) }
        ensures asks { OnOk result ((asked self.new node ≡ Some (record { device = device; place = place; count = sectors })) × (answer self.new node ≡ None)) }
        ensures others { (reader : ℕ) → reader ≢ node → (asked self.new reader ≡ asked self.old reader) × (answer self.new reader ≡ answer self.old reader) }
        ensures stays { (other : ℕ) → (own self.new other ≡ own self.old other) × (out_of self.new other ≡ out_of self.old other) }
        ensures owes { is_separate → (other : Actor) → owes self.new other ≡ owes self.old other }
        ensures needs { NeedsNoMore (needs self.old) (needs self.new) }
        ensures sent { OnOk result (SendsOnly IsStores out.old out.new) }
        ensures made { made self.new ≡ made self.old };

    /// The answer to the node's read; it is handed out once. It takes no memory.
    fn arrived(&mut self, node: u32) -> Option<Raw>
        ensures keeps { (x : Disks) (past : StorePast) → keeps self.old x past → keeps self.new x past }
        ensures goes_on { (x : Disks) (past : StorePast) → keeps self.old x past → GoesOn past.writes past.told.greatest (asked self.new) (settled self.old x past) (settled self.new x past) (will_read self.old x past) (will_read self.new x past) (stands self.old x past) (stands self.new x past) }
        ensures answer { result ≡ answer self.old node }
        ensures promise { (x : Disks) (past : StorePast) (sector : ℕ) (content : List ℕ) (asks : Asked) → keeps self.old x past → will_read self.old x past node sector content → asked self.old node ≡ Some asks → asks.place ≤ sector → sector < asks.place + asks.count → IfSome result (λ bytes. sector_of bytes (sector - asks.place) ≡ content) }
        ensures taken { IsSome result → (asked self.new node ≡ None) × (answer self.new node ≡ None) }
        ensures not_yet { IsNone result → (asked self.new node ≡ asked self.old node) × (answer self.new node ≡ None) }
        ensures others { (reader : ℕ) → reader ≢ node → (asked self.new reader ≡ asked self.old reader) × (answer self.new reader ≡ answer self.old reader) }
        ensures stays { (other : ℕ) → (own self.new other ≡ own self.old other) × (out_of self.new other ≡ out_of self.old other) }
        ensures owes { is_separate → (other : Actor) → owes self.new other ≡ owes self.old other }
        ensures needs { NeedsNoMore (needs self.old) (needs self.new) }
        ensures made { made self.new ≡ made self.old };

    /// Whether the member is up and owes an answer to a sync. It takes no memory.
    fn waiting(&self, at: Actor) -> bool
        ensures { result ≡ owes self.now at };

    /// Does one event of a machine, which knows this state. The change is one that it must propose. At a disk fault what is in the box isn't
    /// sent. For want of memory it isn't used again, and no disk failed.
    fn take<R: Rack>(
        &mut self,
        rack: &mut R,
        known: &GlobalState,
        at: Actor,
        input: &Input,
        out: &mut Outbox,
    ) -> Result<Option<Change>, FactError>
        requires there { IsMachine ((made self.old).nodes) at }
        requires room { HasRoom (needs self.old) (R.state rack.old).sizes }
        requires known { ∥ IsAllowed known.now ∥₁ }
        ensures keeps { (past : StorePast) → R.tells rack.old → keeps self.old (R.state rack.old) (store_with past out.old) → MayTake (store_with past out.old).told known.now at input.now → IfOk result (λ change. keeps self.new (R.state rack.new) (store_with (store_heard past at known.now.index input.now change) out.new)) }
        ensures goes_on { (past : StorePast) → R.tells rack.old → keeps self.old (R.state rack.old) (store_with past out.old) → MayTake (store_with past out.old).told known.now at input.now → IfOk result (λ change. GoesOn past.writes past.told.greatest (asked self.old) (settled self.old (R.state rack.old) (store_with past out.old)) (settled self.new (R.state rack.new) (store_with (store_heard past at known.now.index input.now change) out.new)) (will_read self.old (R.state rack.old) (store_with past out.old)) (will_read self.new (R.state rack.new) (store_with (store_heard past at known.now.index input.now change) out.new)) (stands self.old (R.state rack.old) (store_with past out.old)) (stands self.new (R.state rack.new) (store_with (store_heard past at known.now.index input.now change) out.new))) }
        ensures keeps_faulted { (past : StorePast) → R.tells rack.old → keeps self.old (R.state rack.old) (store_with past out.old) → MayTake (store_with past out.old).told known.now at input.now → IsErrOf result DiskFails → keeps self.new (R.state rack.new) (store_with (store_heard past at known.now.index input.now None) out.old) }
        ensures goes_on_faulted { (past : StorePast) → R.tells rack.old → keeps self.old (R.state rack.old) (store_with past out.old) → MayTake (store_with past out.old).told known.now at input.now → IsErrOf result DiskFails → GoesOn past.writes past.told.greatest (asked self.old) (settled self.old (R.state rack.old) (store_with past out.old)) (settled self.new (R.state rack.new) (store_with (store_heard past at known.now.index input.now None) out.old)) (will_read self.old (R.state rack.old) (store_with past out.old)) (will_read self.new (R.state rack.new) (store_with (store_heard past at known.now.index input.now None) out.old)) (stands self.old (R.state rack.old) (store_with past out.old)) (stands self.new (R.state rack.new) (store_with (store_heard past at known.now.index input.now None) out.old)) }
        ensures done { (past : StorePast) (node : ℕ) (write : Sent) → R.tells rack.old → keeps self.old (R.state rack.old) (store_with past out.old) → MayTake (store_with past out.old).told known.now at input.now → out_of self.old node ≡ Some write → out_of self.new node ≡ None → own self.new node ≡ Some write.session → LivesIn (last past.told.chain) write.session → IfOk result (λ change. IsDone (stands self.new (R.state rack.new) (store_with (store_heard past at known.now.index input.now change) out.new)) ((store_heard past at known.now.index input.now change).told.knew (Node node)) write) }
        ensures done_faulted { (past : StorePast) (node : ℕ) (write : Sent) → R.tells rack.old → keeps self.old (R.state rack.old) (store_with past out.old) → MayTake (store_with past out.old).told known.now at input.now → out_of self.old node ≡ Some write → out_of self.new node ≡ None → own self.new node ≡ Some write.session → LivesIn (last past.told.chain) write.session → IsErrOf result DiskFails → IsDone (stands self.new (R.state rack.new) (store_with (store_heard past at known.now.index input.now None) out.old)) ((store_heard past at known.now.index input.now None).told.knew (Node node)) write }
        ensures any_moment { (past : StorePast) → R.tells rack.old → keeps self.old (R.state rack.old) (store_with past out.old) → MayTake (store_with past out.old).told known.now at input.now → LeavesOnly (R.moment rack.old) (R.moment rack.new) (R.left_since rack.old) (R.left_since rack.new) (HasSettled past.writes past.told.greatest (settled self.old (R.state rack.old) (store_with past out.old)) (R.state rack.old) (last past.told.chain)) }
        ensures session { (past : StorePast) (node : ℕ) → R.tells rack.old → keeps self.old (R.state rack.old) (store_with past out.old) → MayTake (store_with past out.old).told known.now at input.now → at ≡ Node node → OnOk result (own self.new node ≡ session_by by_boot known.now node (past.told.boots at)) }
        ensures session_faulted { (past : StorePast) (node : ℕ) → R.tells rack.old → keeps self.old (R.state rack.old) (store_with past out.old) → MayTake (store_with past out.old).told known.now at input.now → at ≡ Node node → IsErrOf result DiskFails → own self.new node ≡ session_by by_boot known.now node (past.told.boots at) }
        ensures others { (node : ℕ) → at ≢ Node node → own self.new node ≡ own self.old node }
        ensures new_session { (node : ℕ) → OnOk result (own self.new node ≢ own self.old node → asked self.new node ≡ None) }
        ensures new_session_faulted { (node : ℕ) → IsErrOf result DiskFails → own self.new node ≢ own self.old node → asked self.new node ≡ None }
        ensures out { (node : ℕ) → OnOk result ((out_of self.new node ≡ None) ⊎ (out_of self.new node ≡ out_of self.old node)) }
        ensures out_faulted { (node : ℕ) → IsErrOf result DiskFails → (out_of self.new node ≡ None) ⊎ (out_of self.new node ≡ out_of self.old node) }
        ensures asked { (reader : ℕ) → OnOk result ((own self.new reader ≢ own self.old reader) ⊎ (asked self.new reader ≡ asked self.old reader)) }
        ensures asked_faulted { (reader : ℕ) → IsErrOf result DiskFails → (own self.new reader ≢ own self.old reader) ⊎ (asked self.new reader ≡ asked self.old reader) }
        ensures kind { IfOk result (λ change. IfSome change IsStoresKind) }
        ensures hands { IfOk result (hands self.old known.now at input.now) }
        ensures steps { OnOk result (steps self.old known.now at input.now self.new) }
        ensures apart { is_separate → (node : ℕ) → at ≢ Node node → (out_of self.new node ≡ out_of self.old node) × (asked self.new node ≡ asked self.old node) × (answer self.new node ≡ answer self.old node) }
        ensures owes { is_separate → OnlyAt at (owes self.old) (owes self.new) }
        ensures disks { R.tells rack.old → is_separate → OnlyDiskOf at (R.state rack.old) (R.state rack.new) }
        ensures needs { NeedsNoMore (needs self.old) (needs self.new) }
        ensures sent { OnOk result (SendsOnly IsStores out.old out.new) }
        ensures made { made self.new ≡ made self.old }
        ensures replicas { R.tells rack.old → SameReplicas (R.state rack.old) (R.state rack.new) × SameLabels (R.state rack.old) (R.state rack.new) }
        ensures memory { IsErrOf result MemoryFails → NoneRose (R.faults rack.old) (R.faults rack.new) (R.faults_of rack.old) (R.faults_of rack.new) }
        ensures rack { Counted R.Rack rack.old rack.new result DiskFails };

    /// A machine stops. A write of it that was out may still be taken. It takes no memory.
    fn crash(&mut self, who: Actor)
        ensures keeps { (x : Disks) (past : StorePast) → keeps self.old x past → keeps self.new x (store_crashed past who) }
        ensures settled { (x : Disks) (past : StorePast) (device sector : ℕ) (content : List ℕ) → keeps self.old x past → settled self.old x past device sector content → settled self.new x (store_crashed past who) device sector content }
        ensures stands { (x : Disks) (past : StorePast) (device sector : ℕ) (content : List ℕ) (index : ℕ) → keeps self.old x past → stands self.old x past device sector content index → stands self.new x (store_crashed past who) device sector content index }
        ensures reads { (x : Disks) (past : StorePast) (reader sector : ℕ) (content : List ℕ) → who ≢ Node reader → keeps self.old x past → will_read self.old x past reader sector content → will_read self.new x (store_crashed past who) reader sector content }
        ensures others { (node : ℕ) → who ≢ Node node → (own self.new node ≡ own self.old node) × (out_of self.new node ≡ out_of self.old node) × (asked self.new node ≡ asked self.old node) × (answer self.new node ≡ answer self.old node) }
        ensures needs { NeedsNoMore (needs self.old) (needs self.new) }
        ensures owes { is_separate → OnlyAt who (owes self.old) (owes self.new) }
        ensures still { owes self.new who ≡ false }
        ensures ended { (node : ℕ) → who ≡ Node node → (own self.new node ≡ None) × (out_of self.new node ≡ None) × (asked self.new node ≡ None) }
        ensures down { (member : ℕ) → who ≡ Member member → needs self.new (3 + member) ≡ 0 }
        ensures made { made self.new ≡ made self.old };

    /// A machine that is down starts again, with a boot above those that it had or that were found. A member's disk has its own label
    /// then, written only where it had another or none, and nothing unsure.
    fn restart<R: Rack>(
        &mut self,
        rack: &mut R,
        who: Actor,
        boot: u64,
        reading: u64,
    ) -> Result<(), FactError>
        requires there { IsMachine ((made self.old).nodes) who }
        requires room { HasRoom (needs self.old) (R.state rack.old).sizes }
        requires disk { (n : ℕ) → who ≡ Member n → HasRoom (wanted_by (disk_of who) (store_room (made self.old))) (R.state rack.old).sizes }
        ensures keeps { (past : StorePast) → R.tells rack.old → keeps self.old (R.state rack.old) past → MayRestart past.told who boot reading → OnOk result (keeps self.new (R.state rack.new) (store_restarted past who boot reading)) }
        ensures keeps_faulted { (past : StorePast) → R.tells rack.old → keeps self.old (R.state rack.old) past → MayRestart past.told who boot reading → IsErrOf result DiskFails → keeps self.new (R.state rack.new) (store_failed past who boot reading) }
        ensures settled { (past : StorePast) (device sector : ℕ) (content : List ℕ) → R.tells rack.old → keeps self.old (R.state rack.old) past → MayRestart past.told who boot reading → IsOnly past.writes past.told.greatest device sector content → settled self.old (R.state rack.old) past device sector content → OnOk result (settled self.new (R.state rack.new) (store_restarted past who boot reading) device sector content) × (IsErrOf result DiskFails → settled self.new (R.state rack.new) (store_failed past who boot reading) device sector content) }
        ensures stands { (past : StorePast) (device sector : ℕ) (content : List ℕ) (index : ℕ) → R.tells rack.old → keeps self.old (R.state rack.old) past → MayRestart past.told who boot reading → IsOnly past.writes past.told.greatest device sector content → stands self.old (R.state rack.old) past device sector content index → OnOk result (stands self.new (R.state rack.new) (store_restarted past who boot reading) device sector content index) × (IsErrOf result DiskFails → stands self.new (R.state rack.new) (store_failed past who boot reading) device sector content index) }
        ensures reads { (past : StorePast) (reader sector : ℕ) (content : List ℕ) (asks : Asked) → R.tells rack.old → keeps self.old (R.state rack.old) past → MayRestart past.told who boot reading → who ≢ Node reader → asked self.old reader ≡ Some asks → IsOnly past.writes past.told.greatest asks.device sector content → will_read self.old (R.state rack.old) past reader sector content → OnOk result (will_read self.new (R.state rack.new) (store_restarted past who boot reading) reader sector content) × (IsErrOf result DiskFails → will_read self.new (R.state rack.new) (store_failed past who boot reading) reader sector content) }
        ensures any_moment { (past : StorePast) → R.tells rack.old → keeps self.old (R.state rack.old) past → MayRestart past.told who boot reading → LeavesOnly (R.moment rack.old) (R.moment rack.new) (R.left_since rack.old) (R.left_since rack.new) (HasSettled past.writes past.told.greatest (settled self.old (R.state rack.old) past) (R.state rack.old) (last past.told.chain)) }
        ensures synced { (n sector : ℕ) → who ≡ Member n → R.tells rack.old → OnOk result ((R.state rack.new).unsure (3 + n) sector ≡ false) }
        ensures label { (n : ℕ) → who ≡ Member n → R.tells rack.old → OnOk result (SpellsLabel (label_on (made self.old) (3 + n)) ((R.state rack.new).reads (3 + n) 0)) }
        ensures old_label { (n : ℕ) → who ≡ Member n → R.tells rack.old → SpellsLabel (label_on (made self.old) (3 + n)) ((R.state rack.old).reads (3 + n) 0) → (R.state rack.new).reads (3 + n) 0 ≡ (R.state rack.old).reads (3 + n) 0 }
        ensures owes { is_separate → OnlyAt who (owes self.old) (owes self.new) }
        ensures disks { R.tells rack.old → is_separate → OnlyDiskOf who (R.state rack.old) (R.state rack.new) }
        ensures new_session { (node : ℕ) → OnOk result (own self.new node ≢ own self.old node → asked self.new node ≡ None) }
        ensures own { is_separate → (node : ℕ) → who ≡ Node node → OnOk result ((own self.new node ≡ None) × (out_of self.new node ≡ None) × (asked self.new node ≡ None)) }
        ensures others { (node : ℕ) → who ≢ Node node → (own self.new node ≡ own self.old node) × (out_of self.new node ≡ out_of self.old node) × (asked self.new node ≡ asked self.old node) × (answer self.new node ≡ answer self.old node) }
        ensures needs { NeedsAt who (store_room (made self.old)) (needs self.old) (needs self.new) }
        ensures made { made self.new ≡ made self.old }
        ensures replicas { R.tells rack.old → SameReplicas (R.state rack.old) (R.state rack.new) × SameLabels (R.state rack.old) (R.state rack.new) }
        ensures rack { Counted R.Rack rack.old rack.new result DiskFails };

    /// A sector that stands so is settled so.
    ghost settles: { (st : Self) (x : Disks) (past : StorePast) (device sector : ℕ) (content : List ℕ) (index : ℕ) → keeps st x past → stands st x past device sector content index → settled st x past device sector content };

    /// And it stands so for readers that know more.
    ghost rises: { (st : Self) (x : Disks) (past : StorePast) (device sector : ℕ) (content : List ℕ) (index later : ℕ) → keeps st x past → index ≤ later → stands st x past device sector content index → stands st x past device sector content later };

    /// What is settled stands there.
    ghost settled_is: { (st : Self) (x : Disks) (past : StorePast) (device sector : ℕ) (content : List ℕ) → keeps st x past → settled st x past device sector content → IsSettled x (last past.told.chain) device sector content };

    /// A write that is out is of the node's own session.
    ghost own_out: { (st : Self) (x : Disks) (past : StorePast) (node : ℕ) (write : Sent) → keeps st x past → out_of st node ≡ Some write → own st node ≡ Some write.session };

    /// Of a node's session none of the writes may be taken any more, where the node has none out.
    ghost nothing_out: { (st : Self) (x : Disks) (past : StorePast) (node session : ℕ) → keeps st x past → own st node ≡ Some session → out_of st node ≡ None
        → keeps st x (without_session past session) × GoesOn past.writes past.told.greatest (asked st) (settled st x past) (settled st x (without_session past session)) (will_read st x past) (will_read st x (without_session past session)) (stands st x past) (stands st x (without_session past session)) };

    /// The chain may grow by each change that is legal, and that was handed back where a store asks for such.
    ghost grows: { (st : Self) (x : Disks) (past : StorePast) (change : Change) → keeps st x past → IsLegal (last past.told.chain) change → IsStoresOwn past.told.handed change
        → keeps st x (store_grown past change) × GoesOn past.writes past.told.greatest (asked st) (settled st x past) (settled st x (store_grown past change)) (will_read st x past) (will_read st x (store_grown past change)) (stands st x past) (stands st x (store_grown past change)) };

    /// The disk of a member that is down may crash, and stays as long as it was.
    ghost survives: { (st : Self) (x y : Disks) (past : StorePast) (n : ℕ) → keeps st x past → past.told.down (Member n) ≡ true → SameMemberLengths x y → Crashes (3 + n) x y
        → keeps st y past × GoesOn past.writes past.told.greatest (asked st) (settled st x past) (settled st y past) (will_read st x past) (will_read st y past) (stands st x past) (stands st y past) };

    /// Or be replaced by a blank one, where the device needs the other member alone.
    ghost replaced: { (st : Self) (x : Disks) (past : StorePast) (device : ℕ) (second : Bool) → keeps st x past → past.told.down (Member (member_disk device second - 3)) ≡ true → IsOnlyOther (last past.told.chain) device second
        → keeps st (blanked x (member_disk device second)) past × GoesOn past.writes past.told.greatest (asked st) (settled st x past) (settled st (blanked x (member_disk device second)) past) (will_read st x past) (will_read st (blanked x (member_disk device second)) past) (stands st x past) (stands st (blanked x (member_disk device second)) past) };

    /// Other disks don't matter.
    ghost elsewhere: { (st : Self) (x y : Disks) (past : StorePast) → keeps st x past → SameMemberLengths x y → SameMembers x y
        → keeps st y past × GoesOn past.writes past.told.greatest (asked st) (settled st x past) (settled st y past) (will_read st x past) (will_read st y past) (stands st x past) (stands st y past) };

    /// Letters may be lost, and come in any order and number; those of other layers don't matter.
    ghost loses: { (st : Self) (x : Disks) (past : StorePast) (letters : List Letter) → keeps st x past → AreAmong IsStores letters past.told.letters
        → keeps st x (record past { told = record past.told { letters = letters } }) × GoesOn past.writes past.told.greatest (asked st) (settled st x past) (settled st x (record past { told = record past.told { letters = letters } })) (will_read st x past) (will_read st x (record past { told = record past.told { letters = letters } })) (stands st x past) (stands st x (record past { told = record past.told { letters = letters } })) };

    /// The last state has the devices that it is made for, and each member that an audit would read has its label, surely, and all its sectors.
    ghost labelled: { (st : Self) (x : Disks) (past : StorePast) → keeps st x past → IsOfStore (made st) x (last past.told.chain) };

    /// In a new one each node has the session of the state that it is made for, and nothing is out.
    ghost begins_own: { (st : Self) (s : GlobalState) (node : ℕ) → is_new st → is_for st s → node < (made st).nodes → own st node ≡ session_by by_boot s node 0 };

    ghost begins_idle: { (st : Self) (node : ℕ) → is_new st → (out_of st node ≡ None) × (asked st node ≡ None) };

    /// A new one fits each disks that have their labels, and the state that it is made for, whose devices name no boot yet; or, where each
    /// machine's part is its own and it is made for a state without sessions, the state that is found on them, whose devices name none above this one.
    ghost begins: { (st : Self) (x : Disks) (s : GlobalState) → is_new st → is_for st s → IsAllowed s → IsOfStore (made st) x s → NamesUpTo 0 s → keeps st x (opening_store s) };

    ghost finds: { (st : Self) (x : Disks) (first s : GlobalState) (boot : ℕ) → is_new st → is_separate → is_for st first → first.sessions ≡ [] → IsAllowed s → IsOfStore (made st) x s → NamesUpTo boot s → keeps st x (found_store s boot) };

    /// Of a new one all that stands surely behind the labels stands so for each reader that knows the state.
    ghost begins_standing: { (st : Self) (x : Disks) (s : GlobalState) (device sector : ℕ) (content : List ℕ) → is_new st → device < (made st).devices → 1 ≤ sector → sector < store_room (made st)
        → IsSettled x s device sector content → stands st x (opening_store s) device sector content s.index };

    ghost finds_standing: { (st : Self) (x : Disks) (s : GlobalState) (boot device sector : ℕ) (content : List ℕ) → is_new st → is_separate → device < (made st).devices → 1 ≤ sector → sector < store_room (made st)
        → IsSettled x s device sector content → stands st x (found_store s boot) device sector content s.index };

    /// There is no answer without a read.
    ghost only_asked: { (st : Self) (node : ℕ) → asked st node ≡ None → answer st node ≡ None };

    /// It never needs more than a member's sectors of a disk.
    ghost needs_little: { (st : Self) (disk : ℕ) → needs st disk ≤ store_room (made st) };

    /// It needs nothing of the disks of replicas.
    ghost needs_none: { (st : Self) (disk : ℕ) → disk < 3 → needs st disk ≡ 0 };

    /// And nothing of disks that the volume hasn't got.
    ghost needs_of_volume: { (st : Self) (disk : ℕ) → 3 + 2 * (made st).devices ≤ disk → needs st disk ≡ 0 };
}
