//! Owners: who holds which block.

ghost use Rattle.std.specs.Prelude.{◌≡◌, ◌≢◌, ℕ, ◌+◌, ◌<◌, ◌≤◌, ◌⊎◌, max, Bool, true, false, List, [], Contains, OnOk, IfOk, IfSome, IsSomeAnd, IsSome, Option, Some, None};
ghost use Rattle.bx_records.specs.bx_base.specs.declared.names.Actor.{Actor};
ghost use Rattle.bx_records.specs.bx_base.specs.declared.names.Actor.TheVariants.{Node};
ghost use Rattle.bx_records.specs.bx_base.specs.declared.names.Mode.{Mode};
ghost use Rattle.bx_records.specs.bx_base.specs.declared.names.Mode.TheVariants.{Shared, Exclusive};
ghost use Rattle.bx_global.specs.Allowed.{IsAllowed};
ghost use Rattle.bx_global.specs.Table.{IsLegal};
ghost use Rattle.bx_global.specs.declared.change.Change.{Change};
ghost use Rattle.bx_global.specs.declared.state.GlobalState.{GlobalState};
ghost use Rattle.bx_post.specs.declared.packets.Letter.{Letter};
ghost use Rattle.bx_global.specs.bx_rows.specs.Words.{row_in};
ghost use Rattle.bx_facts.specs.declared.input.Input.{Input};
ghost use Rattle.bx_facts.specs.Chains.{HasRow, IsOwnersKind, IsOwnersOwn, IsPlace, LivesIn, last, oldest, opened_at, session_by};
ghost use Rattle.bx_facts.specs.Holds.{Hold, Holding, IsRevoke, KeepsHolds, KeepsOthers, OwnersPast, first_of, found_owners, given, hold_of, leased, opening_owners, owners_crashed, owners_grown, owners_heard, owners_restarted, owners_with, without_block};
ghost use Rattle.bx_facts.specs.Inputs.{AreAmong, IsOwners, SendsOnly};
ghost use Rattle.bx_facts.specs.Machines.{IsMachine};
ghost use Rattle.bx_facts.specs.Pasts.{MayRestart, MayTake};

use crate::input::Input;
use bx_global::{Change, GlobalState};
use bx_post::Outbox;
use bx_records::base::{Actor, Mode, OutOfMemory};

/// Who holds which block, and how long sessions last. What was done with owners is no part of them: a clause says what fits them after a
/// call, of each past that fitted them before.
pub trait Owners: Drop {
    /// Whether each machine's part is its own, and a node's session ends with its restart.
    ghost is_separate: { Type 0 };

    /// Whether a node's session is told by its boot.
    ghost by_boot: { Bool };

    /// They are made for so many nodes, and for this state.
    ghost is_for: { Self → ℕ → GlobalState → Type 0 };

    /// How many nodes the cluster has.
    ghost nodes: { Self → ℕ };

    /// Whether nothing was done with them yet.
    ghost is_new: { Self → Type 0 };

    /// The live session that a node knows of itself.
    ghost own: { Self → ℕ → Option ℕ };

    /// The end of a node's session, in milliseconds.
    ghost end_of: { Self → ℕ → Option ℕ };

    /// How a node holds a block.
    ghost hold: { Self → ℕ → ℕ → Option Hold };

    /// The requests that are out, by node and block.
    ghost request: { Self → ℕ → ℕ → Option Mode };

    /// The blocks that a node is asked to give back, each with a session that asks, in the order of those sessions.
    ghost asks: { Self → ℕ → List (ℕ × ℕ) };

    /// Whether a node has no number left for a request.
    ghost is_spent: { Self → ℕ → Type 0 };

    /// This past is one that led to them.
    ghost keeps: { Self → OwnersPast → Type 0 };

    /// What a machine must propose after an input.
    ghost hands: { Self → GlobalState → Actor → Input → Option Change → Type 0 };

    /// What a node's want of a block in a mode makes of what is held and wanted, exactly.
    ghost grants: { Self → ℕ → ℕ → Mode → Self → Type 0 };

    /// What a block that a node gives up makes of it, exactly.
    ghost passes_on: { Self → ℕ → ℕ → Self → Type 0 };

    /// The node's session; `None` exactly where it has no live session that it knows. It takes no memory.
    fn session(&self, node: u32) -> Option<u64>
        ensures { result ≡ own self.now node };

    /// The end of the node's session, in milliseconds; `None` exactly where it has none. It takes no memory.
    fn lease(&self, node: u32) -> Option<u64>
        ensures { result ≡ end_of self.now node };

    /// How the node holds a block, and the index that the grant carried. It takes no memory.
    fn holds(&self, node: u32, block: u64) -> Option<(Mode, u64)>
        ensures { result ≡ hold self.now node block };

    /// The mode in which a block is wanted and not yet held. It takes no memory.
    fn wanted(&self, node: u32, block: u64) -> Option<Mode>
        ensures { result ≡ request self.now node block };

    /// The first of the blocks that are asked back, and the session that asks. It takes no memory.
    fn asked(&self, node: u32) -> Option<(u64, u64)>
        ensures { result ≡ first_of (asks self.now node) };

    /// Wants a block, in another mode than it is held in now. That hold ends. Where the node has no number left, nothing is sent, and no request is
    /// out.
    fn want(
        &mut self,
        node: u32,
        block: u64,
        mode: Mode,
        out: &mut Outbox,
    ) -> Result<(), OutOfMemory>
        requires session { IsSome (own self.old node) }
        requires none_out { request self.old node block ≡ None }
        ensures keeps { (past : OwnersPast) (session : ℕ) → keeps self.old (owners_with past out.old) → past.told.down (Node node) ≡ false → own self.old node ≡ Some session → OnOk result (Holding (KeepsOthers session block past.holding) (keeps self.new) (owners_with past out.new)) }
        ensures wants { OnOk result (((request self.new node block ≡ Some mode) ⊎ IsSomeAnd (hold self.new node block) (λ held. held.0 ≡ mode)) ⊎ (is_spent self.old node × (request self.new node block ≡ None) × (hold self.new node block ≡ None) × (out.new ≡ out.old))) }
        ensures spent { is_spent self.old node → OnOk result (is_spent self.new node) }
        ensures grants { OnOk result (grants self.old node block mode self.new) }
        ensures requests { (other : ℕ) → other ≢ node → OnOk result ((request self.new other block ≡ None) ⊎ (request self.new other block ≡ request self.old other block)) }
        ensures other_blocks { (other at : ℕ) → at ≢ block → OnOk result ((request self.new other at ≡ request self.old other at) × (hold self.new other at ≡ hold self.old other at)) }
        ensures asks { OnOk result (without_block block (asks self.new node) ≡ without_block block (asks self.old node)) }
        ensures own { (other : ℕ) → (own self.new other ≡ own self.old other) × (end_of self.new other ≡ end_of self.old other) }
        ensures apart { is_separate → (other at : ℕ) → other ≢ node → (hold self.new other at ≡ hold self.old other at) × (request self.new other at ≡ request self.old other at) × (asks self.new other ≡ asks self.old other) }
        ensures sent { OnOk result (SendsOnly IsOwners out.old out.new) }
        ensures nodes { nodes self.new ≡ nodes self.old };

    /// Gives up a block whose bytes are home. Nobody is to read it at a state below the index, which is that of a state in which the node's
    /// session is live.
    fn give_up(
        &mut self,
        node: u32,
        block: u64,
        index: u64,
        out: &mut Outbox,
    ) -> Result<(), OutOfMemory>
        requires held { IsSome (hold self.old node block) }
        ensures keeps { (past : OwnersPast) (session : ℕ) (s : GlobalState) → keeps self.old (owners_with past out.old) → past.told.down (Node node) ≡ false → own self.old node ≡ Some session → IsPlace past.told.chain s → s.index ≡ index → LivesIn s session → OnOk result (Holding (KeepsOthers session block past.holding) (keeps self.new) (owners_with (given past (hold self.old node block) block index) out.new)) }
        ensures gone { OnOk result (hold self.new node block ≡ None) }
        ensures passes_on { OnOk result (passes_on self.old node block self.new) }
        ensures requests { (other at : ℕ) → OnOk result ((request self.new other at ≡ None) ⊎ (request self.new other at ≡ request self.old other at)) }
        ensures asks { OnOk result (asks self.new node ≡ without_block block (asks self.old node)) }
        ensures own { (other : ℕ) → (own self.new other ≡ own self.old other) × (end_of self.new other ≡ end_of self.old other) }
        ensures apart { is_separate → (other at : ℕ) → other ≢ node → (hold self.new other at ≡ hold self.old other at) × (request self.new other at ≡ request self.old other at) × (asks self.new other ≡ asks self.old other) }
        ensures sent { OnOk result (SendsOnly IsOwners out.old out.new) }
        ensures nodes { nodes self.new ≡ nodes self.old };

    /// Does one event of a machine, which knows this state. The change is one that it must propose. All that is held stays held, and the end of a
    /// session that stays doesn't fall. A request that goes was granted, revoked, or of another session than the node has now.
    fn take(
        &mut self,
        known: &GlobalState,
        at: Actor,
        input: &Input,
        out: &mut Outbox,
    ) -> Result<Option<Change>, OutOfMemory>
        requires there { IsMachine (nodes self.old) at }
        requires known { ∥ IsAllowed known.now ∥₁ }
        ensures keeps { (past : OwnersPast) → keeps self.old (owners_with past out.old) → MayTake (owners_with past out.old).told known.now at input.now → IfOk result (λ change. Holding (KeepsHolds past.holding) (keeps self.new) (owners_with (owners_heard past at known.now.index input.now change) out.new)) }
        ensures session { (past : OwnersPast) (node : ℕ) → keeps self.old (owners_with past out.old) → MayTake (owners_with past out.old).told known.now at input.now → at ≡ Node node → OnOk result (own self.new node ≡ session_by by_boot known.now node (past.told.boots at)) }
        ensures others { (node : ℕ) → at ≢ Node node → own self.new node ≡ own self.old node }
        ensures ends { (node session : ℕ) → own self.old node ≡ Some session → OnOk result (own self.new node ≡ Some session → IfSome (end_of self.old node) (λ before. IfSome (end_of self.new node) (λ now. before ≤ now))) }
        ensures requests { (node block : ℕ) → OnOk result (((request self.new node block ≡ None) × (IsSome (hold self.new node block) ⊎ (own self.new node ≢ own self.old node) ⊎ IsRevoke input.now node)) ⊎ (request self.new node block ≡ request self.old node block)) }
        ensures hands { IfOk result (hands self.old known.now at input.now) }
        ensures kind { IfOk result (λ change. IfSome change IsOwnersKind) }
        ensures apart { is_separate → (other block : ℕ) → at ≢ Node other → (end_of self.new other ≡ end_of self.old other) × (hold self.new other block ≡ hold self.old other block) × (request self.new other block ≡ request self.old other block) × (asks self.new other ≡ asks self.old other) }
        ensures sent { OnOk result (SendsOnly IsOwners out.old out.new) }
        ensures nodes { nodes self.new ≡ nodes self.old };

    /// A machine stops. What its session holds stays held. It takes no memory.
    fn crash(&mut self, who: Actor)
        ensures keeps { (past : OwnersPast) → keeps self.old past → keeps self.new (owners_crashed past who) }
        ensures ended { (node : ℕ) → who ≡ Node node → (own self.new node ≡ None) ⊎ (own self.new node ≡ own self.old node) }
        ensures others { (node : ℕ) → who ≢ Node node → (own self.new node ≡ own self.old node) × (end_of self.new node ≡ end_of self.old node) }
        ensures apart { (node block : ℕ) → who ≢ Node node → (hold self.new node block ≡ hold self.old node block) × (request self.new node block ≡ request self.old node block) × (is_separate → asks self.new node ≡ asks self.old node) }
        ensures nodes { nodes self.new ≡ nodes self.old };

    /// A machine that is down starts again, with a boot above those that it had or that were found. It takes no memory.
    fn restart(&mut self, who: Actor, boot: u64, reading: u64)
        ensures keeps { (past : OwnersPast) → keeps self.old past → MayRestart past.told who boot reading → keeps self.new (owners_restarted past who boot reading) }
        ensures own { is_separate → (node : ℕ) → who ≡ Node node → own self.new node ≡ None }
        ensures others { (node : ℕ) → who ≢ Node node → (own self.new node ≡ own self.old node) × (end_of self.new node ≡ end_of self.old node) }
        ensures apart { (node block : ℕ) → who ≢ Node node → (hold self.new node block ≡ hold self.old node block) × (request self.new node block ≡ request self.old node block) × (is_separate → asks self.new node ≡ asks self.old node) }
        ensures nodes { nodes self.new ≡ nodes self.old };

    /// What a node holds is what its session holds.
    ghost held: { (o : Self) (past : OwnersPast) (node block : ℕ) → keeps o past → hold o node block ≡ hold_of (own o node) past.holding block };

    /// A node has an end exactly where it has a session.
    ghost ends: { (o : Self) (past : OwnersPast) (node session : ℕ) → keeps o past → own o node ≡ Some session → IsSome (end_of o node) };

    ghost ends_none: { (o : Self) (past : OwnersPast) (node : ℕ) → keeps o past → own o node ≡ None → end_of o node ≡ None };

    /// The end that a node has may be relied on.
    ghost leases: { (o : Self) (past : OwnersPast) (node session end : ℕ) → keeps o past → own o node ≡ Some session → end_of o node ≡ Some end → keeps o (leased past session end) };

    /// A session whose end isn't past by every clock is live.
    ghost lives: { (o : Self) (past : OwnersPast) (session end : ℕ) → keeps o past → Contains past.leases (session, end) → past.told.greatest ≤ end + 500 → LivesIn (last past.told.chain) session };

    /// What a session holds that has a row, no other that has one holds too, unless both share it.
    ghost apart: { (o : Self) (past : OwnersPast) (session other block : ℕ) (hold other_hold : Hold) → keeps o past → HasRow (last past.told.chain) session → HasRow (last past.told.chain) other → other ≢ session
        → past.holding session block ≡ Some hold → past.holding other block ≡ Some other_hold → (hold.0 ≡ Shared) × (other_hold.0 ≡ Shared) };

    /// While a session of an earlier term has a row, no live session holds anything.
    ghost alone: { (o : Self) (past : OwnersPast) (session other block : ℕ) (hold : Hold) → keeps o past → LivesIn (last past.told.chain) session → HasRow (last past.told.chain) other
        → past.holding session block ≡ Some hold → oldest past.told.chain ≤ other };

    /// A hold's index, or that of the state in which its session's row first stood, reaches the floor.
    ghost reaches: { (o : Self) (past : OwnersPast) (session block : ℕ) (hold : Hold) → keeps o past → LivesIn (last past.told.chain) session → past.holding session block ≡ Some hold → past.floor block ≤ max hold.1 (opened_at past.told.chain session) };

    /// A node's own session had a row.
    ghost was_opened: { (o : Self) (past : OwnersPast) (node session : ℕ) → keeps o past → own o node ≡ Some session → session < (last past.told.chain).next_session };

    /// The chain may grow by each change that is legal, and that was handed back where owners ask for such. The floors rise with it.
    ghost grows: { (o : Self) (past : OwnersPast) (change : Change) → keeps o past → IsLegal (last past.told.chain) change → IsOwnersOwn past.told.handed change → keeps o (owners_grown past change) };

    /// Letters may be lost, and come in any order and number; those of other layers don't matter.
    ghost loses: { (o : Self) (past : OwnersPast) (letters : List Letter) → keeps o past → AreAmong IsOwners letters past.told.letters → keeps o (record past { told = record past.told { letters = letters } }) };

    /// In new ones each node has the session of the state that they are made for, and an end no earlier than its row says.
    ghost begins_own: { (o : Self) (nodes_of : ℕ) (s : GlobalState) (node : ℕ) → is_new o → is_for o nodes_of s → node < nodes_of → own o node ≡ session_by by_boot s node 0 };

    ghost begins_end: { (o : Self) (nodes_of : ℕ) (s : GlobalState) (node session : ℕ) → is_new o → is_for o nodes_of s → own o node ≡ Some session → IsSomeAnd (row_in s.sessions session) (λ row. IfSome (end_of o node) (λ end. row.until ≤ end)) };

    /// New ones fit the state that they are made for.
    ghost begins: { (o : Self) (nodes : ℕ) (s : GlobalState) → is_new o → is_for o nodes s → IsAllowed s → keeps o (opening_owners s) };

    /// They fit each state that is found on disks, too, where each machine's part is its own and they are made for a state without sessions.
    ghost finds: { (o : Self) (nodes_of : ℕ) (made s : GlobalState) (boot : ℕ) → is_new o → is_separate → is_for o nodes_of made → made.sessions ≡ [] → IsAllowed s → keeps o (found_owners s boot) };

    /// They are for as many nodes as they are made for.
    ghost has_nodes: { (o : Self) (nodes_of : ℕ) (s : GlobalState) → is_for o nodes_of s → nodes o ≡ nodes_of };
}
