//! What a node wants.

ghost use Rattle.std.specs.Prelude.{◌≡◌, ◌≢◌, ◌⊎◌, ◌++◌, ℕ, ◌<◌, false, true, length, List, Contains, IfSome, IsSome, IsSomeAnd, OnOk, None, Some, slice_get};
ghost use Rattle.std.specs.List.{AllByRecursion};
ghost use Rattle.bx_base.specs.declared.names.Actor.TheVariants.{Node};
ghost use Rattle.bx_disk.specs.Disks.{Disks};
ghost use Rattle.bx_facts.specs.Chains.{LivesIn, last};
ghost use Rattle.bx_facts.specs.Holds.{without_block};
ghost use Rattle.bx_node_cache.specs.Kept.{kept_in};
ghost use Rattle.bx_node_machines.specs.Machines.{home_of};
ghost use Rattle.bx_node_steps.specs.Changing.{LetsGo};
ghost use Rattle.bx_node_steps.specs.declared.machine.Fetch.TheVariants.{Block};
ghost use Rattle.bx_node_steps.specs.declared.machine.Machine.{Machine};
ghost use Rattle.bx_node_steps.specs.declared.machine.Stage.TheVariants.{Idle};
ghost use Rattle.bx_nodes.specs.Asks.{Gets, IsWanted, KeepsUnneeded, KeepsUnwanted, Later, MayRead, OnlyHolds, is_less, is_weaker};
ghost use Rattle.bx_nodes.specs.Giving.{AreWanted, IsInNeeds};
ghost use Rattle.bx_nodes.specs.Standing.{Asking, IsUnder, OfBoth, OfNode, Ready, Rests, Stand};
ghost use Rattle.bx_nodes.specs.Turns.{OnlyMachine};
ghost use Rattle.bx_places.specs.Places.{IsBlock};
ghost use Rattle.bx_post.specs.declared.packets.Letter.{Letter};
ghost use Rattle.bx_world_standing.specs.Parts.{Clocks};
ghost use Rattle.bx_world_standing.specs.Standing.{Course};

use crate::nodes::Nodes;
use bx_base::{Actor, Mode, OutOfMemory};
use bx_facts::{Owners, Register, Store};
use bx_node_steps::Fetch;
use bx_places::BLOCK_SECTORS;
use bx_post::Outbox;
use bx_records::Wants;
use bx_views::Engine;

impl<G: Register, O: Owners, S: Store, E: Engine> Nodes<G, O, S, E> {
    /// Does something about a block that is wanted: nothing where a request for it is out; else it is wanted, where it isn't held so; and where it is held by
    /// then it is read, where the node knows the index of its grant and reads nothing else. Only for a node whose log rests and that has no write out.
    pub fn ask(
        &mut self,
        node: u32,
        wanted: (u64, Mode),
        out: &mut Outbox,
    ) -> Result<(), OutOfMemory>
        requires there { (node < length self.old.machines.items) × (node < G.nodes self.old.register) }
        requires ready { Ready S.Store E.Engine self.old node }
        requires sessions { IsSome (O.own self.old.owners node) × IsSome (S.own self.old.store node) }
        requires rests { Rests self.old node }
        requires none_out { S.out_of self.old.store node ≡ None }
        requires is_block { IsBlock (S.made self.old.store).areas wanted.0 }
        ensures stands { (x : Disks) (letters : List Letter) (clocks : Clocks) (c : Course) (tree : E.Tree) (session : ℕ) → clocks.down (Node node) ≡ false → Stand G.Register O.Owners S.Store E.Engine self.old x (letters ++ out.old) clocks c tree
            → O.own self.old.owners node ≡ Some session → LivesIn (last c.register.chain) session → IsUnder self.old node session
            → OnOk result (Later (λ later. Stand G.Register O.Owners S.Store E.Engine self.new x (letters ++ out.new) clocks later tree) c) }
        ensures requested { IsSome (O.request self.old.owners node wanted.0) → OnOk result ((self.new ≡ self.old) × (out.new ≡ out.old)) }
        ensures held { O.request self.old.owners node wanted.0 ≡ None → is_weaker (O.hold self.old.owners node wanted.0) wanted.1 ≡ false
            → OnOk result ((self.new.owners ≡ self.old.owners) × OfBoth self.old self.new node (Gets (O.hold self.old.owners node wanted.0) (G.knows self.old.register (Node node)).index wanted.0 (S.asked self.new.store node ≡ Some (home_of (S.made self.old.store).devices wanted.0)) ((self.new.store ≡ self.old.store) × (out.new ≡ out.old)))) }
        ensures wants { O.request self.old.owners node wanted.0 ≡ None → is_weaker (O.hold self.old.owners node wanted.0) wanted.1 ≡ true
            → OnOk result (O.grants self.old.owners node wanted.0 wanted.1 self.new.owners × IsWanted (O.request self.new.owners node wanted.0) (O.hold self.new.owners node wanted.0) wanted.1 (O.is_spent self.new.owners node)
            × OfBoth self.old self.new node (λ old new. (middle : Machine) × LetsGo wanted.0 old middle × Gets (O.hold self.new.owners node wanted.0) (G.knows self.old.register (Node node)).index wanted.0 (S.asked self.new.store node ≡ Some (home_of (S.made self.old.store).devices wanted.0)) (self.new.store ≡ self.old.store) middle new)) }
        ensures owners { OnOk result (AreWanted O.Owners node (λ at mode. (at, mode) ≡ wanted) self.old.owners self.new.owners) }
        ensures asking { OnOk result (Asking G.Register O.Owners self.new node wanted.0) }
        ensures asks_on { (at : ℕ) → Asking G.Register O.Owners self.old node at → OnOk result (Asking G.Register O.Owners self.new node at) }
        ensures keeps { OnOk result (OfBoth self.old self.new node (λ old new. (at : ℕ) → at ≢ wanted.0 → kept_in new.cache.kept at ≡ kept_in old.cache.kept at)) }
        ensures ready { OnOk result (Ready S.Store E.Engine self.new node) }
        ensures rests { OnOk result (Rests self.new node) }
        ensures only { OnOk result (OfBoth self.old self.new node OnlyHolds) }
        ensures parts { (self.new.register ≡ self.old.register) × (self.new.engine ≡ self.old.engine) × (S.made self.new.store ≡ S.made self.old.store) }
        ensures own { (other : ℕ) → (O.own self.new.owners other ≡ O.own self.old.owners other) × (O.end_of self.new.owners other ≡ O.end_of self.old.owners other) × (S.own self.new.store other ≡ S.own self.old.store other) × (S.out_of self.new.store other ≡ S.out_of self.old.store other) }
        ensures nodes { O.nodes self.new.owners ≡ O.nodes self.old.owners }
        ensures elsewhere { (other : ℕ) → other ≢ node → S.asked self.new.store other ≡ S.asked self.old.store other }
        ensures others { OnlyMachine node self.old.machines.items self.new.machines.items }
        ensures count { length self.new.machines.items ≡ length self.old.machines.items }
    {
        let (at, mode) = wanted;
        if self.owners.wanted(node, at).is_some() {
            return Ok(());
        }
        if is_weaker(self.owners.holds(node, at), mode) {
            self.want(node, at, mode, out)?;
            return self.get(node, at, out);
        }
        self.get(node, at, out)
    }

    /// Does something about each of the blocks that calls need, in their order.
    pub fn ask_all(
        &mut self,
        node: u32,
        needs: &[Wants],
        out: &mut Outbox,
    ) -> Result<(), OutOfMemory>
        requires there { (node < length self.old.machines.items) × (node < G.nodes self.old.register) }
        requires ready { Ready S.Store E.Engine self.old node }
        requires sessions { IsSome (O.own self.old.owners node) × IsSome (S.own self.old.store node) }
        requires rests { Rests self.old node }
        requires none_out { S.out_of self.old.store node ≡ None }
        requires blocks { AllByRecursion (AllByRecursion (λ wanted. IsBlock (S.made self.old.store).areas wanted.0)) needs.now }
        ensures stands { (x : Disks) (letters : List Letter) (clocks : Clocks) (c : Course) (tree : E.Tree) (session : ℕ) → clocks.down (Node node) ≡ false → Stand G.Register O.Owners S.Store E.Engine self.old x (letters ++ out.old) clocks c tree
            → O.own self.old.owners node ≡ Some session → LivesIn (last c.register.chain) session → IsUnder self.old node session
            → OnOk result (Later (λ later. Stand G.Register O.Owners S.Store E.Engine self.new x (letters ++ out.new) clocks later tree) c) }
        ensures keeps { OnOk result (OfBoth self.old self.new node (KeepsUnneeded needs.now)) }
        ensures owners { OnOk result (AreWanted O.Owners node (IsInNeeds needs.now) self.old.owners self.new.owners) }
        ensures asking { OnOk result (AllByRecursion (AllByRecursion (λ wanted. Asking G.Register O.Owners self.new node wanted.0)) needs.now) }
        ensures asks_on { (at : ℕ) → Asking G.Register O.Owners self.old node at → OnOk result (Asking G.Register O.Owners self.new node at) }
        ensures ready { OnOk result (Ready S.Store E.Engine self.new node) }
        ensures rests { OnOk result (Rests self.new node) }
        ensures only { OnOk result (OfBoth self.old self.new node OnlyHolds) }
        ensures parts { (self.new.register ≡ self.old.register) × (self.new.engine ≡ self.old.engine) × (S.made self.new.store ≡ S.made self.old.store) }
        ensures own { (other : ℕ) → (O.own self.new.owners other ≡ O.own self.old.owners other) × (O.end_of self.new.owners other ≡ O.end_of self.old.owners other) × (S.own self.new.store other ≡ S.own self.old.store other) × (S.out_of self.new.store other ≡ S.out_of self.old.store other) }
        ensures nodes { O.nodes self.new.owners ≡ O.nodes self.old.owners }
        ensures elsewhere { (other : ℕ) → other ≢ node → S.asked self.new.store other ≡ S.asked self.old.store other }
        ensures others { OnlyMachine node self.old.machines.items self.new.machines.items }
        ensures count { length self.new.machines.items ≡ length self.old.machines.items }
    {
        let Some((first, rest)) = needs.split_first() else {
            return Ok(());
        };
        self.ask_each(node, first.items(), out)?;
        self.ask_all(node, rest, out)
    }

    /// Does something about each of the blocks that one call needs, or a tidy, in their order.
    pub(crate) fn ask_each(
        &mut self,
        node: u32,
        wants: &[(u64, Mode)],
        out: &mut Outbox,
    ) -> Result<(), OutOfMemory>
        requires there { (node < length self.old.machines.items) × (node < G.nodes self.old.register) }
        requires ready { Ready S.Store E.Engine self.old node }
        requires sessions { IsSome (O.own self.old.owners node) × IsSome (S.own self.old.store node) }
        requires rests { Rests self.old node }
        requires none_out { S.out_of self.old.store node ≡ None }
        requires blocks { AllByRecursion (λ wanted. IsBlock (S.made self.old.store).areas wanted.0) wants.now }
        ensures stands { (x : Disks) (letters : List Letter) (clocks : Clocks) (c : Course) (tree : E.Tree) (session : ℕ) → clocks.down (Node node) ≡ false → Stand G.Register O.Owners S.Store E.Engine self.old x (letters ++ out.old) clocks c tree
            → O.own self.old.owners node ≡ Some session → LivesIn (last c.register.chain) session → IsUnder self.old node session
            → OnOk result (Later (λ later. Stand G.Register O.Owners S.Store E.Engine self.new x (letters ++ out.new) clocks later tree) c) }
        ensures keeps { OnOk result (OfBoth self.old self.new node (KeepsUnwanted wants.now)) }
        ensures owners { OnOk result (AreWanted O.Owners node (λ at mode. Contains wants.now (at, mode)) self.old.owners self.new.owners) }
        ensures asking { OnOk result (AllByRecursion (λ wanted. Asking G.Register O.Owners self.new node wanted.0) wants.now) }
        ensures asks_on { (at : ℕ) → Asking G.Register O.Owners self.old node at → OnOk result (Asking G.Register O.Owners self.new node at) }
        ensures ready { OnOk result (Ready S.Store E.Engine self.new node) }
        ensures rests { OnOk result (Rests self.new node) }
        ensures only { OnOk result (OfBoth self.old self.new node OnlyHolds) }
        ensures parts { (self.new.register ≡ self.old.register) × (self.new.engine ≡ self.old.engine) × (S.made self.new.store ≡ S.made self.old.store) }
        ensures own { (other : ℕ) → (O.own self.new.owners other ≡ O.own self.old.owners other) × (O.end_of self.new.owners other ≡ O.end_of self.old.owners other) × (S.own self.new.store other ≡ S.own self.old.store other) × (S.out_of self.new.store other ≡ S.out_of self.old.store other) }
        ensures nodes { O.nodes self.new.owners ≡ O.nodes self.old.owners }
        ensures elsewhere { (other : ℕ) → other ≢ node → S.asked self.new.store other ≡ S.asked self.old.store other }
        ensures others { OnlyMachine node self.old.machines.items self.new.machines.items }
        ensures count { length self.new.machines.items ≡ length self.old.machines.items }
    {
        let Some((first, rest)) = wants.split_first() else {
            return Ok(());
        };
        self.ask(node, *first, out)?;
        self.ask_each(node, rest, out)
    }

    /// Wants a block that isn't held so, and lets go what the node has of it.
    fn want(&mut self, node: u32, at: u64, mode: Mode, out: &mut Outbox) -> Result<(), OutOfMemory>
        requires there { node < length self.old.machines.items }
        requires ready { Ready S.Store E.Engine self.old node }
        requires session { IsSome (O.own self.old.owners node) }
        requires rests { Rests self.old node }
        requires none_out { O.request self.old.owners node at ≡ None }
        requires weaker { is_weaker (O.hold self.old.owners node at) mode ≡ true }
        ensures stands { (x : Disks) (letters : List Letter) (clocks : Clocks) (c : Course) (tree : E.Tree) (session : ℕ) → clocks.down (Node node) ≡ false → Stand G.Register O.Owners S.Store E.Engine self.old x (letters ++ out.old) clocks c tree
            → O.own self.old.owners node ≡ Some session → LivesIn (last c.register.chain) session → IsUnder self.old node session
            → OnOk result (Later (λ later. Stand G.Register O.Owners S.Store E.Engine self.new x (letters ++ out.new) clocks later tree) c) }
        ensures goes { OnOk result (OfBoth self.old self.new node (LetsGo at)) }
        ensures wants { OnOk result (O.grants self.old.owners node at mode self.new.owners × IsWanted (O.request self.new.owners node at) (O.hold self.new.owners node at) mode (O.is_spent self.new.owners node)) }
        ensures asks { OnOk result (without_block at (O.asks self.new.owners node) ≡ without_block at (O.asks self.old.owners node)) }
        ensures asks_on { (other : ℕ) → other ≢ at → Asking G.Register O.Owners self.old node other → OnOk result (Asking G.Register O.Owners self.new node other) }
        ensures rests { OnOk result (Rests self.new node) }
        ensures ready { OnOk result (Ready S.Store E.Engine self.new node) }
        ensures parts { (self.new.register ≡ self.old.register) × (self.new.engine ≡ self.old.engine) × (self.new.store ≡ self.old.store) }
        ensures own { (other : ℕ) → (O.own self.new.owners other ≡ O.own self.old.owners other) × (O.end_of self.new.owners other ≡ O.end_of self.old.owners other) }
        ensures nodes { O.nodes self.new.owners ≡ O.nodes self.old.owners }
        ensures others { OnlyMachine node self.old.machines.items self.new.machines.items }
        ensures count { length self.new.machines.items ≡ length self.old.machines.items }
    {
        self.machines[node as usize].let_go(at);
        self.owners.want(node, at, mode, out)
    }

    /// Reads a block, where it is held and may be read now; what the node has of it, it lets go.
    fn get(&mut self, node: u32, at: u64, out: &mut Outbox) -> Result<(), OutOfMemory>
        requires there { (node < length self.old.machines.items) × (node < G.nodes self.old.register) }
        requires ready { Ready S.Store E.Engine self.old node }
        requires session { IsSome (S.own self.old.store node) }
        requires rests { Rests self.old node }
        requires none_out { S.out_of self.old.store node ≡ None }
        requires is_block { IsBlock (S.made self.old.store).areas at }
        ensures stands { (x : Disks) (letters : List Letter) (clocks : Clocks) (c : Course) (tree : E.Tree) (session : ℕ) → clocks.down (Node node) ≡ false → Stand G.Register O.Owners S.Store E.Engine self.old x (letters ++ out.old) clocks c tree
            → O.own self.old.owners node ≡ Some session → LivesIn (last c.register.chain) session → IsUnder self.old node session
            → OnOk result (Later (λ later. Stand G.Register O.Owners S.Store E.Engine self.new x (letters ++ out.new) clocks later tree) c) }
        ensures gets { OnOk result (OfBoth self.old self.new node (Gets (O.hold self.old.owners node at) (G.knows self.old.register (Node node)).index at (S.asked self.new.store node ≡ Some (home_of (S.made self.old.store).devices at)) ((self.new.store ≡ self.old.store) × (out.new ≡ out.old)))) }
        ensures asking { IsSome (O.hold self.old.owners node at) → OnOk result (Asking G.Register O.Owners self.new node at) }
        ensures asks_on { (other : ℕ) → Asking G.Register O.Owners self.old node other → OnOk result (Asking G.Register O.Owners self.new node other) }
        ensures rests { OnOk result (Rests self.new node) }
        ensures only { OnOk result (OfBoth self.old self.new node OnlyHolds) }
        ensures ready { OnOk result (Ready S.Store E.Engine self.new node) }
        ensures parts { (self.new.register ≡ self.old.register) × (self.new.engine ≡ self.old.engine) × (self.new.owners ≡ self.old.owners) × (S.made self.new.store ≡ S.made self.old.store) }
        ensures own { (other : ℕ) → (S.own self.new.store other ≡ S.own self.old.store other) × (S.out_of self.new.store other ≡ S.out_of self.old.store other) }
        ensures elsewhere { (other : ℕ) → other ≢ node → S.asked self.new.store other ≡ S.asked self.old.store other }
        ensures others { OnlyMachine node self.old.machines.items self.new.machines.items }
        ensures count { length self.new.machines.items ≡ length self.old.machines.items }
    {
        let Some(hold) = self.owners.holds(node, at) else {
            return Ok(());
        };
        if !self.may_read(node, hold.1) {
            return Ok(());
        }
        self.let_go(node, at);
        self.read(node, at, hold, out)
    }

    /// Lets go what a node has of a block that it holds on.
    fn let_go(&mut self, node: u32, at: u64)
        requires there { node < length self.old.machines.items }
        requires ready { Ready S.Store E.Engine self.old node }
        requires rests { Rests self.old node }
        requires none_out { S.out_of self.old.store node ≡ None }
        ensures stands { (x : Disks) (letters : List Letter) (clocks : Clocks) (c : Course) (tree : E.Tree) (session : ℕ) → clocks.down (Node node) ≡ false → Stand G.Register O.Owners S.Store E.Engine self.old x letters clocks c tree
            → O.own self.old.owners node ≡ Some session → LivesIn (last c.register.chain) session → IsUnder self.old node session
            → Later (λ later. Stand G.Register O.Owners S.Store E.Engine self.new x letters clocks later tree) c }
        ensures goes { OfBoth self.old self.new node (LetsGo at) }
        ensures rests { Rests self.new node }
        ensures ready { Ready S.Store E.Engine self.new node }
        ensures parts { (self.new.register ≡ self.old.register) × (self.new.engine ≡ self.old.engine) × (self.new.owners ≡ self.old.owners) × (self.new.store ≡ self.old.store) }
        ensures others { OnlyMachine node self.old.machines.items self.new.machines.items }
        ensures count { length self.new.machines.items ≡ length self.old.machines.items }
    {
        self.machines[node as usize].let_go(at);
    }

    /// Whether a block that is held may be read now.
    fn may_read(&self, node: u32, index: u64) -> bool
        requires there { (node < length self.now.machines.items) × (node < G.nodes self.now.register) }
        ensures may { result ≡ true → OfNode self.now node (λ machine. MayRead machine index (G.knows self.now.register (Node node)).index) }
        ensures may_not { result ≡ false → OfNode self.now node (λ machine. MayRead machine index (G.knows self.now.register (Node node)).index → ⊥) }
    {
        let machine = &self.machines[node as usize];
        matches!(machine.fetch, Fetch::Nothing)
            && index <= self.register.known(Actor::Node(node)).index
    }

    /// Reads the home of a block that is held, and of which the node has nothing.
    fn read(
        &mut self,
        node: u32,
        at: u64,
        hold: (Mode, u64),
        out: &mut Outbox,
    ) -> Result<(), OutOfMemory>
        requires there { node < length self.old.machines.items }
        requires ready { Ready S.Store E.Engine self.old node }
        requires session { IsSome (S.own self.old.store node) }
        requires rests { Rests self.old node }
        requires is_block { IsBlock (S.made self.old.store).areas at }
        requires hold { O.hold self.old.owners node at ≡ Some hold }
        requires none { OfNode self.old node (λ machine. kept_in machine.cache.kept at ≡ None) }
        requires may { OfNode self.old node (λ machine. MayRead machine hold.1 (G.knows self.old.register (Node node)).index) }
        ensures stands { (x : Disks) (letters : List Letter) (clocks : Clocks) (c : Course) (tree : E.Tree) (session : ℕ) → clocks.down (Node node) ≡ false → Stand G.Register O.Owners S.Store E.Engine self.old x (letters ++ out.old) clocks c tree
            → O.own self.old.owners node ≡ Some session → LivesIn (last c.register.chain) session → IsUnder self.old node session
            → OnOk result (Later (λ later. Stand G.Register O.Owners S.Store E.Engine self.new x (letters ++ out.new) clocks later tree) c) }
        ensures reads { OnOk result (OfBoth self.old self.new node (λ old new. new ≡ record old { fetch = Block at hold.0 }) × (S.asked self.new.store node ≡ Some (home_of (S.made self.old.store).devices at))) }
        ensures ready { OnOk result (Ready S.Store E.Engine self.new node) }
        ensures parts { (self.new.register ≡ self.old.register) × (self.new.engine ≡ self.old.engine) × (self.new.owners ≡ self.old.owners) × (S.made self.new.store ≡ S.made self.old.store) }
        ensures own { (other : ℕ) → (S.own self.new.store other ≡ S.own self.old.store other) × (S.out_of self.new.store other ≡ S.out_of self.old.store other) }
        ensures elsewhere { (other : ℕ) → other ≢ node → S.asked self.new.store other ≡ S.asked self.old.store other }
        ensures others { OnlyMachine node self.old.machines.items self.new.machines.items }
        ensures count { length self.new.machines.items ≡ length self.old.machines.items }
    {
        let machine = &mut self.machines[node as usize];
        let (device, place) = machine.cache.place(at);
        self.store
            .read(node, device, place, BLOCK_SECTORS as u32, out)?;
        machine.fetch = Fetch::Block(at, hold.0);
        Ok(())
    }
}

/// Whether a mode that is wanted isn't held yet.
fn is_weaker(hold: Option<(Mode, u64)>, wanted: Mode) -> bool
    ensures { result ≡ is_weaker hold wanted }
{
    match hold {
        None => true,
        Some((held, _)) => is_less(held, wanted),
    }
}

/// Whether a mode is weaker than another.
fn is_less(held: Mode, wanted: Mode) -> bool
    ensures { result ≡ is_less held wanted }
{
    matches!((held, wanted), (Mode::Shared, Mode::Exclusive))
}
