//! What nodes tell of themselves.

ghost use Rattle.std.specs.Prelude.{◌≡◌, ◌<◌, false, true, length, IfSome, None, option_map, slice_get};
ghost use Rattle.std.specs.List.{list_any};
ghost use Rattle.bx_facts.specs.Machines.{IsMachine};
ghost use Rattle.bx_node_steps.specs.Calls.{CallOf, WaitsAt, call_written};
ghost use Rattle.bx_node_steps.specs.Tidying.{has_work};
ghost use Rattle.bx_node_steps.specs.declared.machine.Stage.TheVariants.{Idle};
ghost use Rattle.bx_nodes.specs.Standing.{OfNode};
ghost use Rattle.bx_nodes.specs.Tells.{lacks_in};

use crate::nodes::Nodes;
use bx_base::{Actor, CallNo};
use bx_facts::{Owners, Register, Store};
use bx_global::GlobalState;
use bx_node_steps::Stage;
use bx_views::Engine;

impl<G: Register, O: Owners, S: Store, E: Engine> Nodes<G, O, S, E> {
    /// Whether a member waits for a sync of its disk.
    pub fn waiting(&self, at: Actor) -> bool
        ensures { result ≡ S.owes self.now.store at }
    {
        self.store.waiting(at)
    }

    /// The state that a machine knows.
    pub fn known(&self, who: Actor) -> &GlobalState
        requires { IsMachine (G.nodes self.now.register) who }
        ensures { result.now ≡ G.knows self.now.register who }
    {
        self.register.known(who)
    }

    /// A node's session, where it has one that it knows to live.
    pub fn session(&self, node: u32) -> Option<u64>
        ensures { result ≡ O.own self.now.owners node }
    {
        self.owners.session(node)
    }

    /// Whether a call waits at a node.
    pub fn has_calls(&self, node: u32) -> bool
        requires there { node < length self.now.machines.items }
        ensures some { result ≡ true → OfNode self.now node (λ machine. (call : CallOf) × WaitsAt machine call) }
        ensures none { result ≡ false → OfNode self.now node (λ machine. (call : CallOf) → WaitsAt machine call → ⊥) }
    {
        self.machines[node as usize].has_calls()
    }

    /// Whether a node's log rests, and no write of it is out.
    pub fn is_resting(&self, node: u32) -> bool
        requires there { node < length self.now.machines.items }
        ensures rests { result ≡ true → OfNode self.now node (λ machine. machine.stage ≡ Idle) × (S.out_of self.now.store node ≡ None) }
        ensures busy { result ≡ false → OfNode self.now node (λ machine. machine.stage ≡ Idle → S.out_of self.now.store node ≡ None → ⊥) }
    {
        matches!(self.machines[node as usize].stage, Stage::Idle) && self.store.done(node)
    }

    /// The number of the call whose record is written at a node.
    pub fn written(&self, node: u32) -> Option<CallNo>
        requires there { node < length self.now.machines.items }
        ensures { OfNode self.now node (λ machine. result ≡ option_map (λ call. call.number) (call_written machine.stage)) }
    {
        self.machines[node as usize].written()
    }

    /// Whether the call with a number lacks its point: the record of it is written at some node.
    pub fn lacks_point(&self, number: CallNo) -> bool
        ensures { result ≡ lacks_in self.now.machines.items number }
    {
        self.machines
            .iter()
            .any(|machine| machine.written() == Some(number))
    }

    /// Whether something is left to do at some node: a call waits, a log doesn't rest, or a tidy is under way.
    pub fn has_work(&self) -> bool
        ensures { result ≡ list_any has_work self.now.machines.items }
    {
        self.machines.iter().any(|machine| machine.has_work())
    }

    /// The engine.
    pub fn engine(&self) -> &E
        ensures { result.now ≡ self.now.engine }
    {
        &self.engine
    }
}
