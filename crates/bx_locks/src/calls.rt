//! What a node's layer asks of its clerk.

ghost use Rattle.std.specs.Prelude.{◌≡◌, ◌≤◌, ◌++◌, max, IsSome, MatchOption, OnOk};
ghost use Rattle.bx_base.specs.declared.names.Actor.TheVariants.{Node};
ghost use Rattle.bx_clerk.specs.Clerks.{asked_back, asking, asking_words, end_as, giving_up, giving_words, letters_of};
ghost use Rattle.bx_clerk.specs.Requests.{hold_of, request_in, wish_of};
ghost use Rattle.bx_facts.specs.Holds.{first_of};
ghost use Rattle.bx_locks.specs.Machines.{OnlyMachine, clerk_of, nodes_of};

use crate::locks::Locks;
use bx_base::{Mode, OutOfMemory};
use bx_clerk::Clerk;
use bx_facts::Outbox;

impl Locks {
    /// The clerk of a node; `None` exactly where the cluster has no such node.
    fn clerk(&self, node: u32) -> Option<&Clerk>
        ensures { MatchOption result (nodes_of self.now ≤ node) (λ clerk. clerk.now ≡ clerk_of self.now node) }
    {
        self.clerks.get(node as usize)
    }

    /// The node's session; `None` exactly where its clerk knows of no live one. It takes no memory.
    pub fn session(&self, node: u32) -> Option<u64>
        ensures { result ≡ (clerk_of self.now node).session }
    {
        match self.clerk(node) {
            None => None,
            Some(clerk) => clerk.session(),
        }
    }

    /// The end of the node's session, in milliseconds; `None` exactly where it has none. It takes no memory.
    pub fn lease(&self, node: u32) -> Option<u64>
        ensures { result ≡ end_as (clerk_of self.now node).session (clerk_of self.now node).lease }
    {
        match self.clerk(node) {
            None => None,
            Some(clerk) => clerk.lease(),
        }
    }

    /// How the node holds a block, and from which state on it may be read. It takes no memory.
    pub fn holds(&self, node: u32, block: u64) -> Option<(Mode, u64)>
        ensures { result ≡ hold_of (request_in (clerk_of self.now node).requests block) }
    {
        match self.clerk(node) {
            None => None,
            Some(clerk) => clerk.holds(block),
        }
    }

    /// How the node wants a block that it doesn't hold yet. It takes no memory.
    pub fn wanted(&self, node: u32, block: u64) -> Option<Mode>
        ensures { result ≡ wish_of (request_in (clerk_of self.now node).requests block) }
    {
        match self.clerk(node) {
            None => None,
            Some(clerk) => clerk.wanted(block),
        }
    }

    /// The first of the blocks that are asked back of the node, and the session that asks. It takes no memory.
    pub fn asked(&self, node: u32) -> Option<(u64, u64)>
        ensures { result ≡ first_of (asked_back (clerk_of self.now node)) }
    {
        match self.clerk(node) {
            None => None,
            Some(clerk) => clerk.asked(),
        }
    }

    /// A node that has a session wants a block, in another mode than it is held in now. That hold ends. Where no number is left for a
    /// request nothing is asked.
    pub fn want(
        &mut self,
        node: u32,
        block: u64,
        mode: Mode,
        out: &mut Outbox,
    ) -> Result<(), OutOfMemory>
        requires { IsSome (clerk_of self.old node).session }
        ensures asks { OnOk result (clerk_of self.new node ≡ asking block mode (clerk_of self.old node)) }
        ensures sends { OnOk result (out.new ≡ out.old ++ letters_of (clerk_of self.old node) (asking_words (clerk_of self.old node).session block mode (clerk_of self.old node))) }
        ensures session { ((clerk_of self.new node).session ≡ (clerk_of self.old node).session) × ((clerk_of self.new node).lease ≡ (clerk_of self.old node).lease) }
        ensures only { OnlyMachine (Node node) self.old self.new }
    {
        self.clerks[node as usize].want(block, mode, out)
    }

    /// A node gives up a block that it holds and whose bytes are home, at the index of a state.
    pub fn give_up(
        &mut self,
        node: u32,
        block: u64,
        index: u64,
        out: &mut Outbox,
    ) -> Result<(), OutOfMemory>
        requires { IsSome (hold_of (request_in (clerk_of self.old node).requests block)) }
        ensures gives { OnOk result (clerk_of self.new node ≡ giving_up block index (clerk_of self.old node)) }
        ensures sends { OnOk result (out.new ≡ out.old ++ letters_of (clerk_of self.old node) (giving_words (clerk_of self.old node).session block (request_in (clerk_of self.old node).requests block) (max (clerk_of self.old node).given index))) }
        ensures session { ((clerk_of self.new node).session ≡ (clerk_of self.old node).session) × ((clerk_of self.new node).lease ≡ (clerk_of self.old node).lease) }
        ensures only { OnlyMachine (Node node) self.old self.new }
    {
        self.clerks[node as usize].give_up(block, index, out)
    }
}
