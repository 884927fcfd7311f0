//! What comes to a machine.

ghost use Rattle.std.specs.Prelude.{◌≡◌, IfOk};
ghost use Rattle.bx_facts.specs.Machines.{IsMachine};
ghost use Rattle.bx_facts.specs.declared.input.Input.TheVariants.{Synced};
ghost use Rattle.bx_locks.specs.Events.{RestartsAt, TakesAt, input_for};
ghost use Rattle.bx_locks.specs.Machines.{OnlyMachine, nodes_of};

use crate::locks::Locks;
use bx_base::{Actor, OutOfMemory};
use bx_facts::{Input, Outbox};
use bx_global::{Change, GlobalState};

/// What an input is to a machine: a packet for another one says nothing to it.
fn input_for<'a>(at: Actor, input: &'a Input<'a>, nothing: &'a Input<'a>) -> &'a Input<'a>
    requires { nothing.now ≡ Synced }
    ensures { result.now ≡ input_for at input.now }
{
    match input {
        Input::Packet(packet, _) if packet.to != at => nothing,
        _ => input,
    }
}

impl Locks {
    /// Does one event of a machine, which knows this state; readings are in milliseconds. The change is one that it must propose. A packet for
    /// another machine is passed over.
    pub fn take(
        &mut self,
        known: &GlobalState,
        at: Actor,
        input: &Input,
        out: &mut Outbox,
    ) -> Result<Option<Change>, OutOfMemory>
        requires { IsMachine (nodes_of self.old) at }
        ensures takes { IfOk result (λ change. TakesAt at known.now (input_for at input.now) self.old self.new change out.old out.new) }
        ensures only { OnlyMachine at self.old self.new }
    {
        let nothing = Input::Synced;
        let input = input_for(at, input, &nothing);
        match at {
            Actor::Node(node) => self.clerks[node as usize].take(known, input, out),
            Actor::Server(server) => self.masters[server as usize].take(known, input, out),
            Actor::Replica(_) | Actor::Member(_) => Ok(None),
        }
    }

    /// A machine stops. Nothing of it is used until it starts again, so all stays as it was. It takes no memory.
    pub fn crash(&mut self, _who: Actor)
        ensures { self.new ≡ self.old }
    {}

    /// A machine starts again, in a boot, and knows nothing of what was before. It takes no memory.
    pub fn restart(&mut self, who: Actor, boot: u64)
        ensures restarts { RestartsAt who boot self.old self.new }
        ensures only { OnlyMachine who self.old self.new }
    {
        match who {
            Actor::Node(node) => {
                if (node as usize) < self.clerks.len() {
                    self.clerks[node as usize].restart(boot);
                }
            }
            Actor::Server(server) => {
                if server < 2 {
                    self.masters[server as usize].restart(boot);
                }
            }
            Actor::Replica(_) | Actor::Member(_) => {}
        }
    }
}
