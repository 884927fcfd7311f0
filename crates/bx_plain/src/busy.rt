//! The machines that have a proposal out.

ghost use Rattle.std.specs.Prelude.{◌≡◌, ◌↔◌, Contains, IsTrue, filter};
ghost use Rattle.bx_facts.specs.Machines.{is_same};
ghost use Rattle.bx_plain.specs.Busy.{is_other};

use bx_base::Actor;

/// Whether two names are one machine's.
pub(crate) fn is_same_machine(one: &Actor, other: &Actor) -> bool
    ensures { result ≡ is_same one.now other.now }
{
    match (one, other) {
        (Actor::Node(n), Actor::Node(m)) => n == m,
        (Actor::Replica(n), Actor::Replica(m)) => n == m,
        (Actor::Server(n), Actor::Server(m)) => n == m,
        (Actor::Member(n), Actor::Member(m)) => n == m,
        _ => false,
    }
}

/// Whether a machine is one of these.
pub(crate) fn is_in(machines: &Vec<Actor>, who: &Actor) -> bool
    ensures { IsTrue result ↔ Contains machines.now.items who.now }
{
    for machine in machines {
        if is_same_machine(who, machine) {
            return true;
        }
    }
    false
}

/// Takes a machine out.
pub(crate) fn take_out(machines: &mut Vec<Actor>, who: &Actor)
    ensures { machines.new.items ≡ filter (is_other who.now) machines.old.items }
{
    machines.retain(|machine| !is_same_machine(who, machine));
}
