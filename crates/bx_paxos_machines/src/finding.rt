//! A machine found among all.

ghost use Rattle.std.specs.Prelude.{◌≡◌};
ghost use Rattle.bx_paxos_machines.specs.Parts.{place_in};

use crate::machine::Machine;
use bx_base::Actor;
use bx_proposer::is_same_machine;

/// The place of the machine with this name; the length of the list, where there is none.
pub fn place_of(machines: &Vec<Machine>, who: &Actor) -> usize
    ensures { result ≡ place_in machines.now.items who.now }
{
    let mut place = 0;
    for machine in machines {
        if is_same_machine(&machine.name(), who) {
            return place;
        }
        place += 1;
    }
    place
}
