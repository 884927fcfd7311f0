//! A toy: what a caller of a register, of owners and of a store can show from their contracts alone.

ghost use Rattle.std.specs.Prelude.{◌≡◌, ℕ, false, OnOk};
ghost use Rattle.bx_base.specs.declared.names.Actor.{Actor};
ghost use Rattle.bx_disk.specs.Disks.{Disks};
ghost use Rattle.bx_facts.specs.Disks.{HasRoom, NeedsNoMore};
ghost use Rattle.bx_facts.specs.Inputs.{IsRegisters, SendsOnly};
ghost use Rattle.bx_facts.specs.Machines.{IsMachine};
ghost use Rattle.bx_facts.specs.Pasts.{RegisterPast, register_with};
ghost use Rattle.bx_tests_stores.specs.Together.{Follows, Heard, MayStep, Offers, Past, Stays, Together, with_letters};

use bx_base::Actor;
use bx_disk::Rack;
use bx_facts::{FactError, Input, Outbox, Owners, ProposeError, Register, Store};
use bx_global::Change;

/// Proposes a change that is asked for, unless it isn't legal any more or another of the machine is out.
fn propose<G: Register>(
    register: &mut G,
    at: Actor,
    change: Option<Change>,
    out: &mut Outbox,
) -> Result<(), FactError>
    requires { IsMachine (G.nodes register.old) at }
    ensures keeps { (x : Disks) (past : RegisterPast) → G.keeps register.old x (register_with past out.old) → past.down at ≡ false → OnOk result (Offers (λ offered. G.keeps register.new x (register_with offered out.new)) change past) }
    ensures knows { (other : Actor) → G.knows register.new other ≡ G.knows register.old other }
    ensures sent { (x : Disks) (past : RegisterPast) → G.keeps register.old x (register_with past out.old) → OnOk result (SendsOnly IsRegisters out.old out.new) }
    ensures nodes { G.nodes register.new ≡ G.nodes register.old }
    ensures needs { NeedsNoMore (G.needs register.old) (G.needs register.new) }
{
    let Some(change) = change else {
        return Ok(());
    };
    match register.propose(at, &change, out) {
        Ok(()) | Err(ProposeError::NotLegal | ProposeError::Busy) => Ok(()),
        Err(ProposeError::OutOfMemory) => Err(FactError::OutOfMemory),
    }
}

/// One event of a machine, at the register and then, with the state that the machine knows by now, at the owners and at the store. The change
/// that one of these hands back is proposed, the owners' first.
pub fn hear<G: Register, O: Owners, S: Store, R: Rack>(
    register: &mut G,
    owners: &mut O,
    store: &mut S,
    rack: &mut R,
    at: Actor,
    input: &Input,
    out: &mut Outbox,
) -> Result<(), FactError>
    requires register_there { IsMachine (G.nodes register.old) at }
    requires owners_there { IsMachine (O.nodes owners.old) at }
    requires store_there { IsMachine ((S.made store.old).nodes) at }
    requires register_room { HasRoom (G.needs register.old) (R.state rack.old).sizes }
    requires store_room { HasRoom (S.needs store.old) (R.state rack.old).sizes }
    ensures keeps { (past : Past) → R.tells rack.old → Together (G.keeps register.old (R.state rack.old)) (O.keeps owners.old) (S.keeps store.old (R.state rack.old)) (G.knows register.old) (with_letters past out.old)
        → MayStep past at input.now
        → OnOk result (Heard (λ later. Together (G.keeps register.new (R.state rack.new)) (O.keeps owners.new) (S.keeps store.new (R.state rack.new)) (G.knows register.new) (with_letters later out.new))
        (Follows at (G.knows register.new at).index input.now past)
        (λ later. Stays (S.asked store.new) (S.settled store.old) (S.settled store.new) (S.will_read store.old) (S.will_read store.new) (S.stands store.old) (S.stands store.new) (R.state rack.old) (with_letters past out.old) (R.state rack.new) (with_letters later out.new))) }
    ensures nodes { (G.nodes register.new ≡ G.nodes register.old) × (O.nodes owners.new ≡ O.nodes owners.old) }
    ensures made { S.made store.new ≡ S.made store.old }
    ensures register_needs { NeedsNoMore (G.needs register.old) (G.needs register.new) }
    ensures store_needs { NeedsNoMore (S.needs store.old) (S.needs store.new) }
    ensures sizes { (R.state rack.new).sizes ≡ (R.state rack.old).sizes }
{
    register.take(rack, at, input, out)?;
    let known = register.known(at);
    let by_owners = owners.take(known, at, input, out)?;
    let by_store = store.take(rack, known, at, input, out)?;
    propose(register, at, by_owners.or(by_store), out)?;
    Ok(())
}
