//! A rack that is checked.

ghost use Rattle.std.specs.Prelude.{◌≡◌, ◌≤◌, ◌++◌, IfErr, OnOk};
ghost use Rattle.bx_rack_audit.specs.bx_audit.specs.declared.listing.Listing.{Listing};
ghost use Rattle.bx_model.specs.declared.tree.Tree.{Tree};
ghost use Rattle.bx_model.specs.Listing.{listing};
ghost use Rattle.bx_rack_audit.specs.Alone.{IsListedAlone, StandAlone};
ghost use Rattle.bx_rack_commands.specs.Checks.{BreaksOff, HasCause, IsRightly, LeavesOutput};

use crate::failure::Failure;
use bx_disk::Rack;
use bx_outside::{Sink, write_all};
use bx_rack_audit::audit;
use std::alloc::Global;

/// Reads the file tree that a rack holds, in the state that the cells of its replicas tell, and writes its listing. The disks stay as they
/// were. Where they are refused nothing is written, and they stand for no file tree.
pub fn check<R: Rack, K: Sink>(alloc: Global, rack: &mut R, out: &mut K) -> Result<(), Failure>
    ensures listed { R.tells rack.old → OnOk result ((listed : Listing) × IsListedAlone (R.state rack.old) listed × (K.tells out.old → K.written out.new ≡ K.written out.old ++ listed.text)) }
    ensures stands { R.tells rack.old → K.tells out.old → (tree : Tree) → StandAlone (R.state rack.old) tree → OnOk result (K.written out.new ≡ K.written out.old ++ listing tree) }
    ensures rightly { R.tells rack.old → IfErr result (IsRightly (R.state rack.old)) }
    ensures breaks { R.tells rack.old → (tree : Tree) → StandAlone (R.state rack.old) tree → IfErr result BreaksOff }
    ensures output { R.tells rack.old → K.tells out.old → IfErr result (LeavesOutput (R.state rack.old) (K.written out.old) (K.written out.new)) }
    ensures cause { IfErr result (HasCause (R.faults rack.old) (R.faults rack.new) (K.faults out.old) (K.faults out.new)) }
    ensures no_fault { OnOk result ((R.faults rack.new ≡ R.faults rack.old) × (K.faults out.new ≡ K.faults out.old)) }
    ensures stays { R.state rack.new ≡ R.state rack.old }
    ensures later { (R.faults rack.old ≤ R.faults rack.new) × (K.faults out.old ≤ K.faults out.new) }
    ensures keeps_telling { R.tells rack.old → R.tells rack.new }
    ensures sink_keeps_telling { K.tells out.old → K.tells out.new }
{
    let listed = match audit(alloc, rack) {
        Ok(listed) => listed,
        Err(error) => return Err(Failure::from(error)),
    };
    match write_all(out, listed.text.bytes()) {
        Ok(()) => Ok(()),
        Err(_fault) => Err(Failure::WriteFault),
    }
}
