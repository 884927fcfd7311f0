//! The audit of a rack alone.

ghost use Rattle.std.specs.Prelude.{◌≡◌, ◌⊎◌, IfOk, IfErr};
ghost use Rattle.bx_model.specs.Listing.{listing};
ghost use Rattle.bx_model.specs.declared.tree.Tree.{Tree};
ghost use Rattle.bx_overlay.specs.Kept.{ReadsDisks};
ghost use Rattle.bx_overlay.specs.Refusals.{IsBreak};
ghost use Rattle.bx_rack_audit.specs.Alone.{IsListedAlone, IsRefusedAlone, StandAlone};

use crate::laws::one_own_state;
use crate::states::own_state;
use bx_audit::{Listing, audit as audit_in};
use bx_disk::Rack;
use bx_overlay::AuditError;
use bx_paxos_found::one_state_is_read;
use bx_volume::one_first_label;
use std::alloc::Global;

/// Reads the file tree that a rack holds, and lists it: in the state that the cells of its replicas tell. Ok says that there is a file tree that
/// the disks stand for as they read, and that this is its listing; a refusal, that there is none. Refused are, in this order: a rack
/// without a label; one without two replicas that are labelled and have a cell that can be read; and then what the audit in that state refuses.
///
/// The disks stay as they were.
pub fn audit<R: Rack>(alloc: Global, rack: &mut R) -> Result<Listing, AuditError>
    ensures ok { R.tells rack.old → IfOk result (IsListedAlone (R.state rack.old)) }
    ensures err { R.tells rack.old → IfErr result (λ error. IsBreak error ⊎ IsRefusedAlone (R.state rack.old) error) }
    ensures stands { R.tells rack.old → (tree : Tree) → StandAlone (R.state rack.old) tree → IfOk result (λ listed. listed.text ≡ listing tree) }
    ensures breaks { R.tells rack.old → (tree : Tree) → StandAlone (R.state rack.old) tree → IfErr result IsBreak }
    ensures rack { ReadsDisks R.Rack rack.old rack.new result }
{
    one_own_state();
    one_state_is_read();
    one_first_label();
    let state = match own_state(alloc, rack) {
        Ok(state) => state,
        Err(error) => return Err(error),
    };
    audit_in(alloc, rack, &state)
}
