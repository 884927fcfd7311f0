//! The state that a rack tells.

ghost use Rattle.std.specs.Prelude.{◌≡◌, ◌⊎◌, None, Some, IfOk, IfErr};
ghost use Rattle.bx_disk.specs.Counts.{NoneRose};
ghost use Rattle.bx_disk.specs.Kept.{Counted};
ghost use Rattle.bx_overlay.specs.Refusals.{HasNoLabel, IsBreak, UnlessFault};
ghost use Rattle.bx_overlay.specs.declared.error.AuditError.TheVariants.{DiskFault, NoLabel, NoMajority};
ghost use Rattle.bx_rack_audit.specs.Alone.{IsOwnState, LackState};

use bx_disk::Rack;
use bx_global::GlobalState;
use bx_homes::first_label;
use bx_overlay::AuditError;
use bx_paxos_found::read_state;
use std::alloc::Global;

/// Reads the state that the cells of a rack's replicas tell, and changes nothing. Refused is a rack without a label, and then one without two
/// replicas that are labelled and have a cell that can be read.
pub(crate) fn own_state<R: Rack>(alloc: Global, rack: &mut R) -> Result<GlobalState, AuditError>
    ensures ok { R.tells rack.old → IfOk result (IsOwnState (R.state rack.old).sizes (R.state rack.old).reads) }
    ensures err { R.tells rack.old → IfErr result (λ error. IsBreak error ⊎ (((error ≡ NoLabel 0) × HasNoLabel (R.state rack.old)) ⊎ ((error ≡ NoMajority) × LackState (R.state rack.old)))) }
    ensures stays { R.state rack.new ≡ R.state rack.old }
    ensures rack { Counted R.Rack rack.old rack.new result DiskFault }
    ensures counts { UnlessFault result (NoneRose (R.faults rack.old) (R.faults rack.new) (R.faults_of rack.old) (R.faults_of rack.new)) }
{
    let Some(first) = first_label(rack)? else {
        return Err(AuditError::NoLabel(0));
    };
    let read = read_state(alloc, rack, first.devices)?;
    told(read)
}

/// The state that was read.
fn told(read: Option<GlobalState>) -> Result<GlobalState, AuditError>
    ensures ok { IfOk result (λ state. read ≡ Some state) }
    ensures err { IfErr result (λ error. (error ≡ NoMajority) × (read ≡ None)) }
{
    match read {
        Some(state) => Ok(state),
        None => Err(AuditError::NoMajority),
    }
}
