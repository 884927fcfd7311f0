//! `check`, by its exit status.

ghost use Rattle.std.specs.Prelude.{◌≡◌, ◌≢◌, ◌⊎◌, ℕ, [], ◌∷◌, ◌++◌};
ghost use Rattle.bx_rack_commands.specs.bx_audit.specs.declared.listing.Listing.{Listing};
ghost use Rattle.bx_base.specs.Faults.{Rose};
ghost use Rattle.bx_model.specs.declared.tree.Tree.{Tree};
ghost use Rattle.bx_model.specs.Listing.{listing};
ghost use Rattle.bx_rack_commands.specs.bx_rack_audit.specs.Alone.{IsListedAlone, StandAlone};
ghost use Rattle.bx_rack_commands.specs.Checks.{AreRefused, IsPart};
ghost use Rattle.bx_rack_commands.specs.declared.failure.Refusal.{Refusal};
ghost use Rattle.bx_statuses.specs.Report.{IsAmong, IsTold, line_of, refusal_line};

use crate::telling::refuse;
use bx_disk::Rack;
use bx_outside::Sink;
use bx_rack_commands::check;
use std::alloc::Global;

/// Writes the listing of the file tree that a rack holds to `out`, and answers the exit status: 0, done; 4, `out` failed; 5, the rack failed; 7,
/// what the rack holds is refused; 9, memory ran out. Each but 0 has a line on `err`. The disks stay as they were.
pub fn check_rack<R: Rack, K: Sink>(alloc: Global, rack: &mut R, out: &mut K, err: &mut K) -> u8
    ensures status { IsAmong (0 ∷ 4 ∷ 5 ∷ 7 ∷ 9 ∷ []) result }
    ensures listed { result ≡ 0 → R.tells rack.old → (listed : Listing) × IsListedAlone (R.state rack.old) listed × (K.tells out.old → K.written out.new ≡ K.written out.old ++ listed.text) }
    ensures stands { result ≡ 0 → R.tells rack.old → K.tells out.old → (tree : Tree) → StandAlone (R.state rack.old) tree → K.written out.new ≡ K.written out.old ++ listing tree }
    ensures silent { result ≡ 0 → err.new ≡ err.old }
    ensures refused { result ≡ 7 → (refusal : Refusal) × (R.tells rack.old → AreRefused (R.state rack.old) refusal)
        × (K.tells err.old → IsTold (K.written err.old) (K.written err.new) (K.faults err.old) (K.faults err.new) (refusal_line refusal)) }
    ensures complete { R.tells rack.old → (tree : Tree) → StandAlone (R.state rack.old) tree
        → (Rose (R.faults rack.old) (R.faults rack.new) → ⊥) → (Rose (K.faults out.old) (K.faults out.new) → ⊥) → (result ≡ 0) ⊎ (result ≡ 9) }
    ensures refuses { R.tells rack.old → ((tree : Tree) → StandAlone (R.state rack.old) tree → ⊥)
        → (Rose (R.faults rack.old) (R.faults rack.new) → ⊥) → (Rose (K.faults out.old) (K.faults out.new) → ⊥) → (result ≡ 7) ⊎ (result ≡ 9) }
    ensures disk_fault { result ≡ 5 → Rose (R.faults rack.old) (R.faults rack.new) }
    ensures disk_first { result ≢ 5 → R.faults rack.new ≡ R.faults rack.old }
    ensures write_fault { result ≡ 4 → Rose (K.faults out.old) (K.faults out.new) }
    ensures sink_first { result ≢ 4 → K.faults out.new ≡ K.faults out.old }
    ensures part { result ≡ 4 → R.tells rack.old → K.tells out.old → IsPart (R.state rack.old) (K.written out.old) (K.written out.new) }
    ensures nothing { (result ≡ 5) ⊎ ((result ≡ 7) ⊎ (result ≡ 9)) → R.tells rack.old → K.tells out.old → K.written out.new ≡ K.written out.old }
    ensures told { result ≢ 0 → result ≢ 7 → K.tells err.old → IsTold (K.written err.old) (K.written err.new) (K.faults err.old) (K.faults err.new) (line_of result) }
    ensures stays { R.state rack.new ≡ R.state rack.old }
    ensures keeps_telling { R.tells rack.old → R.tells rack.new }
{
    match check(alloc, rack, out) {
        Ok(()) => 0,
        Err(failure) => refuse(alloc, failure, err),
    }
}
