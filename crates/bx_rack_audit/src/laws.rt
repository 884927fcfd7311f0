//! Laws of labels, and of the state that a rack tells.

ghost use Rattle.std.specs.Prelude.{◌≡◌, ◌<◌, ◌↔◌, ℕ, List};
ghost use Rattle.bx_disk.specs.Disks.{Image};
ghost use Rattle.bx_facts.specs.Labelled as facts;
ghost use Rattle.bx_global.specs.declared.state.GlobalState.{GlobalState};
ghost use Rattle.bx_layout.specs.declared.label.Label.{Label};
ghost use Rattle.bx_rack_audit.specs.Alone.{IsOwnState};
ghost use Rattle.bx_volume.specs.Images as volumes;

use bx_paxos_found::one_state_is_read;
use bx_volume::one_first_label;

/// The first label among the disks of replicas is the first among all disks, where a replica has one of its own.
pub fn first_labels_agree()
    ensures { (sizes : List ℕ) (image : Image) (first : Label) → facts.IsFirstLabel sizes image first ↔ (volumes.IsFirstLabel sizes image first × (first.disk < 3)) }
{}

/// A replica that is labelled has a label that counts on the volume of the first label.
pub fn labels_agree()
    ensures { (devices : ℕ) (sizes : List ℕ) (image : Image) (replica : ℕ) → facts.IsReplicaLabelled devices sizes image replica
        ↔ ((first : Label) × volumes.IsFirstLabel sizes image first × (first.disk < 3) × (first.devices ≡ devices) × (replica < 3) × volumes.IsLabelled sizes image first replica) }
{}

/// A rack tells one state.
pub fn one_own_state()
    ensures { (sizes : List ℕ) (image : Image) (a b : GlobalState) → IsOwnState sizes image a → IsOwnState sizes image b → a ≡ b }
{
    one_state_is_read();
    one_first_label();
}
