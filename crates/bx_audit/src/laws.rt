//! What an audit finds on a volume.

ghost use Rattle.std.specs.Prelude.{◌≡◌, ℕ};
ghost use Rattle.bx_audit.specs.Audited.{StandFor};
ghost use Rattle.bx_disk.specs.Disks.{Disks, IsImage};
ghost use Rattle.bx_global.specs.declared.state.GlobalState.{GlobalState};
ghost use Rattle.bx_model.specs.declared.tree.Tree.{Tree};
ghost use Rattle.bx_homes.specs.bx_volume.specs.Volumes.{IsVolumeFor};

/// A rack that is a volume for a tree, and reads as one of its images, stands as it reads for that tree. So an audit of it lists that
/// tree, or breaks off: it isn't refused.
pub fn a_volume_is_listed()
    ensures { (disks : Disks) (state : GlobalState) (devices areas : ℕ) (tree : Tree) → IsVolumeFor disks (λ image told. told ≡ state) devices areas (λ before after. before ≡ after) tree
        → IsImage disks disks.reads → StandFor disks state tree }
{}
