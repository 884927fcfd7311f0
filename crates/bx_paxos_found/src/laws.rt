//! Laws of what is read off the disks of replicas.

ghost use Rattle.std.specs.Prelude.{◌≡◌, ℕ, List, length};
ghost use Rattle.bx_disk.specs.Disks.{Image};
ghost use Rattle.bx_global.specs.declared.state.GlobalState.{GlobalState};
ghost use Rattle.bx_paxos.specs.Reading.{ReadsState};
ghost use Rattle.bx_paxos_found.specs.Finding.{LackMajority};

/// An image is read as one state at most for a number of devices, and as none where two replicas can't be read.
pub fn one_state_is_read()
    ensures one { (made other : GlobalState) (sizes : List ℕ) (image : Image) (a b : GlobalState) → length made.devices ≡ length other.devices
        → ReadsState made sizes image a → ReadsState other sizes image b → a ≡ b }
    ensures lack { (made : GlobalState) (sizes : List ℕ) (image : Image) (state : GlobalState) → LackMajority (length made.devices) sizes image → ReadsState made sizes image state → ⊥ }
{}
