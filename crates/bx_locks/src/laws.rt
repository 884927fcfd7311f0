//! What holds of machines that are made.

ghost use Rattle.std.specs.Prelude.{◌≡◌, ◌≤◌, ℕ, None};
ghost use Rattle.bx_global.specs.Opening.{formatted_state, opening_state};
ghost use Rattle.bx_global.specs.declared.state.GlobalState.{GlobalState};
ghost use Rattle.bx_locks.specs.Machines.{AreMade, LockMachines, clerk_of};
ghost use Rattle.bx_locks.specs.Meanings.{AreNew, IsFor};

/// Machines that are made are new ones, and none but their nodes has a session; and they may be made for the state that a cluster runs from, and for the one that is
/// written where its disks are made.
pub fn made_for()
    ensures are_new { (nodes : ℕ) (s : GlobalState) (o : LockMachines) → AreMade nodes s o → AreNew o }
    ensures nobody { (nodes node : ℕ) (s : GlobalState) (o : LockMachines) → AreMade nodes s o → nodes ≤ node → (clerk_of o node).session ≡ None }
    ensures opening { (nodes devices : ℕ) (o : LockMachines) → AreMade nodes (opening_state nodes devices) o → IsFor nodes (opening_state nodes devices) o }
    ensures formatted { (nodes devices : ℕ) (o : LockMachines) → AreMade nodes (formatted_state devices) o → IsFor nodes (formatted_state devices) o }
{}
