//! What holds of machines that are made.

ghost use Rattle.std.specs.Prelude.{◌≡◌, ◌≤◌, ℕ, None};
ghost use Rattle.bx_facts.specs.Writes.{Made};
ghost use Rattle.bx_global.specs.declared.state.GlobalState.{GlobalState};
ghost use Rattle.bx_global.specs.Opening.{formatted_state, opening_state};
ghost use Rattle.bx_devices.specs.Fitting.{own_of};
ghost use Rattle.bx_devices.specs.Machines.{AreMade, DeviceMachines, IsShape};
ghost use Rattle.bx_devices.specs.Meanings.{AreNew, IsFor};

/// Machines that are made are new ones, and none but their nodes has a session; and they may be made for the state that a cluster runs from, and for the one that is written where its
/// disks are made.
pub fn made_for()
    ensures are_new { (made : Made) (s : GlobalState) (o : DeviceMachines) → AreMade made s o → IsShape o → AreNew o }
    ensures nobody { (made : Made) (s : GlobalState) (o : DeviceMachines) (node : ℕ) → AreMade made s o → IsShape o → made.nodes ≤ node → own_of o node ≡ None }
    ensures opening { (made : Made) (nodes devices : ℕ) (o : DeviceMachines) → AreMade made (opening_state nodes devices) o → IsFor (opening_state nodes devices) o }
    ensures formatted { (made : Made) (devices : ℕ) (o : DeviceMachines) → AreMade made (formatted_state devices) o → IsFor (formatted_state devices) o }
{}
