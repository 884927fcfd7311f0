//! The machines of the lock service.

ghost use Rattle.std.specs.Prelude.{◌≡◌, ◌++◌, ◌∷◌, [], IfOk, OnOk};
ghost use Rattle.bx_locks.specs.Machines.{AreMade};

use bx_base::OutOfMemory;
use bx_clerk::Clerk;
use bx_global::GlobalState;
use bx_master::Master;
use std::alloc::Global;
use std::marker::Model;

/// Who holds which block: two lock servers, and a clerk for each node. What comes to a machine goes to that one alone, and they speak by
/// packets. Nothing that two machines share is kept.
#[derive(Drop)]
pub struct Locks {
    pub(crate) masters: [Master; 2],
    pub(crate) clerks: Vec<Clerk>,
}

impl Model for Locks {
    ghost use Rattle.bx_locks.specs.Machines.{LockMachines};

    ghost Value = { LockMachines };

    ghost view = { λ l. record { masters = l.masters; clerks = l.clerks.items } };
}

impl Locks {
    /// The machines of a cluster of so many nodes that begins with a state.
    pub fn new(alloc: Global, nodes: u32, state: &GlobalState) -> Result<Locks, OutOfMemory>
        ensures { IfOk result (AreMade nodes state.now) }
    {
        let masters = [Master::new(alloc, 0, state), Master::new(alloc, 1, state)];
        let mut clerks = Vec::new(alloc);
        for node in 0..nodes {
            put_clerk(&mut clerks, Clerk::new(alloc, node, state))?;
        }
        Ok(Locks { masters, clerks })
    }
}

/// Puts a clerk at the end.
fn put_clerk(clerks: &mut Vec<Clerk>, clerk: Clerk) -> Result<(), OutOfMemory>
    ensures { OnOk result (clerks.new.items ≡ clerks.old.items ++ clerk ∷ []) }
{
    clerks.push(clerk)?;
    Ok(())
}
