//! Which machines are up.

ghost use Rattle.std.specs.Prelude.{◌≡◌, ◌++◌, ◌∷◌, [], OnOk};
ghost use Rattle.bx_post.specs.Machines.{is_same};
ghost use Rattle.bx_world_machines.specs.Machines.{is_up, up_without};

use bx_base::{Actor, OutOfMemory};

/// Whether a machine is one of these.
pub(crate) fn is_among(up: &Vec<Actor>, who: Actor) -> bool
    ensures { result ≡ is_up up.now.items who }
{
    up.iter().any(|one| is_same(who, *one))
}

/// Adds one to these.
pub(crate) fn bring_in(up: &mut Vec<Actor>, who: Actor) -> Result<(), OutOfMemory>
    ensures { OnOk result (up.new.items ≡ up.old.items ++ who ∷ []) }
{
    up.push(who)?;
    Ok(())
}

/// Leaves one of these out.
pub(crate) fn leave_out(up: &mut Vec<Actor>, who: Actor)
    ensures { up.new.items ≡ up_without who up.old.items }
{
    up.retain(|one| !is_same(who, *one));
}

/// Whether two names are one machine's.
fn is_same(one: Actor, other: Actor) -> bool
    ensures { result ≡ is_same one other }
{
    one == other
}
