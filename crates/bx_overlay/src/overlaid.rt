//! The blocks of a volume: what its logs lay over its homes.

ghost use Rattle.std.specs.Prelude.{◌≡◌};
ghost use Rattle.std.specs.Option.{option_copied};
ghost use Rattle.bx_logs.specs.Members.{AreThere, held_by};
ghost use Rattle.bx_logs.specs.Newest.{first_in};
ghost use Rattle.bx_overlay.specs.Over.{StandsOver};

use bx_disk::{Rack, RackError};
use bx_layout::Block;
use bx_logs::homes::{Blocks, read_home};
use bx_logs::{Members, Newest, copy_of};
use bx_places::place;
use std::alloc::Global;

/// The block with a number of the first log that has one.
fn first_block(logs: &[Newest], at: u64) -> Option<&Block>
    ensures { option_copied result ≡ first_in logs.now at }
{
    for log in logs {
        if let Some(block) = log.get(&at) {
            return Some(block);
        }
    }
    None
}

/// The blocks of a volume, read off a rack that it borrows: of each number that of the first log that has one, or else the one in its
/// home.
#[derive(Drop)]
pub struct Overlaid<'a, R> {
    alloc: Global,
    rack: &'a mut R,
    members: Members,
    logs: &'a [Newest],
}

impl<'a, R: Rack> Overlaid<'a, R> {
    /// The blocks of the volume that these members of a rack have, and that have these in its logs, slot by slot.
    pub fn new(
        alloc: Global,
        rack: &'a mut R,
        members: Members,
        logs: &'a [Newest],
    ) -> Overlaid<'a, R>
        requires { AreThere (R.state rack.old).sizes members }
        ensures same_reference { result.rack.ghost_name ≡ rack.entry.ghost_name }
        ensures rack { result.rack.now ≡ rack.old }
        ensures members { result.members ≡ members }
        ensures logs { result.logs.now ≡ logs.now }
    {
        Overlaid {
            alloc,
            rack,
            members,
            logs,
        }
    }
}

impl<'a, R: Rack> Blocks for Overlaid<'a, R> {
    ghost use Rattle.bx_logs.specs.Members.{AreThere, held_by};
    ghost use Rattle.bx_overlay.specs.Over.{StandsOver};
    ghost use Rattle.bx_overlay.specs.OneOver.{one_over};

    ghost tells = { λ over. R.tells over.rack.now };

    ghost ready = { λ over. AreThere (R.state over.rack.now).sizes over.members };

    ghost areas = { λ over. over.members.areas };

    ghost stands = { λ over. StandsOver (held_by (R.state over.rack.now).reads over.members) over.members.devices over.logs.now };

    ghost faults = { λ over. R.faults over.rack.now };

    ghost lender = { λ over. (over.rack.ghost_name, R.state over.rack.now) };

    ghost one = { λ over at a b tells is other. one_over (held_by (R.state over.rack.now).reads over.members) over.members.devices over.logs.now at a b is other };

    fn block(&mut self, at: u64) -> Result<Option<Block>, RackError> {
        if let Some(block) = first_block(self.logs, at) {
            let copy = copy_of(self.alloc, block)?;
            return Ok(Some(copy));
        }
        let (device, _) = place(at, self.members.devices, self.members.areas);
        let second = self.members.reads_second(device);
        read_home(
            self.alloc,
            self.rack,
            self.members.devices,
            self.members.areas,
            second,
            at,
        )
    }
}
