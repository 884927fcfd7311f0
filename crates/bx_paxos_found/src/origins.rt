//! How the cells of three replicas came to be.

ghost use Rattle.std.specs.Prelude.{◌≡◌};
ghost use Rattle.bx_paxos.specs.Reading.{AreMade};
ghost use Rattle.bx_paxos_found.specs.Origins.{origin_in};

use bx_acceptor::Origin;

/// How the cells of three replicas came to be.
#[derive(Clone, Copy)]
pub struct Origins {
    /// That of replica 0.
    pub first: Origin,
    /// That of replica 1.
    pub second: Origin,
    /// That of replica 2.
    pub third: Origin,
}

impl Origins {
    /// Each was made with the volume.
    pub fn made() -> Origins
        ensures { AreMade (origin_in result) }
    {
        Origins {
            first: Origin::Made,
            second: Origin::Made,
            third: Origin::Made,
        }
    }

    /// How the cell of a replica came to be.
    pub fn of(&self, replica: u32) -> Origin
        ensures { result ≡ origin_in self.now replica }
    {
        match replica {
            0 => self.first,
            1 => self.second,
            _ => self.third,
        }
    }
}
