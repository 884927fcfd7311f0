//! What is said.

ghost use Rattle.std.specs.Prelude.{◌≡◌};

use bx_base::Mode;

/// A node wants a block for its session.
#[derive(Clone, Copy, PartialEq, Eq, Debug)]
pub struct Want {
    /// The session.
    pub session: u64,
    /// The block.
    pub block: u64,
    /// How it is wanted.
    pub mode: Mode,
    /// The number of the request, drawn by the node.
    pub number: u64,
}

/// The master grants a block.
#[derive(Clone, Copy, PartialEq, Eq, Debug)]
pub struct Grant {
    /// The session.
    pub session: u64,
    /// The block.
    pub block: u64,
    /// How it is granted: as it was wanted, or exclusively.
    pub mode: Mode,
    /// The number of the request.
    pub number: u64,
    /// The index of the state that a reader of the block is to know.
    pub index: u64,
}

/// The master asks for a block back.
#[derive(Clone, Copy, PartialEq, Eq, Debug)]
pub struct Revoke {
    /// The session that has it.
    pub session: u64,
    /// The block.
    pub block: u64,
    /// The number of the request that it was granted to.
    pub number: u64,
    /// The session that asks.
    pub asking: u64,
}

/// A session has a block no more under this number.
#[derive(Clone, Copy, PartialEq, Eq, Debug)]
pub struct Release {
    /// The session.
    pub session: u64,
    /// The block.
    pub block: u64,
    /// The number of the request that it was granted to.
    pub number: u64,
    /// The index of the state that a later reader of the block is to know.
    pub index: u64,
}

/// What lock servers and nodes say to one another.
#[derive(Clone, Copy, PartialEq, Eq, Debug)]
pub enum Word {
    /// A node wants a block.
    Wants(Want),
    /// The master grants it.
    Grants(Grant),
    /// The master asks for it back.
    Revokes(Revoke),
    /// A node has it no more.
    Releases(Release),
    /// A node asks for its session to last longer.
    Renews(u64),
    /// The session lasts up to this reading, in milliseconds.
    Leases(u64, u64),
}

impl Word {
    ghost use Rattle.bx_lock_words.specs.Sessions.{session_in};
    ghost use Rattle.bx_lock_words.specs.Words.{kind_of};

    /// The kind number, 8 to 13.
    pub fn kind(&self) -> u8
        ensures { result ≡ kind_of self.now }
    {
        match self {
            Word::Wants(_) => 8,
            Word::Grants(_) => 9,
            Word::Revokes(_) => 10,
            Word::Releases(_) => 11,
            Word::Renews(_) => 12,
            Word::Leases(_, _) => 13,
        }
    }

    /// The session that it is of.
    pub fn session(&self) -> u64
        ensures { result ≡ session_in self.now }
    {
        match self {
            Word::Wants(want) => want.session,
            Word::Grants(grant) => grant.session,
            Word::Revokes(revoke) => revoke.session,
            Word::Releases(release) => release.session,
            Word::Renews(session) | Word::Leases(session, _) => *session,
        }
    }
}
