//! A clerk learns a state.

ghost use Rattle.std.specs.Prelude.{◌≡◌};
ghost use Rattle.bx_facts.specs.Chains.{session_of};
ghost use Rattle.bx_clerk.specs.Clerks.{is_same, learned, until_of, with_session};

use crate::clerk::Clerk;
use bx_global::GlobalState;
use bx_rows::{find_live, find_row};

/// The live session of a node and boot.
pub(crate) fn own_session(known: &GlobalState, node: u32, boot: u64) -> Option<u64>
    ensures { result ≡ session_of known.now node boot }
{
    match find_live(known.sessions.items(), node, boot) {
        None => None,
        Some(row) => Some(row.number),
    }
}

/// The end that a session's row has, 0 where there is none.
pub(crate) fn until_of(known: &GlobalState, session: Option<u64>) -> u64
    ensures { result ≡ until_of known.now session }
{
    let Some(session) = session else {
        return 0;
    };
    match find_row(known.sessions.items(), session) {
        None => 0,
        Some(row) => row.until,
    }
}

/// Whether two sessions are one, or there is none of both.
pub(crate) fn is_same(one: Option<u64>, other: Option<u64>) -> bool
    ensures { result ≡ is_same one other }
{
    match (one, other) {
        (None, None) => true,
        (Some(one), Some(other)) => one == other,
        _ => false,
    }
}

impl Clerk {
    /// Learns a state.
    pub(crate) fn learn(&mut self, known: &GlobalState)
        ensures { self.new ≡ learned known.now self.old }
    {
        let own = own_session(known, self.node, self.boot);
        self.follow(known, own);
        self.knows = known.index;
        self.server = known.master;
    }

    /// Goes on with the session that it has in a state. With another one all is forgotten.
    fn follow(&mut self, known: &GlobalState, own: Option<u64>)
        ensures { self.new ≡ with_session known.now own self.old }
    {
        let until = until_of(known, own);
        if is_same(self.session, own) {
            self.lease = self.lease.max(until);
            return;
        }
        self.session = own;
        self.lease = until;
        self.requests.clear();
        self.asks.clear();
    }
}
