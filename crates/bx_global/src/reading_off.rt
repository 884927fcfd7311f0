//! What others read off a state.

ghost use Rattle.std.specs.Prelude.{◌≡◌};
ghost use Rattle.bx_rows.specs.Words.{live_in, row_in};

use crate::state::GlobalState;
use bx_rows::{SessionRow, find_live, find_row};

impl GlobalState {
    /// The row of a session; `None` exactly where it has none.
    pub fn session(&self, number: u64) -> Option<SessionRow>
        ensures { result ≡ row_in self.now.sessions number }
    {
        find_row(self.sessions.items(), number)
    }

    /// The live session of a node and boot; `None` exactly where there is none.
    pub fn live_session(&self, node: u32, boot: u64) -> Option<SessionRow>
        ensures { result ≡ live_in self.now.sessions node boot }
    {
        find_live(self.sessions.items(), node, boot)
    }

    /// The lock server that is master, and its boot.
    pub fn master_and_boot(&self) -> (u32, u64)
        ensures { result ≡ (self.now.master, self.now.master_boot) }
    {
        (self.master, self.master_boot)
    }
}
