//! Since when blocks are asked back.

ghost use Rattle.std.specs.Prelude.{◌≡◌};
ghost use Rattle.bx_node_steps.specs.Gives.{marked, newest, since, waits_since};

use crate::machine::{Machine, Mark};
use bx_base::CallNo;
use bx_node_tries::Waiting;

impl Machine {
    /// Notes since when a block is asked back, the first of those that are.
    pub fn note(&mut self, asked: Option<(u64, u64)>)
        ensures { self.new ≡ record self.old { mark = marked asked self.old } }
    {
        let Some((block, asking)) = asked else {
            self.mark = None;
            return;
        };
        let last = self.since(block, asking);
        self.mark = Some(Mark {
            block,
            asking,
            last,
        });
    }

    /// The newest call that waited when a block was seen first that a session asks back.
    pub fn since(&self, block: u64, asking: u64) -> CallNo
        ensures { result ≡ since block asking self.now }
    {
        match &self.mark {
            Some(mark) if mark.block == block && mark.asking == asking => mark.last,
            _ => newest(self.calls.as_slice()),
        }
    }
}

/// The newest of calls, by its number; 0 where there is none.
fn newest(calls: &[Waiting]) -> CallNo
    ensures { result ≡ newest calls.now }
{
    let Some((first, rest)) = calls.split_first() else {
        return 0;
    };
    first.number.max(newest(rest))
}

/// Whether one of these calls isn't newer than a number, and is still attempted.
pub fn waits_since(calls: &[Waiting], last: CallNo) -> bool
    ensures { result ≡ waits_since last calls.now }
{
    let Some((first, rest)) = calls.split_first() else {
        return false;
    };
    let waits = first.number <= last && first.is_attempted();
    waits || waits_since(rest, last)
}
