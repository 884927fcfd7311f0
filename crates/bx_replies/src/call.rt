//! A call as its client sent it.

ghost use Rattle.std.specs.Prelude.{◌++◌};
ghost use Rattle.std.specs.Cmp.{partial_equiv_from_equiv};
ghost use Rattle.std.specs.Cmp.Rules.{hashing};
ghost use Rattle.std.specs.Hash as fed;
ghost use Rattle.std.proofs.Common.{rules};
ghost use Rattle.bx_replies.specs.Calls.{same_call, same_call_equiv};

use bx_base::Raw;
use std::hash::{Hash, Hasher};

/// Whose call it is, and its bytes. Calls are the same where both are.
#[derive(Drop)]
pub struct Call {
    pub client: u32,
    pub bytes: Raw,
}

impl PartialEq for Call {
    ghost eq = { same_call };

    ghost laws = { partial_equiv_from_equiv same_call_equiv };

    fn eq(&self, other: &Call) -> bool {
        self.client == other.client && self.bytes.bytes() == other.bytes.bytes()
    }
}

impl Eq for Call {
    ghost laws = { same_call_equiv };
}

impl Hash for Call {
    ghost hash_input = { λ call. fed.u32 call.client ++ fed.slice fed.u8 call.bytes };

    ghost respects_eq = { Prim.search (hashing, rules) };

    fn hash<H: Hasher>(&self, state: &mut H) {
        self.client.hash(state);
        self.bytes.bytes().hash(state);
    }
}
