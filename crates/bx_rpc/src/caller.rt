//! Who a call comes from.

ghost use Rattle.std.specs.Prelude.{◌≡◌, ◌≤◌, ℕ, List, length, take, IfOk, IfSome, IfNone};
ghost use Rattle.bx_rpc.specs.declared.caller.Caller.{Caller};
ghost use Rattle.bx_rpc.specs.Callers.{nobody, SpellsParts, SpellsAuthSys};

use crate::numbers::NOBODY;
use bx_xdr::Reader;
use bx_xdr::base::{OutOfMemory, Words};
use std::alloc::Global;

/// The greatest length of the name of a caller's machine, in bytes (RFC 5531, appendix A).
const LONGEST_MACHINE: u32 = 255;

/// How many further groups a caller may have (RFC 5531, appendix A).
const MOST_GROUPS: usize = 16;

/// Who a call comes from.
#[derive(Drop)]
pub struct Caller {
    /// His user number.
    pub uid: u32,
    /// His group number.
    pub gid: u32,
    /// His further groups.
    pub gids: Words,
}

/// Who calls without a credential.
pub(crate) fn nobody(alloc: Global) -> Caller
    ensures { result ≡ nobody }
{
    Caller {
        uid: NOBODY,
        gid: NOBODY,
        gids: Words::new(alloc),
    }
}

/// The caller that the body of an AUTH_SYS credential spells; `None` exactly where it spells none.
pub(crate) fn auth_sys(alloc: Global, body: &[u8]) -> Result<Option<Caller>, OutOfMemory>
    ensures some { IfOk result (λ found. IfSome found (λ caller. SpellsAuthSys caller body.now)) }
    ensures none { IfOk result (λ found. IfNone found ((caller : Caller) → SpellsAuthSys caller body.now → ⊥)) }
{
    let mut ids = [0; 2];
    let mut groups = [0; MOST_GROUPS];
    let Some(count) = parts(body, &mut ids, &mut groups) else {
        return Ok(None);
    };
    let [uid, gid] = ids;
    let mut gids = Words::new(alloc);
    for group in &groups[..count] {
        gids.push(*group)?;
    }
    Ok(Some(Caller { uid, gid, gids }))
}

/// Reads user and group, and the further groups into the front of `groups`, of the body of an AUTH_SYS credential; how
/// many groups there are. `None` exactly where the body spells no caller.
fn parts(body: &[u8], ids: &mut [u32], groups: &mut [u32]) -> Option<usize>
    requires two { length ids.old ≡ 2 }
    requires sixteen { length groups.old ≡ 16 }
    ensures some { IfSome result (λ count. (stamp : ℕ) × (machine : List ℕ) × SpellsParts (stamp, (machine, (ids.new, take count groups.new))) body.now) }
    ensures fits { IfSome result (λ count. count ≤ 16) }
    ensures none { IfNone result ((spelled : ℕ × (List ℕ × (List ℕ × List ℕ))) → SpellsParts spelled body.now → ⊥) }
{
    let mut reader = Reader::new(body);
    reader.word()?;
    reader.opaque(LONGEST_MACHINE)?;
    reader.words(ids)?;
    let count = reader.list(groups)?;
    if reader.rest().is_empty() {
        Some(count)
    } else {
        None
    }
}
