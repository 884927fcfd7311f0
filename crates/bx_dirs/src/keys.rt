//! The entry that a number's key and its value are, and the key behind a number.

ghost use Rattle.std.specs.Prelude.{◌≡◌, ◌^◌, ◌<◌, IfOk, IfSome, IfNone};
ghost use Rattle.bx_dirs.specs.Entries.{IsNoNumbered, key_behind as behind};
ghost use Rattle.bx_truth.specs.Keys.{entry_key, entry_value};

use bx_base::{OutOfMemory, Raw};
use bx_keys::{handle_in, number_of};
use bx_tree_files::Name;
use std::alloc::Global;

/// What the key of a number begins with.
const BY_NUMBER: u8 = 2;

/// The least key above that of a number.
pub fn key_behind(alloc: Global, number: u32) -> Result<Raw, OutOfMemory>
    ensures { IfOk result (λ key. key ≡ behind number) }
{
    let mut bytes = Vec::new(alloc);
    bytes.push(BY_NUMBER)?;
    bytes.extend_from_slice(&number.to_be_bytes())?;
    bytes.push(0)?;
    Ok(Raw::from(bytes))
}

/// The number, the handle and the name of the entry that a number's key and its value are; `None` exactly where they are none.
pub fn numbered_in<'a>(key: &[u8], value: &'a [u8]) -> Option<(u32, u64, &'a [u8])>
    ensures key { IfSome result (λ x. key.now ≡ entry_key x.0) }
    ensures value { IfSome result (λ x. value.now ≡ entry_value x.1 x.2.now) }
    ensures fits { IfSome result (λ x. (x.0 < 2 ^ 32) × (x.1 < 2 ^ 64)) }
    ensures none { IfNone result (IsNoNumbered key.now value.now) }
{
    let number = number_of(key)?;
    let (handle, name) = handle_in(value)?;
    Some((number, handle, name))
}

/// The entry that a number's key and its value are; `None` exactly where they are none.
pub(crate) fn entry_in(alloc: Global, key: &[u8], value: &[u8]) -> Result<Option<Name>, OutOfMemory>
    ensures key { IfOk result (λ found. IfSome found (λ name. key.now ≡ entry_key name.number)) }
    ensures value { IfOk result (λ found. IfSome found (λ name. value.now ≡ entry_value name.handle name.name)) }
    ensures fits { IfOk result (λ found. IfSome found (λ name. (name.number < 2 ^ 32) × (name.handle < 2 ^ 64))) }
    ensures none { IfOk result (λ found. IfNone found (IsNoNumbered key.now value.now)) }
{
    let Some((number, handle, name)) = numbered_in(key, value) else {
        return Ok(None);
    };
    let name = Raw::of(alloc, name)?;
    Ok(Some(Name {
        number,
        name,
        handle,
    }))
}
