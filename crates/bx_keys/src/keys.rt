//! The numbers and names in the keys and values of a directory's tree.

ghost use Rattle.std.specs.Prelude.{◌≡◌, ◌∷◌, ◌++◌, ◌^◌, ◌<◌, ℕ, List, IfOk, IfSome, IfNone};
ghost use Rattle.std.specs.Int.{w32, w64, to_be_bytes};
ghost use Rattle.bx_truth.specs.Keys.{name_key, name_value, entry_key, entry_value};

use bx_base::{OutOfMemory, Raw, u32_at, u64_at};
use std::alloc::Global;

/// What a key begins with that has a name, and one that has a number.
const BY_NAME: u8 = 1;

const BY_NUMBER: u8 = 2;

/// The key of a name.
pub fn key_by_name(alloc: Global, name: &[u8]) -> Result<Raw, OutOfMemory>
    ensures { IfOk result (λ key. key ≡ name_key name.now) }
{
    let mut bytes = Vec::new(alloc);
    bytes.push(BY_NAME)?;
    bytes.extend_from_slice(name)?;
    Ok(Raw::from(bytes))
}

/// The value of a name's key.
pub fn value_by_name(alloc: Global, number: u32, handle: u64) -> Result<Raw, OutOfMemory>
    ensures { IfOk result (λ value. value ≡ name_value number handle) }
{
    let mut bytes = Vec::new(alloc);
    bytes.extend_from_slice(&number.to_be_bytes())?;
    bytes.extend_from_slice(&handle.to_be_bytes())?;
    Ok(Raw::from(bytes))
}

/// The key of a number.
pub fn key_by_number(alloc: Global, number: u32) -> Result<Raw, OutOfMemory>
    ensures { IfOk result (λ key. key ≡ entry_key number) }
{
    let mut bytes = Vec::new(alloc);
    bytes.push(BY_NUMBER)?;
    bytes.extend_from_slice(&number.to_be_bytes())?;
    Ok(Raw::from(bytes))
}

/// The value of a number's key.
pub fn value_by_number(alloc: Global, handle: u64, name: &[u8]) -> Result<Raw, OutOfMemory>
    ensures { IfOk result (λ value. value ≡ entry_value handle name.now) }
{
    let mut bytes = Vec::new(alloc);
    bytes.extend_from_slice(&handle.to_be_bytes())?;
    bytes.extend_from_slice(name)?;
    Ok(Raw::from(bytes))
}

/// A number of 32 bits at the front, and the bytes behind it; `None` exactly where there are fewer bytes.
fn number_in(bytes: &[u8]) -> Option<(u32, &[u8])>
    ensures some { IfSome result (λ x. bytes.now ≡ to_be_bytes w32 x.0 ++ x.1.now) }
    ensures none { IfNone result ((number : ℕ) (rest : List ℕ) → number < 2 ^ 32 → bytes.now ≡ to_be_bytes w32 number ++ rest → ⊥) }
{
    match u32_at(bytes) {
        Ok(found) => Some(found),
        Err(_) => None,
    }
}

/// A handle at the front, and the bytes behind it; `None` exactly where there are fewer bytes.
pub fn handle_in(bytes: &[u8]) -> Option<(u64, &[u8])>
    ensures some { IfSome result (λ x. bytes.now ≡ to_be_bytes w64 x.0 ++ x.1.now) }
    ensures none { IfNone result ((handle : ℕ) (rest : List ℕ) → handle < 2 ^ 64 → bytes.now ≡ to_be_bytes w64 handle ++ rest → ⊥) }
{
    match u64_at(bytes) {
        Ok(found) => Some(found),
        Err(_) => None,
    }
}

/// The number and the handle that the value of a name's key is; `None` exactly where it is no such value.
pub fn place_in(value: &[u8]) -> Option<(u32, u64)>
    ensures some { IfSome result (λ x. value.now ≡ name_value x.0 x.1) }
    ensures fits { IfSome result (λ x. (x.0 < 2 ^ 32) × (x.1 < 2 ^ 64)) }
    ensures none { IfNone result ((number handle : ℕ) → number < 2 ^ 32 → handle < 2 ^ 64 → value.now ≡ name_value number handle → ⊥) }
{
    let (number, rest) = number_in(value)?;
    let (handle, rest) = handle_in(rest)?;
    if rest.is_empty() {
        Some((number, handle))
    } else {
        None
    }
}

/// The number of a key that begins with a byte and has four more.
pub fn number_behind(first: u8, key: &[u8]) -> Option<u32>
    ensures some { IfSome result (λ number. key.now ≡ first ∷ to_be_bytes w32 number) }
    ensures none { IfNone result ((number : ℕ) → number < 2 ^ 32 → key.now ≡ first ∷ to_be_bytes w32 number → ⊥) }
{
    let (begins, rest) = key.split_first()?;
    if *begins != first {
        return None;
    }
    let (number, rest) = number_in(rest)?;
    if rest.is_empty() { Some(number) } else { None }
}

/// The number of a number's key; `None` exactly where it is no such key.
pub fn number_of(key: &[u8]) -> Option<u32>
    ensures some { IfSome result (λ number. key.now ≡ entry_key number) }
    ensures none { IfNone result ((number : ℕ) → number < 2 ^ 32 → key.now ≡ entry_key number → ⊥) }
{
    number_behind(BY_NUMBER, key)
}

/// The name of a name's key; `None` exactly where it is no such key.
pub fn name_in(key: &[u8]) -> Option<&[u8]>
    ensures some { IfSome result (λ name. key.now ≡ name_key name.now) }
    ensures none { IfNone result ((name : List ℕ) → key.now ≡ name_key name → ⊥) }
{
    let (first, rest) = key.split_first()?;
    if *first == BY_NAME { Some(rest) } else { None }
}
