//! The names in the keys and values of a directory's tree.

ghost use Rattle.std.specs.Prelude.{◌≡◌, IfOk, IfSome, IfNone};
ghost use Rattle.bx_audit_files.specs.Names.{Fits, IsByName, IsByNumber};
ghost use Rattle.bx_tree_files.specs.declared.file.Name.{Name};

use bx_base::{OutOfMemory, Raw};
use bx_keys::{handle_in, name_in, number_of, place_in};
use bx_page::Entry;
use bx_tree_files::Name;
use std::alloc::Global;

/// The name of which an entry is the one by number; `None` exactly where it is no name's.
pub(crate) fn by_number(alloc: Global, entry: &Entry) -> Result<Option<Name>, OutOfMemory>
    ensures some { IfOk result (λ found. IfSome found (λ name. IsByNumber name entry.now)) }
    ensures fits { IfOk result (λ found. IfSome found Fits) }
    ensures none { IfOk result (λ found. IfNone found ((name : Name) → Fits name → IsByNumber name entry.now → ⊥)) }
{
    match (number_of(entry.key.bytes()), handle_in(entry.value.bytes())) {
        (Some(number), Some((handle, name))) => Ok(Some(name_with(alloc, number, name, handle)?)),
        _ => Ok(None),
    }
}

/// The name of which an entry is the one by name; `None` exactly where it is no name's.
pub(crate) fn by_name(alloc: Global, entry: &Entry) -> Result<Option<Name>, OutOfMemory>
    ensures some { IfOk result (λ found. IfSome found (λ name. IsByName name entry.now)) }
    ensures fits { IfOk result (λ found. IfSome found Fits) }
    ensures none { IfOk result (λ found. IfNone found ((name : Name) → Fits name → IsByName name entry.now → ⊥)) }
{
    match (name_in(entry.key.bytes()), place_in(entry.value.bytes())) {
        (Some(name), Some((number, handle))) => Ok(Some(name_with(alloc, number, name, handle)?)),
        _ => Ok(None),
    }
}

/// A name with its number and its handle.
fn name_with(alloc: Global, number: u32, name: &[u8], handle: u64) -> Result<Name, OutOfMemory>
    ensures { IfOk result (λ made. made ≡ record { number = number; name = name.now; handle = handle }) }
{
    Ok(Name {
        number,
        name: Raw::of(alloc, name)?,
        handle,
    })
}
