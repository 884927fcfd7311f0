//! Items of NFS version 2.

ghost use Rattle.std.specs.Prelude.{◌≡◌, IfOk, IfSome, IfNone};
ghost use Rattle.bx_xdr.specs.Items.{Reads, Lacks};
ghost use Rattle.bx_nfs.specs.Items.{SpellsPlace, SpellsSattr};

use bx_base::{OutOfMemory, Raw};
use bx_model::Sattr;
use bx_xdr::Reader;
use std::alloc::Global;

/// How many bytes a file handle has (RFC 1094, section 2.3.3).
pub(crate) const HANDLE_LEN: usize = 32;

/// The greatest length of a name, in bytes (RFC 1094, section 2.1).
pub(crate) const LONGEST_NAME: u32 = 255;

/// The greatest length of a path, in bytes (RFC 1094, section 2.1).
pub(crate) const LONGEST_PATH: u32 = 1024;

/// The greatest length of the data of one call, in bytes (RFC 1094, section 2.1).
pub(crate) const LONGEST_DATA: u32 = 8192;

/// A directory's file handle and a name in it (RFC 1094, section 2.3.10); `None` exactly where none is next.
pub(crate) fn place<'a>(reader: &mut Reader<'a>) -> Option<(&'a [u8], &'a [u8])>
    ensures some { IfSome result (λ place. Reads (SpellsPlace (place.0.now, place.1.now)) reader.old reader.new) }
    ensures none { IfNone result (Lacks SpellsPlace reader.old) }
{
    let handle = reader.fixed(HANDLE_LEN)?;
    let name = reader.opaque(LONGEST_NAME)?;
    Some((handle, name))
}

/// Attributes to set (RFC 1094, section 2.3.6); `None` exactly where none are next.
pub(crate) fn sattr(reader: &mut Reader) -> Option<Sattr>
    ensures some { IfSome result (λ sattr. Reads (SpellsSattr sattr) reader.old reader.new) }
    ensures none { IfNone result (Lacks SpellsSattr reader.old) }
{
    let mut words = [0; 8];
    reader.words(&mut words)?;
    let [
        mode,
        uid,
        gid,
        size,
        read,
        read_micros,
        changed,
        changed_micros,
    ] = words;
    Some(Sattr {
        mode,
        uid,
        gid,
        size,
        atime: (read, read_micros),
        mtime: (changed, changed_micros),
    })
}

/// A directory's file handle and a name in it, with memory of their own.
pub(crate) fn owned(alloc: Global, handle: &[u8], name: &[u8]) -> Result<(Raw, Raw), OutOfMemory>
    ensures { IfOk result (λ owned. (owned.0 ≡ handle.now) × (owned.1 ≡ name.now)) }
{
    let handle = Raw::of(alloc, handle)?;
    let name = Raw::of(alloc, name)?;
    Ok((handle, name))
}
