//! The arguments of procedures.

ghost use Rattle.std.specs.Prelude.{IfOk, IfSome, IfNone};
ghost use Rattle.bx_xdr.specs.Items.{Reads, Lacks};
ghost use Rattle.bx_nfs.specs.Arguments.{HandleArguments, SetArguments, NameArguments, ReadArguments, WriteArguments, MakeArguments, RenameArguments, LinkArguments, SymlinkArguments, ListArguments, PathArguments};
ghost use Rattle.bx_nfs.specs.Forms.{Arguments};

use crate::forms::Form;
use crate::items::{HANDLE_LEN, LONGEST_DATA, LONGEST_PATH, owned, place, sattr};
use bx_base::{OutOfMemory, Raw};
use bx_model::Args;
use bx_xdr::Reader;
use std::alloc::Global;

/// The arguments of a form that are next; `None` exactly where none of the form are.
pub(crate) fn read_args(
    alloc: Global,
    form: Form,
    reader: &mut Reader,
) -> Result<Option<Args>, OutOfMemory>
    ensures found { IfOk result (λ found. IfSome found (λ args. Reads (Arguments form args) reader.old reader.new)) }
    ensures none { IfOk result (λ found. IfNone found (Lacks (Arguments form) reader.old)) }
{
    match form {
        Form::Nothing => Ok(Some(Args::Nothing)),
        Form::Handle => to_handle(alloc, reader),
        Form::Set => to_set(alloc, reader),
        Form::Name => to_name(alloc, reader),
        Form::Read => to_read(alloc, reader),
        Form::Write => to_write(alloc, reader),
        Form::Make => to_make(alloc, reader),
        Form::Rename => to_rename(alloc, reader),
        Form::Link => to_link(alloc, reader),
        Form::Symlink => to_symlink(alloc, reader),
        Form::List => to_list(alloc, reader),
        Form::Path => to_path(alloc, reader),
    }
}

/// A file handle.
fn to_handle(alloc: Global, reader: &mut Reader) -> Result<Option<Args>, OutOfMemory>
    ensures found { IfOk result (λ found. IfSome found (λ args. Reads (HandleArguments args) reader.old reader.new)) }
    ensures none { IfOk result (λ found. IfNone found (Lacks HandleArguments reader.old)) }
{
    let Some(handle) = reader.fixed(HANDLE_LEN) else {
        return Ok(None);
    };
    let handle = Raw::of(alloc, handle)?;
    Ok(Some(Args::Handle(handle)))
}

/// A file handle and the attributes to set.
fn to_set(alloc: Global, reader: &mut Reader) -> Result<Option<Args>, OutOfMemory>
    ensures found { IfOk result (λ found. IfSome found (λ args. Reads (SetArguments args) reader.old reader.new)) }
    ensures none { IfOk result (λ found. IfNone found (Lacks SetArguments reader.old)) }
{
    let Some(handle) = reader.fixed(HANDLE_LEN) else {
        return Ok(None);
    };
    let Some(sattr) = sattr(reader) else {
        return Ok(None);
    };
    let handle = Raw::of(alloc, handle)?;
    Ok(Some(Args::Set(handle, sattr)))
}

/// A directory and a name in it.
fn to_name(alloc: Global, reader: &mut Reader) -> Result<Option<Args>, OutOfMemory>
    ensures found { IfOk result (λ found. IfSome found (λ args. Reads (NameArguments args) reader.old reader.new)) }
    ensures none { IfOk result (λ found. IfNone found (Lacks NameArguments reader.old)) }
{
    let Some((handle, name)) = place(reader) else {
        return Ok(None);
    };
    let (handle, name) = owned(alloc, handle, name)?;
    Ok(Some(Args::Name(handle, name)))
}

/// A file handle, an offset and two counts.
fn to_read(alloc: Global, reader: &mut Reader) -> Result<Option<Args>, OutOfMemory>
    ensures found { IfOk result (λ found. IfSome found (λ args. Reads (ReadArguments args) reader.old reader.new)) }
    ensures none { IfOk result (λ found. IfNone found (Lacks ReadArguments reader.old)) }
{
    let Some(handle) = reader.fixed(HANDLE_LEN) else {
        return Ok(None);
    };
    let mut words = [0; 3];
    let Some(()) = reader.words(&mut words) else {
        return Ok(None);
    };
    let [offset, count, total] = words;
    let handle = Raw::of(alloc, handle)?;
    Ok(Some(Args::Read(handle, offset, count, total)))
}

/// A file handle, two offsets, a count and the data, which is copied once.
fn to_write(alloc: Global, reader: &mut Reader) -> Result<Option<Args>, OutOfMemory>
    ensures found { IfOk result (λ found. IfSome found (λ args. Reads (WriteArguments args) reader.old reader.new)) }
    ensures none { IfOk result (λ found. IfNone found (Lacks WriteArguments reader.old)) }
{
    let Some(handle) = reader.fixed(HANDLE_LEN) else {
        return Ok(None);
    };
    let mut words = [0; 3];
    let Some(()) = reader.words(&mut words) else {
        return Ok(None);
    };
    let Some(content) = reader.opaque(LONGEST_DATA) else {
        return Ok(None);
    };
    let [begin, offset, total] = words;
    let handle = Raw::of(alloc, handle)?;
    let content = Raw::of(alloc, content)?;
    Ok(Some(Args::Write(handle, begin, offset, total, content)))
}

/// A directory and a name in it, and attributes.
fn to_make(alloc: Global, reader: &mut Reader) -> Result<Option<Args>, OutOfMemory>
    ensures found { IfOk result (λ found. IfSome found (λ args. Reads (MakeArguments args) reader.old reader.new)) }
    ensures none { IfOk result (λ found. IfNone found (Lacks MakeArguments reader.old)) }
{
    let Some((handle, name)) = place(reader) else {
        return Ok(None);
    };
    let Some(sattr) = sattr(reader) else {
        return Ok(None);
    };
    let (handle, name) = owned(alloc, handle, name)?;
    Ok(Some(Args::Make(handle, name, sattr)))
}

/// Two directories, each with a name in it.
fn to_rename(alloc: Global, reader: &mut Reader) -> Result<Option<Args>, OutOfMemory>
    ensures found { IfOk result (λ found. IfSome found (λ args. Reads (RenameArguments args) reader.old reader.new)) }
    ensures none { IfOk result (λ found. IfNone found (Lacks RenameArguments reader.old)) }
{
    let Some((from_handle, from_name)) = place(reader) else {
        return Ok(None);
    };
    let Some((to_handle, to_name)) = place(reader) else {
        return Ok(None);
    };
    let (from_handle, from_name) = owned(alloc, from_handle, from_name)?;
    let (to_handle, to_name) = owned(alloc, to_handle, to_name)?;
    Ok(Some(Args::Rename(from_handle, from_name, to_handle, to_name)))
}

/// A file handle, and a directory with a name in it.
fn to_link(alloc: Global, reader: &mut Reader) -> Result<Option<Args>, OutOfMemory>
    ensures found { IfOk result (λ found. IfSome found (λ args. Reads (LinkArguments args) reader.old reader.new)) }
    ensures none { IfOk result (λ found. IfNone found (Lacks LinkArguments reader.old)) }
{
    let Some(file) = reader.fixed(HANDLE_LEN) else {
        return Ok(None);
    };
    let Some((handle, name)) = place(reader) else {
        return Ok(None);
    };
    let file = Raw::of(alloc, file)?;
    let (handle, name) = owned(alloc, handle, name)?;
    Ok(Some(Args::Link(file, handle, name)))
}

/// A directory and a name in it, a path and attributes.
fn to_symlink(alloc: Global, reader: &mut Reader) -> Result<Option<Args>, OutOfMemory>
    ensures found { IfOk result (λ found. IfSome found (λ args. Reads (SymlinkArguments args) reader.old reader.new)) }
    ensures none { IfOk result (λ found. IfNone found (Lacks SymlinkArguments reader.old)) }
{
    let Some((handle, name)) = place(reader) else {
        return Ok(None);
    };
    let Some(path) = reader.opaque(LONGEST_PATH) else {
        return Ok(None);
    };
    let Some(sattr) = sattr(reader) else {
        return Ok(None);
    };
    let (handle, name) = owned(alloc, handle, name)?;
    let path = Raw::of(alloc, path)?;
    Ok(Some(Args::Symlink(handle, name, path, sattr)))
}

/// A directory, a cookie and a count.
fn to_list(alloc: Global, reader: &mut Reader) -> Result<Option<Args>, OutOfMemory>
    ensures found { IfOk result (λ found. IfSome found (λ args. Reads (ListArguments args) reader.old reader.new)) }
    ensures none { IfOk result (λ found. IfNone found (Lacks ListArguments reader.old)) }
{
    let Some(handle) = reader.fixed(HANDLE_LEN) else {
        return Ok(None);
    };
    let mut words = [0; 2];
    let Some(()) = reader.words(&mut words) else {
        return Ok(None);
    };
    let [cookie, count] = words;
    let handle = Raw::of(alloc, handle)?;
    Ok(Some(Args::List(handle, cookie, count)))
}

/// A path.
fn to_path(alloc: Global, reader: &mut Reader) -> Result<Option<Args>, OutOfMemory>
    ensures found { IfOk result (λ found. IfSome found (λ args. Reads (PathArguments args) reader.old reader.new)) }
    ensures none { IfOk result (λ found. IfNone found (Lacks PathArguments reader.old)) }
{
    let Some(path) = reader.opaque(LONGEST_PATH) else {
        return Ok(None);
    };
    let path = Raw::of(alloc, path)?;
    Ok(Some(Args::Path(path)))
}
