//! Replies.

ghost use Rattle.std.specs.Prelude.{◌≡◌, ◌++◌, ◌∷◌, [], IfOk, OnOk};
ghost use Rattle.std.specs.List.{flat_map};
ghost use Rattle.bx_base.specs.Bytes.{words};
ghost use Rattle.bx_xdr.specs.Items.{word_text, fixed_text, opaque_text};
ghost use Rattle.bx_nfs.specs.Results.{listed_text, result_text, reply_text};

use bx_base::{OutOfMemory, Raw};
use bx_model::{Listed, Reply};
use bx_rpc::{accepted, refused};
use bx_xdr::Writer;
use std::alloc::Global;

/// The status of a procedure that did what it was asked (RFC 1094, section 2.3.1).
const NFS_OK: u32 = 0;

/// The word in front of one more entry of a list (RFC 4506, section 4.19).
const MORE: u32 = 1;

/// The word behind the last entry of a list (RFC 4506, section 4.19).
const NO_MORE: u32 = 0;

/// The one path that is exported.
const ROOT: &[u8] = b"/";

/// The bytes of the reply to the call with this number.
pub fn text(alloc: Global, xid: u32, reply: &Reply) -> Result<Raw, OutOfMemory>
    ensures { IfOk result (λ text. text ≡ reply_text xid reply.now) }
{
    if let Reply::Refused(number, program) = reply {
        return refused(alloc, xid, *number, *program);
    }
    let mut text = accepted(alloc, xid)?;
    put_result(&mut text, reply)?;
    Ok(text.into_raw())
}

/// Puts a result. Of a refused call there is none.
fn put_result(text: &mut Writer, reply: &Reply) -> Result<(), OutOfMemory>
    ensures { OnOk result (text.new ≡ text.old ++ result_text reply.now) }
{
    match reply {
        Reply::Refused(_, _) | Reply::Empty => Ok(()),
        Reply::Status(status) => text.put_word(*status),
        Reply::Attributes(words) => put_fields(text, words.items()),
        Reply::Space(words) => put_fields(text, words.items()),
        Reply::Handle(handle, words) => put_handle(text, handle.bytes(), words.items()),
        Reply::Path(path) => put_path(text, path.bytes()),
        Reply::Bytes(words, content) => put_content(text, words.items(), content.bytes()),
        Reply::List(entries, eof) => put_list(text, entries.items(), *eof),
        Reply::Mounted(handle) => put_root(text, handle.bytes()),
        Reply::Mounts => text.put_word(NO_MORE),
        Reply::Exports => put_exports(text),
    }
}

/// Puts NFS_OK and words.
fn put_fields(text: &mut Writer, fields: &[u32]) -> Result<(), OutOfMemory>
    ensures { OnOk result (text.new ≡ text.old ++ words (0 ∷ fields.now)) }
{
    text.put_word(NFS_OK)?;
    text.put_words(fields)
}

/// Puts NFS_OK, a file handle and words.
fn put_handle(text: &mut Writer, handle: &[u8], fields: &[u32]) -> Result<(), OutOfMemory>
    ensures { OnOk result (text.new ≡ text.old ++ (word_text 0 ++ fixed_text handle.now ++ words fields.now)) }
{
    text.put_word(NFS_OK)?;
    text.put_fixed(handle)?;
    text.put_words(fields)
}

/// Puts NFS_OK and a path.
fn put_path(text: &mut Writer, path: &[u8]) -> Result<(), OutOfMemory>
    ensures { OnOk result (text.new ≡ text.old ++ (word_text 0 ++ opaque_text path.now)) }
{
    text.put_word(NFS_OK)?;
    text.put_opaque(path)
}

/// Puts NFS_OK, words and data.
fn put_content(text: &mut Writer, fields: &[u32], content: &[u8]) -> Result<(), OutOfMemory>
    ensures { OnOk result (text.new ≡ text.old ++ (words (0 ∷ fields.now) ++ opaque_text content.now)) }
{
    put_fields(text, fields)?;
    text.put_opaque(content)
}

/// Puts NFS_OK, entries, and whether they are the last ones.
fn put_list(text: &mut Writer, entries: &[Listed], eof: u32) -> Result<(), OutOfMemory>
    ensures { OnOk result (text.new ≡ text.old ++ (word_text 0 ++ flat_map listed_text entries.now ++ words (0 ∷ eof ∷ []))) }
{
    text.put_word(NFS_OK)?;
    put_entries(text, entries)?;
    text.put_words(&[NO_MORE, eof])
}

/// Puts entries one behind the other.
fn put_entries(text: &mut Writer, entries: &[Listed]) -> Result<(), OutOfMemory>
    ensures { OnOk result (text.new ≡ text.old ++ flat_map listed_text entries.now) }
{
    for entry in entries {
        put_entry(text, entry)?;
    }
    Ok(())
}

/// Puts an entry.
fn put_entry(text: &mut Writer, entry: &Listed) -> Result<(), OutOfMemory>
    ensures { OnOk result (text.new ≡ text.old ++ listed_text entry.now) }
{
    text.put_words(&[MORE, entry.fileid])?;
    text.put_opaque(entry.name.bytes())?;
    text.put_word(entry.cookie)
}

/// Puts NFS_OK and the root's file handle.
fn put_root(text: &mut Writer, handle: &[u8]) -> Result<(), OutOfMemory>
    ensures { OnOk result (text.new ≡ text.old ++ (word_text 0 ++ fixed_text handle.now)) }
{
    text.put_word(NFS_OK)?;
    text.put_fixed(handle)
}

/// Puts the list of exports: one path, for no group.
fn put_exports(text: &mut Writer) -> Result<(), OutOfMemory>
    ensures { OnOk result (text.new ≡ text.old ++ (word_text 1 ++ opaque_text (47 ∷ []) ++ words (0 ∷ 0 ∷ []))) }
{
    text.put_word(MORE)?;
    text.put_opaque(ROOT)?;
    text.put_words(&[NO_MORE, NO_MORE])
}
