//! Replies up to their results.

ghost use Rattle.std.specs.Prelude.{◌≡◌, ◌++◌, IfOk, OnOk};
ghost use Rattle.bx_xdr.specs.bx_base.specs.Bytes.{words};
ghost use Rattle.bx_rpc.specs.Replies.{accepted_text, refusal_words, refused_text};

use crate::numbers::{MOUNT_VERSION, NFS_PROGRAM, NFS_VERSION};
use bx_xdr::Writer;
use bx_xdr::base::{OutOfMemory, Raw};
use std::alloc::Global;

/// The word that makes a message a reply (RFC 5531, section 9).
const REPLY: u32 = 1;

/// A writer that has put the reply of the accepted call with this number, up to its result.
pub fn accepted(alloc: Global, xid: u32) -> Result<Writer, OutOfMemory>
    ensures { IfOk result (λ text. text ≡ accepted_text xid) }
{
    let mut text = Writer::new(alloc);
    text.put_words(&[xid, REPLY, 0, 0, 0, 0])?;
    Ok(text)
}

/// The reply of the refused call with this number, by the number of the refusal and the program that the reply goes by. A
/// number above 7, and 0, is taken as 7.
pub fn refused(alloc: Global, xid: u32, number: u32, program: u32) -> Result<Raw, OutOfMemory>
    ensures { IfOk result (λ text. text ≡ refused_text xid number program) }
{
    let mut text = Writer::new(alloc);
    text.put_words(&[xid, REPLY])?;
    put_refusal(&mut text, number, program)?;
    Ok(text.into_raw())
}

/// Puts what stands behind the call's number and REPLY.
fn put_refusal(text: &mut Writer, number: u32, program: u32) -> Result<(), OutOfMemory>
    ensures { OnOk result (text.new ≡ text.old ++ words (refusal_words number program)) }
{
    match number {
        1 => text.put_words(&[1, 0, 2, 2]),
        2 => text.put_words(&[0, 0, 0, 1]),
        3 => {
            let version = if program == NFS_PROGRAM {
                NFS_VERSION
            } else {
                MOUNT_VERSION
            };
            text.put_words(&[0, 0, 0, 2, version, version])
        }
        4 => text.put_words(&[0, 0, 0, 3]),
        5 => text.put_words(&[1, 1, 5]),
        6 => text.put_words(&[1, 1, 1]),
        _ => text.put_words(&[0, 0, 0, 4]),
    }
}
