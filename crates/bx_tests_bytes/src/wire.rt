//! What comes over the wire.

use crate::{calls, sample};
use bx_base::OutOfMemory;
use bx_tests_lines::Line;
use bx_xdr::{Reader, Writer};
use std::alloc::Global;

/// The greatest length of opaque data that is read of an item.
const LONGEST: u32 = 8;

/// Tells the call that a datagram is, and the sample of a reply to it (`sample.rt` says which).
pub(crate) fn datagram(alloc: Global, line: &mut Line, bytes: &[u8]) -> Result<(), OutOfMemory> {
    let Some((xid, call)) = bx_nfs::reads_as(alloc, bytes)? else {
        line.text("none");
        return Ok(());
    };
    calls::tell(line, xid, &call);
    let reply = sample::reply(alloc, &call)?;
    let reply = bx_nfs::text(alloc, xid, &reply)?;
    line.text(" ->");
    line.bytes(reply.bytes());
    Ok(())
}

/// Tells the opaque data at the front of an item, the bytes behind it, and how the data is written.
pub(crate) fn item(alloc: Global, line: &mut Line, bytes: &[u8]) -> Result<(), OutOfMemory> {
    let mut reader = Reader::new(bytes);
    let Some(content) = reader.opaque(LONGEST) else {
        line.text("none");
        return Ok(());
    };
    line.text("data");
    line.bytes(content);
    line.bytes(reader.rest());
    let mut writer = Writer::new(alloc);
    writer.put_opaque(content)?;
    line.bytes(writer.bytes());
    Ok(())
}
