//! Calls up to their arguments.

ghost use Rattle.std.specs.Prelude.{◌≡◌, ℕ, List, [], true, false, IfOk, IfSome, IfNone};
ghost use Rattle.bx_rpc.specs.Message.{IsCall, Opens, is_message as is_call};

use crate::caller::Caller;
use crate::checks::{Header, read_header};
use crate::stop::Stop;
use bx_xdr::Reader;
use bx_xdr::base::{OutOfMemory, Words};
use std::alloc::Global;

/// The greatest length of a datagram that is a call's, in bytes.
const LONGEST_DATAGRAM: usize = 9216;

/// The word that makes a message a call (RFC 5531, section 9).
const CALL: u32 = 0;

/// What the header of a call says. Of a refused call there are the number, the refusal, and the program where its reply
/// goes by it; its other numbers are 0, and it has no groups.
#[derive(Drop)]
pub struct Opened {
    /// The number that the client gave the call.
    pub xid: u32,
    /// The program.
    pub program: u32,
    /// The procedure: at most 17 of NFS, at most 5 of MOUNT.
    pub procedure: u32,
    /// The caller's user number.
    pub uid: u32,
    /// The caller's group number.
    pub gid: u32,
    /// The caller's further groups.
    pub gids: Words,
    /// Why the call is refused, 1 to 7, or 0.
    pub refusal: u32,
    /// Where the arguments begin, in bytes.
    pub rest: u32,
}

/// Reads a datagram up to a call's arguments (RFC 5531, sections 8.2 and 9, and appendix A); `None` exactly where it is
/// no call's: it has fewer than 8 bytes, more than 9216, or its second word isn't CALL. It takes time by the bytes of
/// the header.
pub fn opens(alloc: Global, datagram: &[u8]) -> Result<Option<Opened>, OutOfMemory>
    ensures found { IfOk result (λ found. IfSome found (Opens datagram.now)) }
    ensures none { IfOk result (λ found. IfNone found ((xid : ℕ) (text : List ℕ) → IsCall datagram.now xid text → ⊥)) }
    ensures message { IfOk result (λ found. IfSome found (λ opened. is_call datagram.now ≡ true)) }
    ensures no_message { IfOk result (λ found. IfNone found (is_call datagram.now ≡ false)) }
{
    let Some((xid, text)) = call_of(datagram) else {
        return Ok(None);
    };
    let mut reader = Reader::new(text);
    match read_header(alloc, &mut reader) {
        Ok(header) => {
            let place = datagram.len() - reader.rest().len();
            Ok(Some(passed(xid, header, place as u32)))
        }
        Err(Stop::Refused(number, program)) => Ok(Some(refused(alloc, xid, number, program))),
        Err(Stop::OutOfMemory) => Err(OutOfMemory),
    }
}

/// Whether a datagram is a call's: it has at least two words, of which the second is CALL, and isn't too long.
pub fn is_message(datagram: &[u8]) -> bool
    ensures { result ≡ is_call datagram.now }
{
    match datagram.get(4..8) {
        Some(word) => datagram.len() <= LONGEST_DATAGRAM && word == CALL.to_be_bytes().as_slice(),
        None => false,
    }
}

/// The number of the call that a datagram is, and the bytes behind the word CALL.
fn call_of(datagram: &[u8]) -> Option<(u32, &[u8])>
    ensures some { IfSome result (λ call. IsCall datagram.now call.0 call.1.now) }
    ensures none { IfNone result ((xid : ℕ) (text : List ℕ) → IsCall datagram.now xid text → ⊥) }
{
    if datagram.len() > LONGEST_DATAGRAM {
        return None;
    }
    let mut front = [0; 2];
    let mut reader = Reader::new(datagram);
    reader.words(&mut front)?;
    let [xid, kind] = front;
    if kind != CALL {
        return None;
    }
    Some((xid, reader.rest()))
}

/// What the header of a call that passes says, with the place of its arguments.
fn passed(xid: u32, header: Header, rest: u32) -> Opened
    ensures { result ≡ record { xid = xid; program = header.program; procedure = header.procedure; uid = header.caller.uid; gid = header.caller.gid; gids = header.caller.gids; refusal = 0; rest = rest } }
{
    let Header {
        program,
        procedure,
        caller,
    } = header;
    let Caller { uid, gid, gids } = caller;
    Opened {
        xid,
        program,
        procedure,
        uid,
        gid,
        gids,
        refusal: 0,
        rest,
    }
}

/// What there is of a refused call.
fn refused(alloc: Global, xid: u32, number: u32, program: u32) -> Opened
    ensures { result ≡ record { xid = xid; program = program; procedure = 0; uid = 0; gid = 0; gids = []; refusal = number; rest = 0 } }
{
    Opened {
        xid,
        program,
        procedure: 0,
        uid: 0,
        gid: 0,
        gids: Words::new(alloc),
        refusal: number,
        rest: 0,
    }
}
