//! Calls.

ghost use Rattle.std.specs.Prelude.{◌≡◌, ◌≤◌, ℕ, true, false, IfOk, IfSome, IfNone, length, drop};
ghost use Rattle.bx_model.specs.declared.call.Call.{Call};
ghost use Rattle.bx_rpc.specs.Message.{is_message};
ghost use Rattle.bx_nfs.specs.Asked.{IsAsked};
ghost use Rattle.bx_nfs.specs.Wire.{ReadsAs, FromArguments, refused_call};

use crate::arguments::read_args;
use crate::forms::form_of;
use bx_base::{OutOfMemory, Words};
use bx_model::{Args, Call};
use bx_rpc::{Opened, opens};
use bx_xdr::Reader;
use std::alloc::Global;

/// The number of the refusal of a call whose arguments can't be read.
const GARBAGE: u32 = 7;

/// The number and the call that a datagram is; `None` exactly where it is no call: it has fewer than 8 bytes, more than
/// 9216, or its second word isn't CALL. A call that is refused as a message has the arguments `Refused`. It takes time by the bytes of the header and the arguments, and copies each of these
/// once at most.
pub fn reads_as(alloc: Global, datagram: &[u8]) -> Result<Option<(u32, Call)>, OutOfMemory>
    ensures found { IfOk result (λ found. IfSome found (λ read. ReadsAs datagram.now read.0 read.1)) }
    ensures none { IfOk result (λ found. IfNone found ((xid : ℕ) (call : Call) → ReadsAs datagram.now xid call → ⊥)) }
    ensures asked { IfOk result (λ found. IfSome found (λ read. IsAsked read.1)) }
    ensures message { IfOk result (λ found. IfSome found (λ read. is_message datagram.now ≡ true)) }
    ensures no_message { IfOk result (λ found. IfNone found (is_message datagram.now ≡ false)) }
{
    let Some(opened) = opens(alloc, datagram)? else {
        return Ok(None);
    };
    let xid = opened.xid;
    if opened.refusal != 0 {
        return Ok(Some((xid, refused(alloc, opened.refusal, opened.program))));
    }
    let call = passed(alloc, opened, datagram)?;
    Ok(Some((xid, call)))
}

/// The call whose header passes, with the arguments that stand where the header says; or the refused call, where they
/// can't be read.
fn passed(alloc: Global, opened: Opened, datagram: &[u8]) -> Result<Call, OutOfMemory>
    requires { opened.rest ≤ length datagram.now }
    ensures { IfOk result (λ call. FromArguments opened.program opened.procedure (record { uid = opened.uid; gid = opened.gid; gids = opened.gids }) call (drop opened.rest datagram.now)) }
{
    let form = form_of(opened.program, opened.procedure);
    let mut reader = Reader::new(&datagram[opened.rest as usize..]);
    let Some(args) = read_args(alloc, form, &mut reader)? else {
        return Ok(refused(alloc, GARBAGE, 0));
    };
    Ok(Call {
        program: opened.program,
        procedure: opened.procedure,
        uid: opened.uid,
        gid: opened.gid,
        gids: opened.gids,
        args,
    })
}

/// A call that is refused as a message, with the number of the refusal and the program that its reply goes by.
fn refused(alloc: Global, number: u32, program: u32) -> Call
    ensures { result ≡ refused_call number program }
{
    Call {
        program,
        procedure: 0,
        uid: 0,
        gid: 0,
        gids: Words::new(alloc),
        args: Args::Refused(number),
    }
}
