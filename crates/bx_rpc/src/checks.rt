//! What is checked of a call before its arguments.

ghost use Rattle.std.specs.Prelude.{◌≡◌, ◌⊎◌, ◌≤◌, ℕ, List, IfOk, IfErr};
ghost use Rattle.bx_xdr.specs.Items.{SpellsWord, SpellsOpaque, Reads, Lacks};
ghost use Rattle.bx_rpc.specs.declared.caller.Caller.{Caller};
ghost use Rattle.bx_rpc.specs.Callers.{Names};
ghost use Rattle.bx_rpc.specs.Checks.{Verdict, Checks, FromProgram, FromVersion, FromProcedure, FromCredential, FromBody, FromCaller, FromVerifier};
ghost use Rattle.bx_rpc.specs.Stops.{StopsAs};

use crate::caller::{Caller, auth_sys, nobody};
use crate::numbers::{last_procedure, version};
use crate::stop::Stop;
use bx_xdr::Reader;
use std::alloc::Global;

/// The version of RPC (RFC 5531, section 9).
const RPC_VERSION: u32 = 2;

/// The flavor of a credential that says nothing (RFC 5531, section 8.2).
const AUTH_NONE: u32 = 0;

/// The flavor of a credential that names a user (RFC 5531, appendix A).
const AUTH_SYS: u32 = 1;

/// The greatest length of the body of a credential or a verifier, in bytes (RFC 5531, section 8.2).
const LONGEST_BODY: u32 = 400;

/// What the header of a call that passes says.
#[derive(Drop)]
pub(crate) struct Header {
    /// The program.
    pub program: u32,
    /// The procedure.
    pub procedure: u32,
    /// Who calls.
    pub caller: Caller,
}

/// Reads the header of a call from the version of RPC on.
pub(crate) fn read_header(alloc: Global, reader: &mut Reader) -> Result<Header, Stop>
    ensures ok { IfOk result (λ header. Checks (Verdict.passed header.program header.procedure header.caller reader.new) reader.old) }
    ensures err { IfErr result (StopsAs (λ verdict. Checks verdict reader.old)) }
{
    let program = program(reader)?;
    let procedure = procedure(reader, program)?;
    let caller = credential(alloc, reader)?;
    verifier(reader)?;
    Ok(Header {
        program,
        procedure,
        caller,
    })
}

/// Reads the version of RPC, the program and its version.
fn program(reader: &mut Reader) -> Result<u32, Stop>
    ensures ok { IfOk result (λ program. (verdict : Verdict) → FromProcedure program verdict reader.new → Checks verdict reader.old) }
    ensures err { IfErr result (StopsAs (λ verdict. Checks verdict reader.old)) }
{
    if word(reader)? != RPC_VERSION {
        return Err(Stop::Refused(1, 0));
    }
    let program = word(reader)?;
    let Some(version) = version(program) else {
        return Err(Stop::Refused(2, 0));
    };
    if word(reader)? != version {
        return Err(Stop::Refused(3, program));
    }
    Ok(program)
}

/// Reads the procedure.
fn procedure(reader: &mut Reader, program: u32) -> Result<u32, Stop>
    ensures ok { IfOk result (λ procedure. (verdict : Verdict) → FromCredential program procedure verdict reader.new → FromProcedure program verdict reader.old) }
    ensures err { IfErr result (StopsAs (λ verdict. FromProcedure program verdict reader.old)) }
{
    let procedure = word(reader)?;
    if procedure > last_procedure(program) {
        return Err(Stop::Refused(4, 0));
    }
    Ok(procedure)
}

/// Reads the credential.
fn credential(alloc: Global, reader: &mut Reader) -> Result<Caller, Stop>
    ensures ok { IfOk result (λ caller. (program procedure : ℕ) (verdict : Verdict) → FromVerifier program procedure caller verdict reader.new → FromCredential program procedure verdict reader.old) }
    ensures err { IfErr result (StopsAs (λ verdict. (program procedure : ℕ) → FromCredential program procedure verdict reader.old)) }
{
    let flavor = word(reader)?;
    if flavor != AUTH_NONE && flavor != AUTH_SYS {
        return Err(Stop::Refused(5, 0));
    }
    let body = body(reader)?;
    let caller = named(alloc, flavor, body)?;
    Ok(caller)
}

/// The caller that a credential with this flavor and body names.
fn named(alloc: Global, flavor: u32, body: &[u8]) -> Result<Caller, Stop>
    requires { (flavor ≡ 0) ⊎ (flavor ≡ 1) }
    ensures ok { IfOk result (Names flavor body.now) }
    ensures err { IfErr result (StopsAs (λ verdict. (verdict ≡ Verdict.refused 6 0) × ((caller : Caller) → Names flavor body.now caller → ⊥))) }
{
    if flavor == AUTH_NONE {
        return Ok(nobody(alloc));
    }
    let Some(caller) = auth_sys(alloc, body)? else {
        return Err(Stop::Refused(6, 0));
    };
    Ok(caller)
}

/// Reads the body of a credential. Its length is checked before it is known whether the body is there.
fn body<'a>(reader: &mut Reader<'a>) -> Result<&'a [u8], Stop>
    ensures ok { IfOk result (λ body. (program procedure flavor : ℕ) (verdict : Verdict) → FromCaller program procedure flavor body.now verdict reader.new → FromBody program procedure flavor verdict reader.old) }
    ensures err { IfErr result (StopsAs (λ verdict. (program procedure flavor : ℕ) → FromBody program procedure flavor verdict reader.old)) }
{
    let mut ahead = Reader::new(reader.rest());
    if word(&mut ahead)? > LONGEST_BODY {
        return Err(Stop::Refused(6, 0));
    }
    let Some(body) = reader.opaque(LONGEST_BODY) else {
        return Err(Stop::Refused(7, 0));
    };
    Ok(body)
}

/// Reads the verifier.
fn verifier(reader: &mut Reader) -> Result<(), Stop>
    ensures ok { IfOk result (λ _. (program procedure : ℕ) (caller : Caller) → FromVerifier program procedure caller (Verdict.passed program procedure caller reader.new) reader.old) }
    ensures err { IfErr result (StopsAs (λ verdict. (program procedure : ℕ) (caller : Caller) → FromVerifier program procedure caller verdict reader.old)) }
{
    word(reader)?;
    let Some(_body) = reader.opaque(LONGEST_BODY) else {
        return Err(Stop::Refused(7, 0));
    };
    Ok(())
}

/// The next word.
fn word(reader: &mut Reader) -> Result<u32, Stop>
    ensures ok { IfOk result (λ word. Reads (SpellsWord word) reader.old reader.new) }
    ensures err { IfErr result (StopsAs (λ verdict. (verdict ≡ Verdict.refused 7 0) × Lacks SpellsWord reader.old)) }
{
    reader.word().ok_or(Stop::Refused(7, 0))
}
