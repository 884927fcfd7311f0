//! Laws of calls up to their arguments.

ghost use Rattle.std.specs.Prelude.{◌≡◌, ◌≤◌, List, ℕ, true};
ghost use Rattle.bx_xdr.specs.bx_base.specs.Bytes.{IsBytes};
ghost use Rattle.bx_rpc.specs.declared.caller.Caller.{Caller};
ghost use Rattle.bx_rpc.specs.declared.opened.Opened.{Opened};
ghost use Rattle.bx_rpc.specs.Checks.{Verdict, Checks, IsProgram, last_procedure};
ghost use Rattle.bx_rpc.specs.Message.{IsCall, IsRefusal, Opens, is_message};

/// Of any bytes the checks come to one verdict at most: one refusal, or none. So a datagram opens in one way.
pub fn one_opening()
    ensures verdicts { (text : List ℕ) (v w : Verdict) → Checks v text → Checks w text → v ≡ w }
    ensures openings { (datagram : List ℕ) (a b : Opened) → Opens datagram a → Opens datagram b → a ≡ b }
{}

/// The test of a datagram tells exactly those that are a call's, of bytes.
pub fn messages()
    ensures told { (datagram : List ℕ) (xid : ℕ) (text : List ℕ) → IsCall datagram xid text → is_message datagram ≡ true }
    ensures tells { (datagram : List ℕ) → IsBytes datagram → is_message datagram ≡ true → (xid : ℕ) × (text : List ℕ) × IsCall datagram xid text }
{}

/// The number of a refusal is 1 to 7.
pub fn refusals()
    ensures { (text : List ℕ) (number by : ℕ) → Checks (Verdict.refused number by) text → IsRefusal number by }
{}

/// A call that passes is of a program that is served, which has the procedure.
pub fn passes()
    ensures { (text : List ℕ) (program procedure : ℕ) (caller : Caller) (arguments : List ℕ) → Checks (Verdict.passed program procedure caller arguments) text → IsProgram program × (procedure ≤ last_procedure program) }
{}
