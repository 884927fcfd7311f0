//! Laws of the wire.

ghost use Rattle.std.specs.Prelude.{◌≡◌, ◌%◌, ◌≤◌, ◌++◌, ℕ, List, length};
ghost use Rattle.bx_xdr.specs.Items.{Reads};
ghost use Rattle.bx_rpc.specs.declared.caller.Caller.{Caller};
ghost use Rattle.bx_model.specs.declared.call.Args.{Args};
ghost use Rattle.bx_model.specs.declared.call.Call.{Call};
ghost use Rattle.bx_model.specs.declared.reply.Reply.{Reply};
ghost use Rattle.bx_nfs.specs.Asked.{IsAsked};
ghost use Rattle.bx_nfs.specs.Forms.{Arguments, form_of};
ghost use Rattle.bx_nfs.specs.Limits.{IsLimited};
ghost use Rattle.bx_nfs.specs.Wire.{ReadsAs, FromArguments, passed_call, reply_text};

/// A datagram is one call at most.
pub fn one_reading()
    ensures { (bytes : List ℕ) (x y : ℕ) (a b : Call) → ReadsAs bytes x a → ReadsAs bytes y b → (x ≡ y) × (a ≡ b) }
{}

/// A call that a datagram is has the arguments of its procedure.
pub fn own_arguments()
    ensures { (bytes : List ℕ) (xid : ℕ) (call : Call) → ReadsAs bytes xid call → IsAsked call }
{}

/// What stands behind the arguments of a call doesn't matter to what it reads as.
pub fn tail_passed_over()
    ensures { (program procedure : ℕ) (caller : Caller) (args : Args) (text rest tail : List ℕ) → Reads (Arguments (form_of program procedure) args) text rest
        → FromArguments program procedure caller (passed_call program procedure caller args) (text ++ tail) }
{}

/// A datagram that is a call has 8 to 9216 bytes. A reply is whole words; one within the limits has at most 8292 bytes.
pub fn lengths()
    ensures short { (bytes : List ℕ) (xid : ℕ) (call : Call) → ReadsAs bytes xid call → length bytes ≤ 9216 }
    ensures long { (bytes : List ℕ) (xid : ℕ) (call : Call) → ReadsAs bytes xid call → 8 ≤ length bytes }
    ensures whole { (xid : ℕ) (reply : Reply) → length (reply_text xid reply) % 4 ≡ 0 }
    ensures limited { (xid : ℕ) (reply : Reply) → IsLimited reply → length (reply_text xid reply) ≤ 8292 }
{}
