//! Laws of answers.

ghost use Rattle.std.specs.Prelude.{◌≡◌, ℕ, List, Option, Result, Ok};
ghost use Rattle.bx_layout.specs.declared.block.Block.{Block};
ghost use Rattle.bx_records.specs.Drafts.{Changed};
ghost use Rattle.bx_truth.specs.bx_views.specs.Truths.{Held};
ghost use Rattle.bx_chunks.specs.Allocating.{AllocatesAt};
ghost use Rattle.bx_chunks.specs.Counting.{CountsAt};
ghost use Rattle.bx_chunks.specs.Freeing.{FreesAt};
ghost use Rattle.bx_chunks.specs.Memory.{HasMemory};
ghost use Rattle.bx_chunks.specs.Reading.{ReadsAt};
ghost use Rattle.bx_chunks.specs.declared.error.ChunkError.{ChunkError};

/// Over what is held and a draft a call has one answer, but for want of memory. So each answer comes exactly where the contract says
/// that it may come.
pub fn calls_have_one_answer()
    ensures read { (found : Option Block) (handle : ℕ) (a b : Result Block ChunkError) → ReadsAt found handle a → ReadsAt found handle b → a ≡ b }
    ensures allocate { (held : Held) (old new now : List Changed) (near areas : ℕ) (a b : Result ℕ ChunkError) → HasMemory a → HasMemory b
        → AllocatesAt held old new near areas a → AllocatesAt held old now near areas b → a ≡ b }
    ensures free { (held : Held) (old new now : List Changed) (handle : ℕ) (a b : Result (Unit {0}) ChunkError) → HasMemory a → HasMemory b
        → FreesAt held old new handle a → FreesAt held old now handle b → a ≡ b }
    ensures count { (held : Held) (areas : ℕ) (a b : Result ℕ ChunkError) → HasMemory a → HasMemory b → CountsAt held areas a → CountsAt held areas b → a ≡ b }
{}
