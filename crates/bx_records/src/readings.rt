//! Laws of headers: what is written is read again, and the same bytes are read as one header.

ghost use Rattle.std.specs.Prelude.{◌≡◌, ℕ, List};
ghost use Rattle.bx_layout.specs.bx_base.specs.Writing.{padded};
ghost use Rattle.bx_records.specs.declared.record_head.RecordHead.{RecordHead};
ghost use Rattle.bx_records.specs.Records.{IsHead, SpellsHead, head_text};

/// What is written of a header is its bytes, so that it is read again.
pub fn written_reads()
    ensures { (head : RecordHead) → IsHead head → SpellsHead head (padded 512 (head_text head)) }
{}

/// Bytes are one header at most: so what is read of what was written is the same, and two headers have different bytes.
pub fn one_reading()
    ensures { (a b : RecordHead) (sector : List ℕ) → SpellsHead a sector → SpellsHead b sector → a ≡ b }
{}
