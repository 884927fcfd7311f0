//! What holds of last sequences.

ghost use Rattle.std.specs.Prelude.{◌≡◌, ℕ, List};
ghost use Rattle.bx_mirror_tables.specs.Lasts.{last_in, noted, with_last};
ghost use Rattle.bx_mirror_tables.specs.declared.lasts.Last.{Last};

/// What was taken last, once a sequence is noted: that of its session, and of any other what it was.
pub fn noted_is_last()
    ensures { (lasts : List Last) (session sequence of : ℕ) → last_in (noted lasts session sequence) of ≡ with_last (last_in lasts) session sequence of }
{}
