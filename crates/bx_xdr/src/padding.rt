//! Padding.

ghost use Rattle.std.specs.Prelude.{◌≡◌, ◌≤◌};
ghost use Rattle.bx_xdr.specs.Items.{padding_len};

/// The size of a word in bytes: each item is a multiple of it (RFC 4506, section 3).
pub(crate) const UNIT: usize = 4;

/// How many bytes of padding stand behind this many bytes, at most 3.
pub(crate) fn padding_of(len: usize) -> usize
    ensures value { result ≡ padding_len len }
    ensures small { result ≤ 3 }
{
    (UNIT - len % UNIT) % UNIT
}
