//! Fields written at a place of bytes.

ghost use Rattle.std.specs.Prelude.{◌≡◌, ◌+◌, ◌-◌, ◌≤◌, [], ◌∷◌, ◌++◌, length, take, replicate, OnOk, OnErr};
ghost use Rattle.std.specs.Int.{w16, w32, w64, to_be_bytes};
ghost use Rattle.bx_base.specs.Writing.{Writes};

use crate::OutOfMemory;
use byteorder::{BigEndian, ByteOrder};

/// Writes bytes at a place, and gives the place behind them.
pub fn put(into: &mut [u8], at: usize, bytes: &[u8]) -> usize
    requires { at + length bytes.now ≤ length into.old }
    ensures { Writes into.old into.new at result bytes.now }
{
    let end = at + bytes.len();
    into[at..end].copy_from_slice(bytes);
    end
}

/// Writes a number of two bytes at a place, and gives the place behind it.
pub fn put_u16(into: &mut [u8], at: usize, number: u16) -> usize
    requires { at + 2 ≤ length into.old }
    ensures { Writes into.old into.new at result (to_be_bytes w16 number) }
{
    let mut bytes = [0; 2];
    BigEndian::write_u16(&mut bytes, number);
    put(into, at, &bytes)
}

/// Writes a number of four bytes at a place, and gives the place behind it.
pub fn put_u32(into: &mut [u8], at: usize, number: u32) -> usize
    requires { at + 4 ≤ length into.old }
    ensures { Writes into.old into.new at result (to_be_bytes w32 number) }
{
    let mut bytes = [0; 4];
    BigEndian::write_u32(&mut bytes, number);
    put(into, at, &bytes)
}

/// Writes a number of eight bytes at a place, and gives the place behind it.
pub fn put_u64(into: &mut [u8], at: usize, number: u64) -> usize
    requires { at + 8 ≤ length into.old }
    ensures { Writes into.old into.new at result (to_be_bytes w64 number) }
{
    let mut bytes = [0; 8];
    BigEndian::write_u64(&mut bytes, number);
    put(into, at, &bytes)
}

/// Writes zeros from a place on.
pub fn clear_from(into: &mut [u8], at: usize)
    requires { at ≤ length into.old }
    ensures { into.new ≡ take at into.old ++ replicate (length into.old - at) 0 }
{
    into[at..].fill(0);
}

/// Puts bytes at the end.
pub fn push(out: &mut Vec<u8>, bytes: &[u8]) -> Result<(), OutOfMemory>
    ensures ok { OnOk result (out.new.items ≡ out.old.items ++ bytes.now) }
    ensures err { OnErr result (out.new.items ≡ out.old.items) }
{
    out.extend_from_slice(bytes)?;
    Ok(())
}

/// Puts a number of four bytes at the end.
pub fn push_u32(out: &mut Vec<u8>, number: u32) -> Result<(), OutOfMemory>
    ensures ok { OnOk result (out.new.items ≡ out.old.items ++ to_be_bytes w32 number) }
    ensures err { OnErr result (out.new.items ≡ out.old.items) }
{
    let mut bytes = [0; 4];
    BigEndian::write_u32(&mut bytes, number);
    push(out, &bytes)
}

/// Puts a number of eight bytes at the end.
pub fn push_u64(out: &mut Vec<u8>, number: u64) -> Result<(), OutOfMemory>
    ensures ok { OnOk result (out.new.items ≡ out.old.items ++ to_be_bytes w64 number) }
    ensures err { OnErr result (out.new.items ≡ out.old.items) }
{
    let mut bytes = [0; 8];
    BigEndian::write_u64(&mut bytes, number);
    push(out, &bytes)
}
