//! Fields at the front of bytes.

ghost use Rattle.std.specs.Prelude.{◌≡◌, ◌↔◌, IsTrue, IfErr, length, replicate};
ghost use Rattle.std.specs.Int.{w16, w32, w64};
ghost use Rattle.bx_base.specs.Reading.{Gives, IsAll, IsBeforeZeros, number_at, bytes_at};
ghost use Rattle.bx_base.specs.declared.error.ReadError.TheVariants.{Malformed};

use crate::OutOfMemory;
use crate::error::ReadError;
use byteorder::{BigEndian, ByteOrder};

/// The number of two bytes at the front, and the bytes behind it; `Malformed` exactly where there are fewer bytes.
pub fn u16_at(bytes: &[u8]) -> Result<(u16, &[u8]), ReadError>
    ensures value { Gives (λ x. (x.0, x.1.now)) result (number_at w16 bytes.now) }
    ensures cause { IfErr result (λ error. error ≡ Malformed) }
{
    let (front, rest) = front_at(bytes, 2)?;
    Ok((BigEndian::read_u16(front), rest))
}

/// The number of four bytes at the front, and the bytes behind it; `Malformed` exactly where there are fewer bytes.
pub fn u32_at(bytes: &[u8]) -> Result<(u32, &[u8]), ReadError>
    ensures value { Gives (λ x. (x.0, x.1.now)) result (number_at w32 bytes.now) }
    ensures cause { IfErr result (λ error. error ≡ Malformed) }
{
    let (front, rest) = front_at(bytes, 4)?;
    Ok((BigEndian::read_u32(front), rest))
}

/// The number of eight bytes at the front, and the bytes behind it; `Malformed` exactly where there are fewer bytes.
pub fn u64_at(bytes: &[u8]) -> Result<(u64, &[u8]), ReadError>
    ensures value { Gives (λ x. (x.0, x.1.now)) result (number_at w64 bytes.now) }
    ensures cause { IfErr result (λ error. error ≡ Malformed) }
{
    let (front, rest) = front_at(bytes, 8)?;
    Ok((BigEndian::read_u64(front), rest))
}

/// As many bytes of the front as are wanted, and the bytes behind them; `Malformed` exactly where there are fewer.
pub fn front_at(bytes: &[u8], len: usize) -> Result<(&[u8], &[u8]), ReadError>
    ensures value { Gives (λ x. (x.0.now, x.1.now)) result (bytes_at len bytes.now) }
    ensures cause { IfErr result (λ error. error ≡ Malformed) }
{
    if bytes.len() < len {
        return Err(ReadError::Malformed);
    }
    Ok(bytes.split_at(len))
}

/// What was read, where no bytes are left behind it; `Malformed` exactly where some are.
pub fn all_of<T: Drop>(read: (T, &[u8])) -> Result<T, ReadError>
    ensures { IsAll read.entry.0 read.entry.1.now result }
{
    let (value, rest) = read;
    if rest.is_empty() {
        Ok(value)
    } else {
        Err(ReadError::Malformed)
    }
}

/// What was read, where only zeros are left behind it; `None` exactly where the bytes are malformed or something else is left.
pub fn before_zeros<T: Drop>(read: Result<(T, &[u8]), ReadError>) -> Result<Option<T>, OutOfMemory>
    ensures { IsBeforeZeros (λ x. (x.0, x.1.now)) read.entry result }
{
    match read {
        Ok((value, rest)) if are_zeros(rest) => Ok(Some(value)),
        Ok(_) | Err(ReadError::Malformed) => Ok(None),
        Err(ReadError::OutOfMemory) => Err(OutOfMemory),
    }
}

/// Whether all bytes are zero.
pub fn are_zeros(bytes: &[u8]) -> bool
    ensures { IsTrue result ↔ (bytes.now ≡ replicate (length bytes.now) 0) }
{
    bytes.iter().all(|byte| *byte == 0)
}
