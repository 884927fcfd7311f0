//! Bytes as a row spells them.

use anyhow::{Error, anyhow};
use std::alloc::Global;

/// The bytes that words spell, one behind the other: hex digits; hex digits, `*` and how often they come; or `'` and a text, which goes to
/// the end.
pub fn bytes_of(alloc: Global, text: &str) -> Result<Vec<u8>, Error> {
    let mut bytes = Vec::new(alloc);
    let (digits, letters) = text.split_once('\'').unwrap_or((text, ""));
    put_words(alloc, &mut bytes, digits)?;
    bytes.extend_from_slice(letters.as_bytes())?;
    Ok(bytes)
}

/// Puts the bytes of words behind what there is.
fn put_words(alloc: Global, bytes: &mut Vec<u8>, words: &str) -> Result<(), Error> {
    for word in words.split_whitespace() {
        let (digits, count) = word.split_once('*').unwrap_or((word, "1"));
        let Ok(count) = count.parse::<u32>() else {
            return Err(anyhow!("no count"));
        };
        put_often(alloc, bytes, digits, count)?;
    }
    Ok(())
}

/// Puts the bytes of hex digits so often behind what there is.
fn put_often(alloc: Global, bytes: &mut Vec<u8>, digits: &str, count: u32) -> Result<(), Error> {
    let piece = hex::decode(alloc, digits)?;
    for _ in 0..count {
        bytes.extend_from_slice(piece.as_slice())?;
    }
    Ok(())
}
