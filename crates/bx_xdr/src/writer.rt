//! Writing items.

ghost use Rattle.std.specs.Prelude.{◌≡◌, ◌^◌, ◌<◌, [], ◌++◌, length, OnOk, OnErr};
ghost use Rattle.bx_base.specs.Bytes.{words};
ghost use Rattle.bx_xdr.specs.Items.{word_text, fixed_text, opaque_text};

use crate::padding::{UNIT, padding_of};
use bx_base::{OutOfMemory, Raw};
use byteorder::{BigEndian, ByteOrder};
use std::alloc::Global;
use std::marker::Model;

/// What padding is written as.
const PADDING: [u8; 3] = [0; 3];

/// The lengths that a word has room for.
const LENGTHS: usize = 0xffff_ffff;

/// Puts items one behind the other. Contracts see it as the list of the bytes that were put.
#[derive(Drop)]
pub struct Writer {
    bytes: Vec<u8>,
}

impl Model for Writer {
    ghost use Rattle.std.specs.Prelude.{ℕ, List};

    ghost Value = { List ℕ };

    ghost view = { λ writer. writer.bytes.items };
}

impl Writer {
    /// A writer of no bytes yet. It takes no memory.
    pub fn new(alloc: Global) -> Writer
        ensures { result ≡ [] }
    {
        Writer {
            bytes: Vec::new(alloc),
        }
    }

    /// The bytes that were put.
    pub fn bytes(&self) -> &[u8]
        ensures { result.now ≡ self.now }
    {
        self.bytes.as_slice()
    }

    /// The bytes that were put, with their memory.
    pub fn into_raw(self) -> Raw
        ensures { result ≡ self }
    {
        Raw::from(self.bytes)
    }

    /// Puts a word (RFC 4506, section 4.2). On an error nothing is put.
    pub fn put_word(&mut self, word: u32) -> Result<(), OutOfMemory>
        ensures ok { OnOk result (self.new ≡ self.old ++ word_text word) }
        ensures err { OnErr result (self.new ≡ self.old) }
    {
        let mut bytes = [0; UNIT];
        BigEndian::write_u32(&mut bytes, word);
        self.bytes.extend_from_slice(&bytes)?;
        Ok(())
    }

    /// Puts words one behind the other (RFC 4506, section 4.12). On an error nothing is put.
    pub fn put_words(&mut self, numbers: &[u32]) -> Result<(), OutOfMemory>
        ensures ok { OnOk result (self.new ≡ self.old ++ words numbers.now) }
        ensures err { OnErr result (self.new ≡ self.old) }
    {
        let start = self.bytes.len();
        for number in numbers {
            if self.put_word(*number).is_err() {
                self.bytes.truncate(start);
                return Err(OutOfMemory);
            }
        }
        Ok(())
    }

    /// Puts opaque data of a length that its reader knows, and behind it zeros up to a multiple of 4 bytes (RFC 4506,
    /// section 4.9). On an error nothing is put.
    pub fn put_fixed(&mut self, content: &[u8]) -> Result<(), OutOfMemory>
        ensures ok { OnOk result (self.new ≡ self.old ++ fixed_text content.now) }
        ensures err { OnErr result (self.new ≡ self.old) }
    {
        let padding = padding_of(content.len());
        self.bytes.reserve(content.len() + padding)?;
        self.bytes.extend_from_slice(content)?;
        self.bytes.extend_from_slice(&PADDING[..padding])?;
        Ok(())
    }

    /// Puts the length of opaque data in bytes, which is to be below 2^32 (of a greater one its low 32 bits), and then the data as `put_fixed` does (RFC 4506,
    /// section 4.10). On an error nothing is put.
    pub fn put_opaque(&mut self, content: &[u8]) -> Result<(), OutOfMemory>
        ensures ok { OnOk result (self.new ≡ self.old ++ opaque_text content.now) }
        ensures err { OnErr result (self.new ≡ self.old) }
    {
        let start = self.bytes.len();
        self.put_word((content.len() & LENGTHS) as u32)?;
        if self.put_fixed(content).is_err() {
            self.bytes.truncate(start);
            return Err(OutOfMemory);
        }
        Ok(())
    }
}
