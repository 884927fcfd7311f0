//! An answer.

use anyhow::{Error, anyhow};
use std::alloc::Global;

/// An answer that is told piece by piece. What doesn't fit into memory is noticed at its end.
#[derive(Drop)]
pub struct Line {
    text: String,
    whole: bool,
}

impl Line {
    /// An empty answer.
    pub fn new(alloc: Global) -> Line {
        Line {
            text: String::new(alloc),
            whole: true,
        }
    }

    /// Tells a piece of text.
    pub fn text(&mut self, piece: &str) {
        self.whole &= self.text.push_str(piece).is_ok();
    }

    /// Tells a space and a number in decimal digits.
    pub fn number(&mut self, number: u64) {
        self.whole &= write!(self.text, " {number}").is_ok();
    }

    /// Tells numbers, each behind a space.
    pub fn numbers(&mut self, numbers: &[u64]) {
        for number in numbers {
            self.number(*number);
        }
    }

    /// Tells a space and bytes in hex, or a dash for none.
    pub fn bytes(&mut self, bytes: &[u8]) {
        self.text(if bytes.is_empty() { " -" } else { " " });
        for byte in bytes {
            self.digit(*byte / 16);
            self.digit(*byte % 16);
        }
    }

    /// Tells a space and a word in hex.
    pub fn word(&mut self, word: u32) {
        self.bytes(&word.to_be_bytes());
    }

    /// Tells how something is written that was read of bytes: `same` for these, else its bytes.
    pub fn written(&mut self, written: &[u8], bytes: &[u8]) {
        if written == bytes {
            self.text(" same");
        } else {
            self.bytes(written);
        }
    }

    /// Tells a hex digit, the low four bits of a number.
    fn digit(&mut self, number: u8) {
        let number = number % 16;
        let digit = if number < 10 {
            b'0' + number
        } else {
            b'a' + (number - 10)
        };
        self.whole &= self.text.push(char::from(digit)).is_ok();
    }

    /// The answer; an error where memory ran out.
    pub fn into_text(self) -> Result<String, Error> {
        let Line { text, whole } = self;
        if whole {
            Ok(text)
        } else {
            Err(anyhow!("out of memory"))
        }
    }
}
