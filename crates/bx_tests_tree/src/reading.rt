//! Calls as lines of text. The words of such a line are
//!
//! - `nfs` or `mount`, the moment in milliseconds, how many blocks are free, the handle of the file that the call makes
//!   (`-` for none), the caller's user, group and further groups (with commas between them; `-` for none), the procedure, and its
//!   arguments in their order (RFC 1094), without those that mean nothing;
//! - or `refused`, the same six words, the number of the refusal, and the program.
//!
//! A number that is `-`, or isn't there, is 4294967295: an attribute that is left alone. A handle is its area, its slot and
//! its generation, with dots between them. Bytes are `'` and a text, `*` and how many bytes `x`, `=` and a handle for
//! the file handle that has it, or hex digits. In a call that is made several times, the number `@` is how many were made
//! before it, and `^` is one more; a text that ends with `@` ends with the first of these in decimal digits.

ghost use Rattle.std.specs.Prelude.{◌≤◌};

use bx_base::{Raw, Words};
use bx_model::{Args, Call, Sattr};
use std::alloc::{AllocError, Global};

/// What stands for a number that isn't there.
const UNSET: u64 = 4294967295;

/// The words of a line, and what they are read by.
#[derive(Drop)]
pub(crate) struct Line<'a> {
    pub words: Vec<&'a str>,
    pub alloc: Global,
    pub volume: u64,
    /// How many calls were made by this line before.
    pub turn: u64,
}

/// The words of a text.
pub(crate) fn line_of(alloc: Global, volume: u64, text: &str) -> Result<Line<'_>, AllocError> {
    let words = text.split(' ').collect(alloc)?;
    Ok(Line {
        words,
        alloc,
        volume,
        turn: 0,
    })
}

impl Line<'_> {
    /// A word; empty where there is none.
    pub(crate) fn text(&self, at: usize) -> &str {
        match self.words.get(at) {
            Some(text) => text,
            None => "",
        }
    }

    /// A number.
    pub(crate) fn number(&self, at: usize) -> u64 {
        self.number_of(self.text(at))
    }

    /// A number of 32 bits.
    pub(crate) fn word(&self, at: usize) -> u32 {
        self.number(at).min(UNSET) as u32
    }

    /// The number that a word spells.
    fn number_of(&self, text: &str) -> u64 {
        match text {
            "@" => self.turn,
            "^" => self.turn.saturating_add(1),
            _ => text.parse::<u64>().unwrap_or(UNSET),
        }
    }

    /// A handle; 0 where there is none.
    pub(crate) fn handle(&self, at: usize) -> u64 {
        self.handle_of(self.text(at))
    }

    /// The handle that a word spells.
    fn handle_of(&self, text: &str) -> u64 {
        let Some((area, rest)) = text.split_once('.') else {
            return 0;
        };
        let Some((slot, generation)) = rest.split_once('.') else {
            return 0;
        };
        let area = self.number_of(area) % 65536;
        let slot = self.number_of(slot) % 65536;
        let generation = self.number_of(generation) % 4294967296;
        area << 48 | slot << 32 | generation
    }

    /// Bytes; none without memory.
    fn bytes(&self, at: usize) -> Raw {
        match self.bytes_of(self.text(at)) {
            Ok(bytes) => Raw::from(bytes),
            Err(_) => Raw::from(Vec::new(self.alloc)),
        }
    }

    /// The bytes that a word spells.
    fn bytes_of(&self, text: &str) -> Result<Vec<u8>, AllocError> {
        if let Some(text) = text.strip_prefix('\'') {
            return self.named(text);
        }
        if let Some(count) = text.strip_prefix('*') {
            return vec![in self.alloc; b'x'; count.parse::<usize>().unwrap_or(0)];
        }
        let Some(handle) = text.strip_prefix('=') else {
            return decoded(self.alloc, text);
        };
        let handle = self.handle_of(handle);
        let digits = format!(in self.alloc;
            "424f58574f4f4431{:016x}{handle:016x}0000000000000000",
            self.volume
        )?;
        decoded(self.alloc, digits.as_str())
    }

    /// The bytes of a text, which may end with how many calls were made before.
    fn named(&self, text: &str) -> Result<Vec<u8>, AllocError> {
        let Some(text) = text.strip_suffix('@') else {
            return Vec::from_slice(self.alloc, text.as_bytes());
        };
        let numbered = format!(in self.alloc; "{text}{}", self.turn)?;
        Vec::from_slice(self.alloc, numbered.as_bytes())
    }

    /// The further groups of a caller; none without memory.
    fn groups(&self, at: usize) -> Words {
        let mut groups = Words::new(self.alloc);
        for group in self.text(at).split(',') {
            if let Ok(group) = group.parse::<u32>() {
                if groups.push(group).is_err() {
                    break;
                }
            }
        }
        groups
    }

    /// Attributes to set.
    fn sattr(&self, at: usize) -> Sattr
        requires { at ≤ 100 }
    {
        Sattr {
            mode: self.word(at),
            uid: self.word(at + 1),
            gid: self.word(at + 2),
            size: self.word(at + 3),
            atime: (self.word(at + 4), self.word(at + 5)),
            mtime: (self.word(at + 6), self.word(at + 7)),
        }
    }

    /// The call that the words spell.
    pub(crate) fn call(&self) -> Call {
        let (program, args) = match self.text(0) {
            "nfs" => (100003, self.nfs_args()),
            "mount" => (100005, self.mount_args()),
            _ => (self.word(8), Args::Refused(self.word(7))),
        };
        Call {
            program,
            procedure: self.word(7),
            uid: self.word(4),
            gid: self.word(5),
            gids: self.groups(6),
            args,
        }
    }

    /// The arguments of a procedure of MOUNT.
    fn mount_args(&self) -> Args {
        match self.word(7) {
            1 | 3 => Args::Path(self.bytes(8)),
            _ => Args::Nothing,
        }
    }

    /// The arguments of a procedure of NFS.
    fn nfs_args(&self) -> Args {
        let procedure = self.word(7);
        if procedure == 0 || procedure == 3 || procedure == 7 {
            return Args::Nothing;
        }
        let first = self.bytes(8);
        match procedure {
            2 => Args::Set(first, self.sattr(9)),
            6 => Args::Read(first, self.word(9), self.word(10), 0),
            16 => Args::List(first, self.word(9), self.word(10)),
            4 | 8 | 9 | 10 | 11 | 12 | 13 | 14 | 15 => self.two_args(procedure, first),
            _ => Args::Handle(first),
        }
    }

    /// The same of arguments with two lists of bytes or more.
    fn two_args(&self, procedure: u32, first: Raw) -> Args {
        if procedure == 8 {
            return Args::Write(first, 0, self.word(9), 0, self.bytes(10));
        }
        let second = self.bytes(9);
        match procedure {
            9 | 14 => Args::Make(first, second, self.sattr(10)),
            11 => Args::Rename(first, second, self.bytes(10), self.bytes(11)),
            12 => Args::Link(first, second, self.bytes(10)),
            13 => Args::Symlink(first, second, self.bytes(10), self.sattr(11)),
            _ => Args::Name(first, second),
        }
    }
}

/// The bytes that hex digits spell; none where there are no such digits.
fn decoded(alloc: Global, digits: &str) -> Result<Vec<u8>, AllocError> {
    match hex::decode(alloc, digits) {
        Ok(bytes) => Ok(bytes),
        Err(_) => Ok(Vec::new(alloc)),
    }
}
