//! What the lines of a row set.

use anyhow::{Error, anyhow};
use std::alloc::Global;

/// What lines set, each as its text.
#[derive(Clone, Copy)]
pub(crate) struct Setting<'a> {
    /// How many sectors each disk has.
    pub(crate) disks: &'a str,
    /// The bytes of the state.
    pub(crate) state: &'a str,
    /// After how many calls the rack stops.
    pub(crate) stop: &'a str,
    /// What is asked.
    pub(crate) ask: &'a str,
}

impl<'a> Setting<'a> {
    /// What the lines of a file set, and then those of a row.
    pub(crate) fn of(shared: &'a str, lines: &'a str) -> Setting<'a> {
        let mut setting = Setting {
            disks: "",
            state: "",
            stop: "4294967295",
            ask: "",
        };
        setting.take_all(shared);
        setting.take_all(lines);
        setting
    }

    /// Takes lines.
    fn take_all(&mut self, lines: &'a str) {
        for line in lines.split('\n') {
            let (word, text) = line.split_once(' ').unwrap_or((line, ""));
            match word {
                "disks" => self.disks = text,
                "state" => self.state = text,
                "stop" => self.stop = text,
                "ask" => self.ask = text,
                _ => {}
            }
        }
    }
}

/// The number that a text spells.
pub(crate) fn number_of(text: &str) -> Result<u64, Error> {
    match text.parse::<u64>() {
        Ok(number) => Ok(number),
        Err(_) => Err(anyhow!("no number")),
    }
}

/// The numbers of a text.
pub(crate) fn numbers_of(alloc: Global, text: &str) -> Result<Vec<u64>, Error> {
    let mut numbers = Vec::new(alloc);
    for word in text.split_whitespace() {
        numbers.push(number_of(word)?)?;
    }
    Ok(numbers)
}
