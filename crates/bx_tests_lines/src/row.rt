//! A row of a file of cases.

use anyhow::{Error, anyhow};
use std::io;

/// A case: its name, what is asked, and the answer that is wanted. In a file an empty line stands between two rows, and a row is a line
/// `row NAME`, lines of what is asked, and a line `= ANSWER`, which may have more lines behind it.
#[derive(Clone, Copy)]
pub struct Row<'a> {
    /// Its name.
    pub name: &'a str,
    /// What is asked.
    pub asked: &'a str,
    /// The answer that is wanted.
    pub wanted: &'a str,
}

impl<'a> Row<'a> {
    /// The row of a text.
    pub fn read(text: &'a str) -> Result<Row<'a>, Error> {
        let Some((given, wanted)) = text.split_once("\n= ") else {
            return Err(anyhow!("a row without an answer"));
        };
        let Some((head, asked)) = given.split_once('\n') else {
            return Err(anyhow!("a row that asks nothing"));
        };
        match head.strip_prefix("row ") {
            Some(name) => Ok(Row {
                name,
                asked,
                wanted,
            }),
            None => Err(anyhow!("a row without a name")),
        }
    }

    /// Prints that the row holds, where its answer came, or what came.
    pub fn tell(&self, rt: &impl Print, answer: &str) -> io::Result<()> {
        let answer = answer.trim();
        if answer == self.wanted.trim() {
            println!(rt; "{}: holds", self.name)
        } else {
            println!(rt; "{}: = {answer}", self.name)
        }
    }
}
