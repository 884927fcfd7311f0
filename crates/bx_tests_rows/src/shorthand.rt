//! Names that stand for longer texts.

use anyhow::{Error, anyhow};
use std::alloc::Global;

/// Names, each with the text that it stands for.
#[derive(Drop)]
pub(crate) struct Shorthand {
    names: Vec<(String, String)>,
}

impl Shorthand {
    /// No names.
    pub(crate) fn new(alloc: Global) -> Shorthand {
        Shorthand {
            names: Vec::new(alloc),
        }
    }

    /// Learns the names of lines `let NAME TEXT`, one after the other.
    pub(crate) fn learn(&mut self, alloc: Global, lines: &str) -> Result<(), Error> {
        for line in lines.split('\n') {
            let text = self.written_out(alloc, line)?;
            let Some((name, meaning)) = definition(text.as_str()) else {
                return Err(anyhow!("a name without a text"));
            };
            let name = String::from_str(alloc, name)?;
            self.names.push((name, String::from_str(alloc, meaning)?))?;
        }
        Ok(())
    }

    /// A text in which each `{NAME}` is written out.
    pub(crate) fn written_out(&self, alloc: Global, text: &str) -> Result<String, Error> {
        let mut out = String::new(alloc);
        let mut parts = text.split('{');
        if let Some(front) = parts.next() {
            out.push_str(front)?;
        }
        for part in parts {
            let Some((name, behind)) = part.split_once('}') else {
                return Err(anyhow!("a brace that isn't closed"));
            };
            out.push_str(self.meaning(name)?)?;
            out.push_str(behind)?;
        }
        Ok(out)
    }

    /// What a name stands for.
    fn meaning(&self, name: &str) -> Result<&str, Error> {
        for (known, text) in &self.names {
            if known.as_str() == name {
                return Ok(text.as_str());
            }
        }
        Err(anyhow!("a name that stands for nothing"))
    }
}

/// The name and the text of a line `let NAME TEXT`.
fn definition(line: &str) -> Option<(&str, &str)> {
    line.strip_prefix("let ")?.split_once(' ')
}
