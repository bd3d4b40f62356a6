//! The calls of all crates, and their answers.

use crate::shows;
use rd_base::Starved;
use std::alloc::Global;
use table_vectors::Tables;
use vector_words::{NoAnswer, cut};

/// All calls.
#[derive(Drop)]
pub(crate) struct Vectors {
    /// The allocator of their memory.
    alloc: Global,
    /// The tables, as the lines so far left them.
    tables: Tables,
}

/// A line as it is shown.
#[derive(Drop)]
pub(crate) struct Shown {
    /// The line, followed by the answer.
    pub line: String,
    /// Whether it was answered. A heading is.
    pub answered: bool,
}

impl Vectors {
    /// Creates all calls, with empty tables.
    ///
    /// # Errors
    ///
    /// `Starved` if memory runs out.
    pub fn new(alloc: Global) -> Result<Vectors, Starved> {
        let tables = Tables::new(alloc)?;
        Ok(Vectors { alloc, tables })
    }

    /// Returns the answer of a call, or `None` if there is no such call.
    fn answer(&mut self, call: &str, said: &str) -> Result<Option<String>, NoAnswer> {
        if let Some(answer) = wire_vectors::answer(self.alloc, call, said)? {
            return Ok(Some(answer));
        }
        if let Some(answer) = text_vectors::answer(self.alloc, call, said)? {
            return Ok(Some(answer));
        }
        if let Some(answer) = stream_vectors::answer(self.alloc, call, said)? {
            return Ok(Some(answer));
        }
        if let Some(answer) = shows::answer(self.alloc, call, said)? {
            return Ok(Some(answer));
        }
        self.tables.answer(call, said)
    }

    /// Returns a line, an arrow and the answer.
    fn shown(&self, line: &str, answer: &str, answered: bool) -> Result<Shown, Starved> {
        Ok(Shown {
            line: format!(in self.alloc; "{line} => {answer}")?,
            answered,
        })
    }

    /// Returns a line and the answer of its call; an empty line or a heading as it is.
    ///
    /// # Errors
    ///
    /// `Starved` if memory runs out.
    pub fn show(&mut self, line: &str) -> Result<Shown, Starved> {
        if line.is_empty() || line.starts_with('#') {
            return Ok(Shown {
                line: String::from_str(self.alloc, line)?,
                answered: true,
            });
        }
        let (call, said) = cut(line);
        match self.answer(call, said) {
            Ok(Some(answer)) => self.shown(line, answer.as_str(), true),
            Ok(None) => self.shown(line, "no such call", false),
            Err(NoAnswer::Form) => self.shown(line, "not this form", false),
            Err(NoAnswer::Starved) => Err(Starved),
        }
    }
}
