//! The actual lines of a case, compared one after the other with the expected ones.

use crate::case::CaseLine;
use crate::faults::Fault;
use rd_base::Starved;
use std::alloc::Global;

/// Actual lines, and how many of them were compared.
#[derive(Drop)]
pub struct Came {
    /// The allocator of its memory.
    alloc: Global,
    /// The actual lines.
    lines: Vec<String>,
    /// The number of lines that were compared.
    told: usize,
}

impl Came {
    /// Creates an empty list of actual lines.
    pub fn new(alloc: Global) -> Came {
        Came {
            alloc,
            lines: Vec::new(alloc),
            told: 0,
        }
    }

    /// Appends the lines of these octets.
    ///
    /// # Errors
    ///
    /// `Starved` if memory runs out.
    pub fn add(&mut self, octets: &[u8]) -> Result<(), Starved> {
        let text = String::from_utf8_lossy(self.alloc, octets)?;
        'lines: for line in text.as_str().lines() {
            self.lines.push(String::from_str(self.alloc, line)?)?;
        }
        Ok(())
    }

    /// Returns the next line that was not compared, if there is one.
    fn next(&self) -> Option<&str> {
        let line = self.lines.get(self.told)?;
        Some(line.as_str())
    }

    /// Returns the difference at a line of the file.
    fn difference(&self, line: u64, written: &str) -> Result<Fault, Starved> {
        Ok(Fault::Differs {
            line,
            written: String::from_str(self.alloc, written)?,
            came: String::from_str(self.alloc, self.next().unwrap_or("nothing"))?,
        })
    }

    /// Compares the next actual line with `written`, which is the expected line with this number in
    /// its file.
    ///
    /// # Errors
    ///
    /// `Differs` if they are not the same; `Starved` if memory runs out.
    pub fn tell_line(&mut self, number: u64, written: &str) -> Result<(), Fault> {
        if self.next() != Some(written) {
            return Err(self.difference(number, written)?);
        }
        self.told = self.told.saturating_add(1);
        Ok(())
    }

    /// Compares the next actual line with an expected line of a case.
    ///
    /// # Errors
    ///
    /// `Differs` if they are not the same; `Starved` if memory runs out.
    pub fn tell(&mut self, line: &CaseLine) -> Result<(), Fault> {
        self.tell_line(line.number, line.text.as_str())
    }

    /// Checks that no actual line is left at this line of the file.
    ///
    /// # Errors
    ///
    /// `Differs` if one is left; `Starved` if memory runs out.
    pub fn end(&self, line: u64) -> Result<(), Fault> {
        if self.next().is_some() {
            return Err(self.difference(line, "nothing")?);
        }
        Ok(())
    }
}
