//! The file of a case, read line by line.

use crate::case::{Case, FileLine};
use crate::faults::Fault;
use std::alloc::Global;

/// Lines between `for` and `next`.
#[derive(Drop)]
struct Repeat<'a> {
    /// The first number that they are repeated for.
    first: u64,
    /// The last one.
    last: u64,
    /// The lines.
    lines: Vec<FileLine<'a>>,
}

/// A file that is being read.
#[derive(Drop)]
struct Reader<'a> {
    /// The allocator of its memory.
    alloc: Global,
    /// The case so far.
    case: Case,
    /// The lines after a `for`, which are to be repeated.
    repeat: Option<Repeat<'a>>,
    /// The number of lines that were read.
    lines: u64,
}

/// Returns the two numbers of a range such as `1..=9`.
fn numbers_of(range: &str) -> Option<(u64, u64)> {
    let (first, last) = range.split_once("..=")?;
    let Ok(first) = first.parse::<u64>() else {
        return None;
    };
    let Ok(last) = last.parse::<u64>() else {
        return None;
    };
    Some((first, last))
}

impl<'a> Reader<'a> {
    /// Creates a reader that has read nothing.
    fn new(alloc: Global) -> Reader<'a> {
        Reader {
            alloc,
            case: Case::new(alloc),
            repeat: None,
            lines: 0,
        }
    }

    /// Handles a `for`: the lines after it are to be repeated.
    fn begin(&mut self, range: &str) -> Result<(), Fault> {
        let Some((first, last)) = numbers_of(range) else {
            return Err(Fault::Form(self.lines));
        };
        if self.repeat.is_some() {
            return Err(Fault::Form(self.lines));
        }
        self.repeat = Some(Repeat {
            first,
            last,
            lines: Vec::new(self.alloc),
        });
        Ok(())
    }

    /// Handles a `next`: the lines since `for` are added once for each number.
    fn end(&mut self) -> Result<(), Fault> {
        let Some(repeat) = self.repeat.take() else {
            return Err(Fault::Form(self.lines));
        };
        'numbers: for number in repeat.first..=repeat.last {
            'lines: for line in repeat.lines.iter() {
                self.case.take(self.alloc, *line, Some(number))?;
            }
        }
        Ok(())
    }

    /// Handles a line.
    fn read(&mut self, text: &'a str) -> Result<(), Fault> {
        self.lines = self.lines.saturating_add(1);
        if let Some(range) = text.strip_prefix("for ") {
            return self.begin(range);
        }
        if text == "next" {
            return self.end();
        }
        let line = FileLine {
            number: self.lines,
            text,
        };
        match &mut self.repeat {
            Some(repeat) => Ok(repeat.lines.push(line)?),
            None => self.case.take(self.alloc, line, None),
        }
    }

    /// Handles all lines.
    fn read_all(&mut self, text: &'a str) -> Result<(), Fault> {
        'lines: for line in text.split('\n') {
            self.read(line)?;
        }
        if self.repeat.is_some() {
            return Err(Fault::Form(self.lines));
        }
        Ok(())
    }
}

/// Returns the case in the text of a file.
///
/// # Errors
///
/// - `Form` with the number of the line if a line is not of a case. Also if the file does not begin
///   with a comment, or does not end with a line feed.
/// - `Starved` if memory runs out.
pub fn read_case(alloc: Global, text: &str) -> Result<Case, Fault> {
    let Some(lines) = text.strip_suffix('\n') else {
        return Err(Fault::Form(1));
    };
    if !lines.starts_with('#') {
        return Err(Fault::Form(1));
    }
    let mut reader = Reader::new(alloc);
    reader.read_all(lines)?;
    Ok(reader.case)
}
