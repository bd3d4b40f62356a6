//! A case: the arguments and the trace of a replay, and the expected lines.

use crate::braces::expand;
use crate::faults::Fault;
use std::alloc::Global;

/// A line of the file of a case.
#[derive(Clone, Copy, Debug)]
pub struct FileLine<'a> {
    /// Its number, from 1.
    pub number: u64,
    /// What it says.
    pub text: &'a str,
}

/// What a line of a case is.
#[derive(Clone, Copy, Debug, PartialEq, Eq)]
pub enum Kind {
    /// A line of the trace.
    Step,
    /// A line of the output, or the status.
    Output,
}

/// A line of a case. In a `for`, it exists once for each number.
#[derive(Drop)]
pub struct CaseLine {
    /// The number of the line in the file.
    pub number: u64,
    /// What it is.
    pub kind: Kind,
    /// What it says.
    pub text: String,
}

/// A case.
#[derive(Drop)]
pub struct Case {
    /// The arguments of the command line.
    pub words: Vec<String>,
    /// The trace.
    pub trace: String,
    /// The lines of the trace and of the output, in the order of the file.
    pub lines: Vec<CaseLine>,
    /// The number of lines of the trace.
    pub steps: u64,
    /// Whether a line of the output precedes a line of the trace. The case is then also run step by
    /// step.
    pub is_story: bool,
    /// Whether the trace ends without a line feed, so that no line may follow.
    is_cut: bool,
}

impl Case {
    /// Creates an empty case.
    pub fn new(alloc: Global) -> Case {
        Case {
            words: Vec::new(alloc),
            trace: String::new(alloc),
            lines: Vec::new(alloc),
            steps: 0,
            is_story: false,
            is_cut: false,
        }
    }

    /// Adds the arguments of the command line.
    fn take_words(&mut self, alloc: Global, line: FileLine<'_>, words: &str) -> Result<(), Fault> {
        if !self.words.is_empty() {
            return Err(Fault::Form(line.number));
        }
        'words: for word in words.split(' ') {
            self.words.push(String::from_str(alloc, word)?)?;
        }
        Ok(())
    }

    /// Adds a line of the trace. `is_cut` says that it has no line feed.
    fn take_step(&mut self, number: u64, text: String, is_cut: bool) -> Result<(), Fault> {
        if self.is_cut {
            return Err(Fault::Form(number));
        }
        self.is_cut = is_cut;
        self.trace.push_str(text.as_str())?;
        if !is_cut {
            self.trace.push('\n')?;
        }
        self.steps = self.steps.saturating_add(1);
        if self
            .lines
            .last()
            .is_some_and(|last| last.kind == Kind::Output)
        {
            self.is_story = true;
        }
        Ok(
            self.lines.push(CaseLine {
                number,
                kind: Kind::Step,
                text,
            })?,
        )
    }

    /// Adds a line of the output, or the status.
    fn take_output(&mut self, number: u64, text: String) -> Result<(), Fault> {
        Ok(
            self.lines.push(CaseLine {
                number,
                kind: Kind::Output,
                text,
            })?,
        )
    }

    /// Adds a line of the file. `repeated` is the number that it is repeated for, if it is.
    ///
    /// # Errors
    ///
    /// `Form` if the line has none of the forms; `Starved` if memory runs out.
    pub fn take(
        &mut self,
        alloc: Global,
        line: FileLine<'_>,
        repeated: Option<u64>,
    ) -> Result<(), Fault> {
        let number = line.number;
        if line.text.is_empty() || line.text.starts_with('#') {
            return Ok(());
        }
        let (word, rest) = line.text.split_once(' ').unwrap_or((line.text, ""));
        match word {
            "words" => self.take_words(alloc, line, rest),
            "<" => self.take_step(number, expand(alloc, number, rest, repeated)?, false),
            "<-" => self.take_step(number, expand(alloc, number, rest, repeated)?, true),
            ">" => self.take_output(number, expand(alloc, number, rest, repeated)?),
            "status" => self.take_output(number, String::from_str(alloc, line.text)?),
            _ => Err(Fault::Form(number)),
        }
    }
}
