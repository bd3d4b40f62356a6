//! A line of the input: what is done with which file.

use crate::faults::Fault;
use std::alloc::Global;

/// What is done with a file.
#[derive(Clone, Copy, Debug, PartialEq, Eq)]
pub(crate) enum Verb {
    /// The whole file is read.
    Read,
    /// Each prefix of it is read.
    Fronts,
    /// Its trace is replayed.
    Replay,
}

/// A case.
#[derive(Drop)]
pub(crate) struct Case {
    /// What is done.
    pub verb: Verb,
    /// The name of the file.
    pub file: String,
    /// The arguments of the command line.
    pub words: Vec<String>,
}

impl Case {
    /// Returns the case of a line with this number, or `Form` if it begins with no verb or names no
    /// file.
    pub(crate) fn read(alloc: Global, number: u64, line: &str) -> Result<Case, Fault> {
        let mut words = line.split(' ');
        let verb = match words.next() {
            Some("read") => Verb::Read,
            Some("fronts") => Verb::Fronts,
            Some("replay") => Verb::Replay,
            _ => return Err(Fault::Form(number)),
        };
        let Some(file) = words.next() else {
            return Err(Fault::Form(number));
        };
        let mut case = Case {
            verb,
            file: String::from_str(alloc, file)?,
            words: Vec::new(alloc),
        };
        'words: for word in words {
            case.words.push(String::from_str(alloc, word)?)?;
        }
        Ok(case)
    }
}
