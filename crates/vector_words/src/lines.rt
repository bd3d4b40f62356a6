//! Lines: their arguments as they are read, and their answers as they are written.
ghost use Rattle.std.specs.Prelude.{◌≤◌};

use crate::{NoAnswer, cut, datagram_of, number_of, octets_of, put_datagram, put_octets, text_of};
use rd_base::{Bytes, Starved};
use std::alloc::Global;

/// The arguments of a call that are not read yet, and its answer so far.
///
/// Each read and each write succeeds. An argument that does not have its form is read as no octets,
/// no text or 0, and the first fault stands in place of the answer.
#[derive(Drop)]
pub struct Line<'a> {
    /// The allocator of the answer.
    pub alloc: Global,
    /// The arguments that are not read yet.
    pub said: &'a str,
    /// The answer so far.
    pub page: String,
    /// The first fault.
    fault: Option<NoAnswer>,
}

impl<'a> Line<'a> {
    /// Creates a line with these arguments and an empty answer.
    pub fn new(alloc: Global, said: &'a str) -> Line<'a> {
        Line {
            alloc,
            said,
            page: String::new(alloc),
            fault: None,
        }
    }

    /// Notes a fault, if it is the first one.
    pub fn note(&mut self, fault: NoAnswer) {
        if self.fault.is_none() {
            self.fault = Some(fault);
        }
    }

    /// Notes that the arguments do not have the form of the call.
    pub fn refuse(&mut self) {
        self.note(NoAnswer::Form);
    }

    /// Notes a failed step.
    pub fn done(&mut self, done: Result<(), Starved>) {
        if done.is_err() {
            self.note(NoAnswer::Starved);
        }
    }

    /// Reads the text before the next space.
    pub fn word(&mut self) -> &'a str {
        let (word, rest) = cut(self.said);
        self.said = rest;
        word
    }

    /// Reads the number that a text expresses, which is at most `most`.
    pub fn number_in(&mut self, word: &str, most: u64) -> u64
        ensures { result ≤ most }
    {
        match number_of(word, most) {
            Ok(number) => number,
            Err(fault) => {
                self.note(fault);
                0
            }
        }
    }

    /// Reads a number of at most `most` before the next space.
    pub fn number(&mut self, most: u64) -> u64
        ensures { result ≤ most }
    {
        let word = self.word();
        self.number_in(word, most)
    }

    /// Reads the octets that a text stands for.
    pub fn octets(&mut self, said: &str) -> Bytes {
        match octets_of(self.alloc, said) {
            Ok(octets) => octets,
            Err(_) => {
                self.note(NoAnswer::Starved);
                Bytes::new(self.alloc)
            }
        }
    }

    /// Reads the text that a text stands for.
    pub fn text(&mut self, said: &str) -> String {
        match text_of(self.alloc, said) {
            Ok(text) => text,
            Err(fault) => {
                self.note(fault);
                String::new(self.alloc)
            }
        }
    }

    /// Reads the octets of hexadecimal digits.
    pub fn datagram(&mut self, said: &str) -> Bytes {
        match datagram_of(self.alloc, said) {
            Ok(octets) => octets,
            Err(fault) => {
                self.note(fault);
                Bytes::new(self.alloc)
            }
        }
    }

    /// Writes a text.
    pub fn put(&mut self, text: &str) {
        if self.page.push_str(text).is_err() {
            self.note(NoAnswer::Starved);
        }
    }

    /// Writes a number.
    pub fn put_number(&mut self, number: u64) {
        if write!(self.page, "{number}").is_err() {
            self.note(NoAnswer::Starved);
        }
    }

    /// Writes octets as [`put_octets`] does.
    pub fn put_octets(&mut self, octets: &[u8]) {
        let done = put_octets(&mut self.page, octets);
        self.done(done);
    }

    /// Writes octets in hexadecimal.
    pub fn put_datagram(&mut self, octets: &[u8]) {
        let done = put_datagram(&mut self.page, octets);
        self.done(done);
    }

    /// Returns the answer.
    ///
    /// # Errors
    ///
    /// The first fault.
    pub fn answer(self) -> Result<String, NoAnswer> {
        let Line { page, fault, .. } = self;
        match fault {
            None => Ok(page),
            Some(fault) => Err(fault),
        }
    }
}
