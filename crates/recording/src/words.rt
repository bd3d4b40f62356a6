//! The arguments of the command line.
ghost use Rattle.std.specs.Prelude.{◌≤◌, ◌<◌, length, IfSome};
ghost use Rattle.line_model.specs.Numbers.{max_first};

use line_model::limits::MAX_FIRST;
use trace_text::number_read;

/// The port of CoAP (RFC 7252 section 6.1).
const COAP_PORT: u16 = 5683;

/// The greatest port.
const MAX_PORT: u64 = 65_535;

/// What is written.
#[derive(Clone, Copy, Debug, PartialEq, Eq)]
pub(crate) enum Output {
    /// The trace of the datagrams that the server of a capture received.
    Trace,
    /// The lines of the output for what the server of a capture sent.
    Replies,
    /// A trace and its output, as a capture.
    Pcap,
}

/// A number above which a run may begin.
#[derive(Clone, Copy, Debug)]
pub(crate) struct First {
    /// The number.
    pub number: u64,
    ghost within: { number ≤ max_first },
}

/// What the arguments ask for.
#[derive(Clone, Copy, Debug)]
pub(crate) struct Words {
    /// The port of the server.
    pub port: u16,
    /// What is written.
    pub output: Output,
    /// The number above which the run of a trace begins, if it is given.
    pub first: Option<First>,
    /// Whether each datagram is given to the worker that answered it.
    pub has_workers: bool,
}

/// What was asked for so far.
#[derive(Clone, Copy, Debug)]
struct Said {
    /// The port, if it is given.
    port: Option<u16>,
    /// What is written, if it is given.
    output: Option<Output>,
    /// The number above which the run begins, if it is given.
    first: Option<First>,
    /// Whether several workers were asked for.
    has_workers: bool,
}

/// An option with a value: the port.
const PORT: &str = "--port";

/// An option with a value: the number above which the run begins.
const BEGIN: &str = "--begin";

/// Returns the port that a text names in decimal, without a leading zero: 1 to 65,535.
fn port_of(text: &str) -> Option<u16> {
    let port = number_read(MAX_PORT, text.as_bytes())?;
    if port == 0 {
        return None;
    }
    Some(port as u16)
}

/// Returns the number above which a run may begin that a text names in decimal, without a leading
/// zero.
fn first_of(text: &str) -> Option<First> {
    let number = number_read(MAX_FIRST, text.as_bytes())?;
    Some(First { number })
}

impl Said {
    /// Returns that nothing was asked for.
    fn nothing() -> Said {
        Said {
            port: None,
            output: None,
            first: None,
            has_workers: false,
        }
    }

    /// Adds a port. Returns `None` if one was given before, or the text is not a port.
    fn with_port(mut self, text: &str) -> Option<Said> {
        if self.port.is_some() {
            return None;
        }
        self.port = Some(port_of(text)?);
        Some(self)
    }

    /// Adds the number above which the run begins. Returns `None` if one was given before, or the
    /// text is not such a number.
    fn with_first(mut self, text: &str) -> Option<Said> {
        if self.first.is_some() {
            return None;
        }
        self.first = Some(first_of(text)?);
        Some(self)
    }

    /// Adds what is written. Returns `None` if it was given before.
    fn with_output(mut self, output: Output) -> Option<Said> {
        if self.output.is_some() {
            return None;
        }
        self.output = Some(output);
        Some(self)
    }

    /// Adds several workers. Returns `None` if they were asked for before.
    fn with_workers(mut self) -> Option<Said> {
        if self.has_workers {
            return None;
        }
        self.has_workers = true;
        Some(self)
    }

    /// Adds an option that takes a value, with its value.
    fn with_value(self, word: &str, value: &str) -> Option<Said> {
        if word == PORT {
            return self.with_port(value);
        }
        self.with_first(value)
    }

    /// Adds an option and its value, joined by `=`.
    fn with_joined(self, text: &str) -> Option<Said> {
        let (word, value) = text.split_once('=')?;
        if !takes_value(word) {
            return None;
        }
        self.with_value(word, value)
    }

    /// Adds an argument that is complete by itself.
    fn with_word(self, word: &str) -> Option<Said> {
        match word {
            "--replies" => self.with_output(Output::Replies),
            "--pcap" => self.with_output(Output::Pcap),
            "--workers" => self.with_workers(),
            _ => self.with_joined(word),
        }
    }

    /// Returns what was asked for, or `None` if a capture is to be written and more than its port
    /// is given.
    fn words(self) -> Option<Words> {
        let output = self.output.unwrap_or(Output::Trace);
        if output == Output::Pcap && (self.first.is_some() || self.has_workers) {
            return None;
        }
        Some(Words {
            port: self.port.unwrap_or(COAP_PORT),
            output,
            first: self.first,
            has_workers: self.has_workers,
        })
    }
}

/// Returns whether an option takes a value.
fn takes_value(word: &str) -> bool {
    word == PORT || word == BEGIN
}

/// Returns what the arguments ask for, or `None` if they are not those of the program.
///
/// They are `--port` with a port from 1 to 65,535, and `--begin` with a number of at most 2^48 - 1.
/// Each of these is two arguments, or joined by `=`. The others are `--workers`, and `--replies` or
/// `--pcap`. Each is given at most once, in any order. With `--pcap` only the port can be given.
pub(crate) fn words_read(words: &[String]) -> Option<Words> {
    let mut said = Said::nothing();
    let mut left = words;
    'words: while let Some((word, rest)) = left.split_first() {
        left = rest;
        if takes_value(word.as_str()) {
            let (value, behind) = rest.split_first()?;
            said = said.with_value(word.as_str(), value.as_str())?;
            left = behind;
        } else {
            said = said.with_word(word.as_str())?;
        }
    }
    said.words()
}
