//! Requests as one argument, `PLACE?OPTION&OPTION..`. The text before the question mark says what
//! the options are for. Without a question mark there are no options; after a `?` at the end there
//! is one empty option.

use rd_base::{Bytes, Pieces};
use vector_words::{Line, NoAnswer};

/// Query options in a slice, from an index on.
#[derive(Clone, Copy)]
pub(crate) struct Listed<'a> {
    /// The slice.
    pub options: &'a [Bytes],
    /// The index.
    pub at: usize,
}

impl<'a> Pieces<'a> for Listed<'a> {
    ghost use Rattle.std.specs.Prelude.{drop};

    ghost left = { λ listed. drop listed.at listed.options.now };

    /// Returns the next option of the slice.
    fn next_piece(&mut self) -> Option<&'a [u8]> {
        if self.at >= self.options.len() {
            return None;
        }
        let option = self.options[self.at].as_slice();
        self.at += 1;
        Some(option)
    }
}

/// A request.
#[derive(Drop)]
pub(crate) struct Request<'a> {
    /// The text before the question mark.
    pub path: &'a str,
    /// The query options.
    pub options: Vec<Bytes>,
}

impl<'a> Request<'a> {
    /// Reads the request of an argument.
    pub fn of(line: &mut Line<'_>, word: &'a str) -> Request<'a> {
        let mut options = Vec::new(line.alloc);
        let Some((path, query)) = word.split_once('?') else {
            return Request {
                path: word,
                options,
            };
        };
        'options: for option in query.split('&') {
            if options.push(line.octets(option)).is_err() {
                line.note(NoAnswer::Starved);
            }
        }
        Request { path, options }
    }

    /// Returns the options, one after another.
    pub fn queries(&self) -> Listed<'_> {
        Listed {
            options: self.options.as_slice(),
            at: 0,
        }
    }
}
