//! The walk over options, each judged by those before it.
ghost use Rattle.std.specs.Prelude.{◌≡◌, ◌<◌, ◌+◌, ◌^◌, length, MatchResult, MatchOption};
ghost use Rattle.query_text.specs.Walks.{start_of, Stepped};

use crate::occurrences::Occurred;
use crate::rules::{Named, judged, missing};
use crate::{Pieces, Reading, Why};

/// What is known of the options that were read.
#[derive(Clone, Copy)]
pub(crate) struct Walk {
    /// The kind of request that they are read for.
    pub kind: Reading,
    /// Which of them may not appear again.
    pub occurred: Occurred,
    /// The number of options that were read.
    pub index: usize,
}

impl Walk {
    /// Starts before the first option.
    pub fn start(kind: Reading) -> Walk
        ensures { result ≡ start_of kind }
    {
        Walk {
            kind,
            occurred: Occurred::nothing(),
            index: 0,
        }
    }

    /// Reads the next option, if one is left. An error is the first fault, with its index.
    pub fn step<'a, Q: Pieces<'a>>(
        &mut self,
        queries: &mut Q,
    ) -> Result<Option<Named<'a>>, (usize, Why)>
        requires { 0 < self.old.index → self.old.index + length (Q.left queries.old) < 2 ^ 63 }
        ensures room { 0 < self.new.index → self.new.index + length (Q.left queries.new) < 2 ^ 63 }
        ensures step { Stepped self.old (Q.left queries.old) self.new (Q.left queries.new) result }
    {
        let Some(option) = queries.next_piece() else {
            return match missing(self.kind, &self.occurred) {
                Some(why) => Err((self.index, why)),
                None => Ok(None),
            };
        };
        match judged(self.kind, &self.occurred, option) {
            Err(why) => Err((self.index, why)),
            Ok(named) => {
                self.occurred = self.occurred.with(named.name);
                self.index += 1;
                Ok(Some(named))
            }
        }
    }
}
