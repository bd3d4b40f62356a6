//! How long a peer may send no message.
ghost use Rattle.std.specs.Prelude.{◌≡◌, ◌<◌, ◌≤◌, ◌+◌, ◌^◌, ◌-◌, ◌↔◌, false, length, min, IsTrue};
ghost use Rattle.stream_reader.specs.Reading.{at_beginning, held_as};
ghost use Rattle.tcp_door.specs.Waiting.{IsHeeded, farewell_by, is_whole, limit_of};

use crate::heeding::heed;
use std::marker::Model;
use stream_model::signals::{ABORT, RELEASE};
use stream_reader::StreamReader;

/// The microseconds that the first message may take.
const FIRST_LIMIT: u64 = 10_000_000;

/// The microseconds that each later message may take.
const LATER_LIMIT: u64 = 60_000_000;

/// The messages of a connection so far, and how long none has ended.
#[derive(Drop)]
pub(crate) struct Patience {
    reader: StreamReader,
    /// Whether a message has ended.
    greeted: bool,
    /// Whether nothing has arrived since the end of a message.
    between: bool,
    /// The microseconds since the last message, or since the beginning.
    waited: u64,
    ghost between_is: { between ≡ is_whole (held_as reader) },
}

impl Model for Patience {
    ghost use Rattle.tcp_door.specs.Waiting.{Waited};

    ghost Value = { Waited };

    ghost view = { λ p. record { held = p.reader; greeted = p.greeted; waited = p.waited } };
}

impl Patience {
    /// Creates the patience at the beginning of a connection.
    #[tactic(auto, unfolding(stream_model::specs::Judging::judge))]
    pub(crate) fn new() -> Patience
        ensures { result ≡ record { held = at_beginning; greeted = false; waited = 0 } }
    {
        Patience {
            reader: StreamReader::new(),
            greeted: false,
            between: false,
            waited: 0,
        }
    }

    /// Counts microseconds in which no message ended. The count stops at 2^64 - 1.
    pub(crate) fn pass(&mut self, micros: u64)
        ensures held { self.new.held ≡ self.old.held }
        ensures greeted { self.new.greeted ≡ self.old.greeted }
        ensures waited { self.new.waited ≡ min (self.old.waited + micros) (2 ^ 64 - 1) }
    {
        self.waited = self.waited.saturating_add(micros);
    }

    /// Handles a piece of the stream. Returns whether a message ends in it; then the wait begins
    /// anew.
    pub(crate) fn heed(&mut self, piece: &[u8]) -> bool
        requires { 0 < length piece.now }
        ensures { IsHeeded self.old piece.now self.new result }
    {
        let heeded = heed(&mut self.reader, piece);
        self.between = heeded.between;
        if heeded.any {
            self.greeted = true;
            self.waited = 0;
        }
        heeded.any
    }

    /// Returns whether the time that a message may take has passed: 10 s for the first, 60 s for
    /// each later one.
    pub(crate) fn is_over(&self) -> bool
        ensures { IsTrue result ↔ (limit_of self.now.greeted ≤ self.now.waited) }
    {
        if self.greeted {
            return self.waited >= LATER_LIMIT;
        }
        self.waited >= FIRST_LIMIT
    }

    /// Returns the code of the message that says that the time has passed: a Release between two
    /// messages, and otherwise an Abort (RFC 8323 sections 5.5 and 5.6).
    pub(crate) fn farewell(&self) -> u8
        ensures { result ≡ farewell_by (held_as self.now.held) }
    {
        if self.between {
            return RELEASE;
        }
        ABORT
    }
}
