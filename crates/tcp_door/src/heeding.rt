//! The ends of messages within the pieces of a stream.
ghost use Rattle.std.specs.Prelude.{◌≡◌, ◌<◌, ℕ, length};
ghost use Rattle.stream_reader.specs.Reading.{held_as};
ghost use Rattle.tcp_door.specs.Waiting.{HasEnds, IsAnyOf, is_whole};

use stream_reader::{Fed, StreamReader};

/// Where messages end in a piece of a stream.
#[derive(Clone, Copy)]
pub(crate) struct Heeded {
    /// Whether a message ends in the piece.
    pub(crate) any: bool,
    /// Whether the piece ends with a message.
    pub(crate) between: bool,
}

/// Feeds a piece to the reader, and returns where messages end in it.
pub(crate) fn heed(reader: &mut StreamReader, piece: &[u8]) -> Heeded
    requires some { 0 < length piece.now }
    ensures ends { (n : ℕ) × HasEnds n reader.old piece.now reader.new
        × IsAnyOf result.any n }
    ensures between { result.between ≡ is_whole (held_as reader.new) }
{
    let mut rest = piece;
    let mut any = false;
    'messages: while !rest.is_empty() {
        match reader.feed(rest) {
            Fed::More => {
                return Heeded {
                    any,
                    between: false,
                };
            }
            Fed::Bad(_, _) => {
                return Heeded {
                    any,
                    between: false,
                };
            }
            Fed::Whole(count) => {
                any = true;
                rest = &rest[count..];
            }
        }
    }
    Heeded { any, between: true }
}
