//! The octets of a directory, in the pieces in which they arrive.
ghost use Rattle.std.specs.Prelude.{None, length};

use rd_base::{Bytes, Got, Source};

/// A source of which each read gives one piece. It exposes nothing.
#[derive(Debug, Drop)]
pub(crate) struct Pieces<'a> {
    left: &'a [Bytes],
    faults: u64,
}

impl<'a> Pieces<'a> {
    /// Creates a source that gives these pieces.
    pub(crate) fn of(pieces: &'a [Bytes]) -> Pieces<'a> {
        Pieces {
            left: pieces,
            faults: 0,
        }
    }
}

impl<'a> Source for Pieces<'a> {
    ghost left = { λ _. None };

    ghost faults = { λ s. s.faults };

    ghost turns = { λ s. length s.left.now };

    /// Gives the next piece. Fails if `into` has no room for all of it.
    fn read(&mut self, into: &mut [u8]) -> Got {
        let Some((piece, others)) = self.left.split_first() else {
            return Got::Bytes(0);
        };
        self.left = others;
        let octets = piece.as_slice();
        if into.len() < octets.len() {
            self.faults = self.faults.saturating_add(1);
            return Got::Failed;
        }
        into[..octets.len()].copy_from_slice(octets);
        Got::Bytes(octets.len())
    }
}
