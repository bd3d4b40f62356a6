//! Octets that come in pieces.
ghost use Rattle.std.specs.Prelude.{◌-◌, None, length};

use rd_base::{Got, Source};

/// How octets are cut.
#[derive(Clone, Copy, Debug, PartialEq, Eq)]
pub(crate) struct Cutting {
    /// The length of the first piece, if there are as many octets.
    pub first: usize,
    /// The length of each further piece, at least one.
    pub next: usize,
}

/// A source that gives octets piece by piece. It exposes nothing.
#[derive(Debug, Drop)]
pub(crate) struct Pieces<'a> {
    octets: &'a [u8],
    at: usize,
    cutting: Cutting,
}

impl<'a> Pieces<'a> {
    /// Creates a source that gives these octets, cut like this.
    pub(crate) fn of(octets: &'a [u8], cutting: Cutting) -> Pieces<'a> {
        Pieces {
            octets,
            at: 0,
            cutting,
        }
    }

    /// Returns the length of the next piece.
    fn size(&self) -> usize {
        if self.at < self.cutting.first {
            return self.cutting.first - self.at;
        }
        self.cutting.next
    }
}

impl<'a> Source for Pieces<'a> {
    ghost left = { λ _. None };

    ghost faults = { λ _. 0 };

    ghost turns = { λ s. length s.octets.now - s.at };

    fn read(&mut self, into: &mut [u8]) -> Got {
        let Some(left) = self.octets.get(self.at..) else {
            return Got::Bytes(0);
        };
        let n = self.size().min(left.len()).min(into.len());
        into[..n].copy_from_slice(&left[..n]);
        self.at += n;
        Got::Bytes(n)
    }
}
