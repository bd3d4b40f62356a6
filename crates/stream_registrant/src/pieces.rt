//! The octets that were read and not yet used.
ghost use Rattle.std.specs.Prelude.{◌≡◌, ◌≤◌, length, drop, []};
ghost use Rattle.rd_base.specs.Outside.{CountsRead, RunsDown};
ghost use Rattle.stream_registrant.specs.Pieces.{Fills};

use rd_base::{Got, Source};
use std::marker::Model;
use stream_model::MAX_STREAM_MESSAGE;

/// The octets that were read and not yet used. Contracts see their list.
#[derive(Drop)]
pub(crate) struct Piece {
    octets: [u8; MAX_STREAM_MESSAGE],
    /// The index of the first octet that is not used.
    from: usize,
    /// The index after the last octet that was read.
    to: usize,
}

impl Model for Piece {
    ghost use Rattle.std.specs.Prelude.{ℕ, ◌-◌, ◌≤◌, List, take, drop};

    ghost Value = { List ℕ };

    ghost view = { λ p. take (p.to - p.from) (drop p.from p.octets) };

    ghost invariant = { λ p. (p.from ≤ p.to) × (p.to ≤ 1152) };
}

impl Piece {
    /// Creates a piece without octets.
    pub(crate) fn new() -> Piece
        ensures { result ≡ [] }
    {
        Piece {
            octets: [0; MAX_STREAM_MESSAGE],
            from: 0,
            to: 0,
        }
    }

    /// Returns the octets.
    pub(crate) fn octets(&self) -> &[u8]
        ensures { result.now ≡ self.now }
    {
        &self.octets[self.from..self.to]
    }

    /// Uses the first octets, as many as these.
    pub(crate) fn spend(&mut self, count: usize)
        requires { count ≤ length self.old }
        ensures { self.new ≡ drop count self.old }
    {
        self.from += count;
    }

    /// Uses all octets, and reads others.
    pub(crate) fn fill<S: Source>(&mut self, source: &mut S) -> Got
        ensures bytes { Fills (S.left source.old) (S.left source.new) result self.new }
        ensures few { length self.new ≤ 1152 }
        ensures turns { RunsDown (S.turns source.old) (S.turns source.new) result }
        ensures cause { CountsRead (S.faults source.old) (S.faults source.new) result }
    {
        self.from = 0;
        self.to = 0;
        let got = source.read(&mut self.octets);
        if let Got::Bytes(count) = got {
            self.to = count;
        }
        got
    }
}
