//! Lines that are read octet by octet, so that two can be compared without allocating.
ghost use Rattle.std.specs.Prelude.{◌≡◌, ◌<◌, ◌++◌, [], false, flat_map, bytes_eq, IsTrue};
ghost use Rattle.record_model.specs.ListingLines as listing_model;
ghost use Rattle.listing.specs.Views.{Gives, PieceAt, left, pieces_left};
ghost use Rattle.listing.specs.Pieces.{octets_of_piece, octets_of_pieces};

use crate::pieces::{PIECES, Piece, attribute_pieces, is_escaped};
use rd_base::Pair;

/// The octets of a line that are left.
#[derive(Drop)]
pub struct Octets<'a> {
    /// The octets that come first.
    run: &'a [u8],
    /// The octets after them, each escaped if it has to be.
    escaped: &'a [u8],
    /// The pieces, of which those from `at` on come next.
    pieces: [Piece<'a>; PIECES],
    at: usize,
    /// The extra attributes after the pieces.
    extra: &'a [Pair],
}

/// Returns the octets of pieces, and of extra attributes after them.
pub fn octets_of<'a>(pieces: [Piece<'a>; PIECES], extra: &'a [Pair]) -> Octets<'a>
    ensures { left result ≡ octets_of_pieces pieces.entry
        ++ flat_map listing_model.extra_attribute extra.now }
{
    Octets {
        run: b"",
        escaped: b"",
        pieces,
        at: 0,
        extra,
    }
}

/// Returns the piece with this index, if there is one.
fn piece_at<'a>(pieces: [Piece<'a>; PIECES], at: usize) -> Option<Piece<'a>>
    ensures { PieceAt pieces.entry at result }
{
    if at < PIECES { Some(pieces[at]) } else { None }
}

impl<'a> Octets<'a> {
    /// Advances to the next piece. Returns whether there is one.
    fn refill(&mut self) -> bool
        requires run { self.old.run.now ≡ [] }
        requires escaped { self.old.escaped.now ≡ [] }
        ensures same { left self.new ≡ left self.old }
        ensures fewer { IsTrue result → pieces_left self.new < pieces_left self.old }
        ensures end { result ≡ false → left self.old ≡ [] }
    {
        if let Some(piece) = piece_at(self.pieces, self.at) {
            match piece {
                Piece::Plain(text) => self.run = text,
                Piece::Escaped(text) => self.escaped = text,
            }
            self.at += 1;
            return true;
        }
        if let Some((pair, rest)) = self.extra.split_first() {
            self.pieces = attribute_pieces(pair);
            self.at = 0;
            self.extra = rest;
            return true;
        }
        false
    }

    /// Returns the next octet, or `None` if none is left.
    fn next_octet(&mut self) -> Option<u8>
        ensures { Gives result (left self.old) (left self.new) }
    {
        'pieces: loop {
            if let Some((first, rest)) = self.run.split_first() {
                self.run = rest;
                return Some(*first);
            }
            if let Some((first, rest)) = self.escaped.split_first() {
                if is_escaped(*first) {
                    self.run = &self.escaped[..1];
                    self.escaped = rest;
                    return Some(b'\\');
                }
                self.escaped = rest;
                return Some(*first);
            }
            if !self.refill() {
                return None;
            }
        }
    }
}

/// Returns whether the same octets are left of both.
pub fn same_octets(old: &mut Octets<'_>, new: &mut Octets<'_>) -> bool
    ensures { result ≡ bytes_eq (left old.old) (left new.old) }
{
    'octets: loop {
        let first = old.next_octet();
        let second = new.next_octet();
        match first {
            None => return second.is_none(),
            Some(octet) => match second {
                None => return false,
                Some(other) => {
                    if octet != other {
                        return false;
                    }
                }
            },
        }
    }
}
