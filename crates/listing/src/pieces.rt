//! The pieces of lines: texts that appear as they are, and texts in quotes (RFC 6690 section 2).
ghost use Rattle.std.specs.Prelude.{◌≡◌, ◌==◌, ◌||◌};
ghost use Rattle.link_model.specs.Characters.{backslash, quote_mark};
ghost use Rattle.record_model.specs.ListingLines as listing_model;
ghost use Rattle.record_model.specs.Matching as model;
ghost use Rattle.listing.specs.Pieces.{octets_of_pieces, own_line};

use rd_base::{Pair, Record};

/// The number of pieces into which each part of a line is cut. Pieces that are not needed are
/// empty.
pub const PIECES: usize = 9;

/// A piece of a line.
#[derive(Clone, Copy)]
pub enum Piece<'a> {
    /// A text as it is.
    Plain(&'a [u8]),
    /// A text with a backslash before each quote and each backslash.
    Escaped(&'a [u8]),
}

/// Returns whether the octet needs a backslash before it in a quoted text.
pub fn is_escaped(octet: u8) -> bool
    ensures { result ≡ (octet == quote_mark || octet == backslash) }
{
    octet == b'"' || octet == b'\\'
}

/// Returns the pieces of an endpoint's line before its extra attributes.
pub fn endpoint_pieces<'a>(record_of: &'a Record, location: &'a [u8]) -> [Piece<'a>; PIECES]
    requires { location.now ≡ model.location record_of.now.number }
    ensures { octets_of_pieces result ≡ own_line record_of.now }
{
    let none = Piece::Plain(b"");
    let base = Piece::Escaped(record_of.base.as_bytes());
    let ep = Piece::Escaped(record_of.name.ep.as_bytes());
    if let Some(text) = &record_of.name.sector {
        let sector = Piece::Escaped(text.as_bytes());
        return [
            Piece::Plain(b"<"),
            Piece::Plain(location),
            Piece::Plain(b">;base=\""),
            base,
            Piece::Plain(b"\";ep=\""),
            ep,
            Piece::Plain(b"\";d=\""),
            sector,
            Piece::Plain(b"\";rt=\"core.rd-ep\""),
        ];
    }
    [
        Piece::Plain(b"<"),
        Piece::Plain(location),
        Piece::Plain(b">;base=\""),
        base,
        Piece::Plain(b"\";ep=\""),
        ep,
        Piece::Plain(b"\";rt=\"core.rd-ep\""),
        none,
        none,
    ]
}

/// Returns the pieces of an extra attribute of an endpoint. They have its name alone if its value
/// is empty.
#[rattlefmt::skip]
#[tactic(
    auto,
    using(crate::proofs::PieceLaws::extra_with_value, crate::proofs::PieceLaws::is_some_text)
)]
pub fn attribute_pieces<'a>(pair: &'a Pair) -> [Piece<'a>; PIECES]
    ensures { octets_of_pieces result ≡ listing_model.extra_attribute pair.now }
{
    let none = Piece::Plain(b"");
    let name = Piece::Plain(pair.name.as_bytes());
    if pair.value.is_empty() {
        return [
            Piece::Plain(b";"),
            name,
            none,
            none,
            none,
            none,
            none,
            none,
            none,
        ];
    }
    let value = Piece::Escaped(pair.value.as_bytes());
    [
        Piece::Plain(b";"),
        name,
        Piece::Plain(b"=\""),
        value,
        Piece::Plain(b"\""),
        none,
        none,
        none,
        none,
    ]
}
