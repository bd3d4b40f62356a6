//! Lines that are appended to a listing.
ghost use Rattle.std.specs.Prelude.{◌≡◌, ◌==◌, ◌||◌, ◌++◌, ◌∷◌, [], flat_map, map, OnOk, OnErr};
ghost use Rattle.std.specs.List.{list_any};
ghost use Rattle.record_model.specs.ListingLines as listing_model;
ghost use Rattle.link_model.specs.Characters.{backslash, quote_mark};
ghost use Rattle.link_model.specs.Quoting.{escaped_character};
ghost use Rattle.listing.specs.AppendedLines.{appended, separated};
ghost use Rattle.listing.specs.Pieces.{own_line, octets_of_piece, octets_of_pieces};

use crate::locations::location_of;
use crate::pieces::{Piece, attribute_pieces, endpoint_pieces, is_escaped};
use rd_base::{Bytes, Items, Link, Pair, Record, Starved};

/// Appends an octet of a quoted text.
fn append_octet(octet: u8, into: &mut Bytes) -> Result<(), Starved>
    ensures ok { OnOk result (into.new ≡ into.old ++ escaped_character octet) }
    ensures starved { OnErr result (into.new ≡ into.old) }
{
    if is_escaped(octet) {
        return into.append(&[b'\\', octet]);
    }
    into.push(octet)
}

/// Appends the octets of a quoted text one by one.
fn append_octets(text: &[u8], into: &mut Bytes) -> Result<(), Starved>
    ensures ok { OnOk result (into.new ≡ into.old ++ flat_map escaped_character text.now) }
    ensures starved { OnErr result (into.new ≡ into.old) }
{
    let before = into.len();
    'octets: for octet in text {
        if append_octet(*octet, into).is_err() {
            into.truncate(before);
            return Err(Starved);
        }
    }
    Ok(())
}

/// Returns whether the text has a quote or a backslash.
fn has_escaped(text: &[u8]) -> bool
    ensures { result ≡ list_any (λ c. c == quote_mark || c == backslash) text.now }
{
    text.iter().any(|octet| is_escaped(*octet))
}

/// Appends a text as it is.
fn append_plain(text: &[u8], into: &mut Bytes) -> Result<(), Starved>
    ensures ok { OnOk result (into.new ≡ into.old ++ text.now) }
    ensures starved { OnErr result (into.new ≡ into.old) }
{
    match text {
        [] => Ok(()),
        [octet] => into.push(*octet),
        _ => into.append(text),
    }
}

/// Appends a text, with a backslash before each quote and each backslash.
fn append_escaped(text: &[u8], into: &mut Bytes) -> Result<(), Starved>
    ensures ok { OnOk result (into.new ≡ into.old ++ flat_map escaped_character text.now) }
    ensures starved { OnErr result (into.new ≡ into.old) }
{
    if has_escaped(text) {
        return append_octets(text, into);
    }
    append_plain(text, into)
}

/// Appends a piece.
fn append_piece(piece: &Piece<'_>, into: &mut Bytes) -> Result<(), Starved>
    ensures ok { OnOk result (into.new ≡ into.old ++ octets_of_piece piece.now) }
    ensures starved { OnErr result (into.new ≡ into.old) }
{
    match piece {
        Piece::Plain(text) => append_plain(text, into),
        Piece::Escaped(text) => append_escaped(text, into),
    }
}

/// Appends pieces.
fn append_pieces(pieces: &[Piece<'_>], into: &mut Bytes) -> Result<(), Starved>
    ensures ok { OnOk result (into.new ≡ into.old ++ octets_of_pieces pieces.now) }
    ensures starved { OnErr result (into.new ≡ into.old) }
{
    let before = into.len();
    'pieces: for piece in pieces {
        if append_piece(piece, into).is_err() {
            into.truncate(before);
            return Err(Starved);
        }
    }
    Ok(())
}

/// Appends a comma, unless `into` is empty.
fn append_comma(into: &mut Bytes) -> Result<(), Starved>
    ensures ok { OnOk result (into.new ≡ separated into.old) }
    ensures starved { OnErr result (into.new ≡ into.old) }
{
    if into.is_empty() {
        return Ok(());
    }
    into.push(b',')
}

/// Appends a text, after a comma unless `into` is empty. On an error, `into` does not change.
fn append_separated(text: &str, into: &mut Bytes) -> Result<(), Starved>
    ensures ok { OnOk result (into.new ≡ separated into.old ++ text.now) }
    ensures starved { OnErr result (into.new ≡ into.old) }
{
    let before = into.len();
    append_comma(into)?;
    if into.append(text.as_bytes()).is_err() {
        into.truncate(before);
        return Err(Starved);
    }
    Ok(())
}

/// Appends the line of a link (RFC 6690 section 2).
///
/// # Errors
///
/// `Starved` if memory runs out; `into` does not change.
pub fn append_link(link: &Link<'_>, into: &mut Bytes) -> Result<(), Starved>
    ensures ok { OnOk result (into.new ≡ separated into.old ++ listing_model.link_line link.now) }
    ensures starved { OnErr result (into.new ≡ into.old) }
{
    append_separated(link.line(), into)
}

/// Appends the lines of all links of a registration, which are stored as one text.
///
/// # Errors
///
/// `Starved` if memory runs out; `into` does not change.
pub fn append_all_links(items: &Items, into: &mut Bytes) -> Result<(), Starved>
    ensures ok { OnOk result (into.new
        ≡ appended into.old (map listing_model.link_line items.now)) }
    ensures starved { OnErr result (into.new ≡ into.old) }
{
    if items.is_empty() {
        return Ok(());
    }
    append_separated(items.listed(), into)
}

/// Appends the extra attributes of an endpoint.
fn append_attributes(pairs: &[Pair], into: &mut Bytes) -> Result<(), Starved>
    ensures ok { OnOk result (into.new
        ≡ into.old ++ flat_map listing_model.extra_attribute pairs.now) }
    ensures starved { OnErr result (into.new ≡ into.old) }
{
    let before = into.len();
    'pairs: for pair in pairs {
        if append_pieces(&attribute_pieces(pair), into).is_err() {
            into.truncate(before);
            return Err(Starved);
        }
    }
    Ok(())
}

/// Appends the part of an endpoint's line before its extra attributes.
fn append_own(record_of: &Record, into: &mut Bytes) -> Result<(), Starved>
    ensures ok { OnOk result (into.new ≡ into.old ++ own_line record_of.now) }
    ensures starved { OnErr result (into.new ≡ into.old) }
{
    let location = location_of(record_of.number);
    append_pieces(
        &endpoint_pieces(record_of, location.as_str().as_bytes()),
        into,
    )
}

/// Appends the line of an endpoint (RFC 9176 section 6.4).
///
/// # Errors
///
/// `Starved` if memory runs out; `into` does not change.
#[tactic(auto, using(crate::proofs::PieceLaws::endpoint_whole))]
pub fn append_endpoint(record_of: &Record, into: &mut Bytes) -> Result<(), Starved>
    ensures ok { OnOk result (into.new
        ≡ separated into.old ++ listing_model.endpoint_line record_of.now) }
    ensures starved { OnErr result (into.new ≡ into.old) }
{
    let before = into.len();
    append_comma(into)?;
    if append_own(record_of, into).is_err() {
        into.truncate(before);
        return Err(Starved);
    }
    if append_attributes(record_of.attrs.as_slice(), into).is_err() {
        into.truncate(before);
        return Err(Starved);
    }
    Ok(())
}
