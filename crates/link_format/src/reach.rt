//! A walk over octets that finds how far they begin a document, and whether they are one.
ghost use Rattle.std.specs.Prelude.{◌≡◌, ◌≤◌, ◌-◌, [], length, false, is_some, Some, IsTrue};
ghost use Rattle.link_model.specs.DocumentReading.{document, good_prefix};
ghost use Rattle.link_model.specs.DocumentReading as grammar;
ghost use Rattle.link_format.specs.Points.{point_in};
ghost use Rattle.link_format.specs.Ranges.{tails_after};
ghost use Rattle.link_format.specs.Staying.{StaysUpTo};

use crate::characters::{is_plain_in_quotes, is_target_character};
use crate::points::{Point, may_end, point_after};
use crate::ranges::{OctetRange, tails_after};

/// The result of a walk over octets.
#[derive(Clone, Copy, Debug, PartialEq, Eq)]
pub struct Reach {
    /// The length of the longest prefix that begins some document.
    pub good_prefix: usize,
    /// Whether the octets are a document.
    pub is_document: bool,
}

/// Returns true only if the octet leaves the walk at this point, provided that no octet of a UTF-8
/// character is due. Recognises most characters of targets, names and values, with few tests.
fn stays(point: Point, octet: u8) -> bool
    ensures point { IsTrue result
        → grammar.point_after (point_in point) octet ≡ Some (point_in point) }
    ensures tails { IsTrue result → tails_after [] octet ≡ Some [] }
{
    match point {
        Point::Target => is_target_character(octet),
        Point::WithinName => octet.is_ascii_alphanumeric(),
        Point::Token => octet.is_ascii_alphanumeric(),
        Point::Quotes => is_plain_in_quotes(octet),
        _ => false,
    }
}

/// Skips the octets at the beginning that leave the walk at this point, and returns the rest. No
/// octet of a UTF-8 character may be due.
fn after_staying(point: Point, octets: &[u8]) -> &[u8]
    ensures { StaysUpTo (point_in point) octets.now result.now }
{
    let mut rest = octets;
    'staying: while let Some((octet, more)) = rest.split_first() {
        if !stays(point, *octet) {
            return rest;
        }
        rest = more;
    }
    rest
}

/// Returns whether no octet of a UTF-8 character is due and this octet is ASCII, as nearly all
/// octets are.
fn is_ascii_where_none_due(tails: &[OctetRange], octet: u8) -> bool
    ensures none { IsTrue result → tails.now ≡ [] }
    ensures tails { IsTrue result → tails_after tails.now octet ≡ Some tails.now }
{
    tails.is_empty() && octet.is_ascii()
}

/// Walks over the octets once, up to the first that no document has at that position.
pub fn walk(body: &[u8]) -> Reach
    ensures good_prefix { result.good_prefix ≡ good_prefix body.now }
    ensures document { result.is_document ≡ is_some (document body.now) }
{
    let mut point = Point::Beginning;
    let mut tails: &'static [OctetRange] = &[];
    let mut rest = body;
    'octets: while let Some((octet, more)) = rest.split_first() {
        let Some(next_point) = point_after(point, *octet) else {
            return stopped(body, rest);
        };
        if is_ascii_where_none_due(tails, *octet) {
            point = next_point;
            rest = after_staying(next_point, more);
            continue;
        }
        let Some(next_tails) = tails_after(tails, *octet) else {
            return stopped(body, rest);
        };
        point = next_point;
        tails = next_tails;
        rest = more;
    }
    Reach {
        good_prefix: body.len(),
        is_document: tails.is_empty() && may_end(point),
    }
}

/// Returns the result of a walk that stops before the rest of a body.
fn stopped(body: &[u8], rest: &[u8]) -> Reach
    requires { length rest.now ≤ length body.now }
    ensures { result
        ≡ record { good_prefix = length body.now - length rest.now; is_document = false } }
{
    Reach {
        good_prefix: body.len() - rest.len(),
        is_document: false,
    }
}
