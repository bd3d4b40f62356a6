//! The points of the grammar of links, and the octets allowed at each (RFC 6690 section 2).
ghost use Rattle.std.specs.Prelude.{◌≡◌, option_map, is_some};
ghost use Rattle.link_model.specs.DocumentReading as grammar;
ghost use Rattle.link_format.specs.Points.{point_in};

use crate::characters::{
    is_name_character, is_not_control, is_target_character, is_token_character,
};

/// A point of the grammar. The comment of each variant says what may come there.
#[derive(Clone, Copy, Debug, PartialEq, Eq)]
pub enum Point {
    /// The end of the document, or a link.
    Beginning,
    /// A link.
    Link,
    /// A character of a target, or its end.
    Target,
    /// A parameter, a further link, or the end.
    AfterPart,
    /// The first character of a name.
    Name,
    /// A further character of a name, an asterisk, or what may follow a name.
    WithinName,
    /// An equals sign, or what may follow a parameter.
    AfterName,
    /// The first character of a value.
    Value,
    /// A further character of a token, or what may follow a parameter.
    Token,
    /// A character of a quoted string, a backslash, or the closing quote.
    Quotes,
    /// The character that a backslash escapes.
    AfterBackslash,
}

use Point::*;

/// Returns the point if it is allowed.
fn point_if(allowed: bool, point: Point) -> Option<Point>
    ensures { option_map point_in result ≡ grammar.point_if allowed (point_in point) }
{
    if allowed { Some(point) } else { None }
}

/// Returns the point after an octet that follows the target of a link or a whole parameter. Returns
/// `None` if the octet is not allowed there.
fn point_after_part(octet: u8) -> Option<Point>
    ensures { option_map point_in result ≡ grammar.point_after_part octet }
{
    if octet == b';' {
        return Some(Name);
    }
    point_if(octet == b',', Link)
}

/// Returns the point after an octet that follows the name of a parameter, or `None` if the octet is
/// not allowed there.
fn point_after_name(octet: u8) -> Option<Point>
    ensures { option_map point_in result ≡ grammar.point_after_name octet }
{
    if octet == b'=' {
        return Some(Value);
    }
    point_after_part(octet)
}

/// Returns the point after an octet of a target, or `None` if the octet is not allowed there.
#[tactic(auto, unfolding(link_model::specs::DocumentReading::point_after))]
fn point_in_target(octet: u8) -> Option<Point>
    ensures { option_map point_in result ≡ grammar.point_after grammar.at_target octet }
{
    if octet == b'>' {
        return Some(AfterPart);
    }
    point_if(is_target_character(octet), Target)
}

/// Returns the point after a further octet of a name, or `None` if the octet is not allowed there.
#[tactic(auto, unfolding(link_model::specs::DocumentReading::point_after))]
fn point_within_name(octet: u8) -> Option<Point>
    ensures { option_map point_in result ≡ grammar.point_after grammar.within_name octet }
{
    if octet == b'=' {
        return Some(Value);
    }
    if is_name_character(octet) {
        return Some(WithinName);
    }
    if octet == b'*' {
        return Some(AfterName);
    }
    point_after_name(octet)
}

/// Returns the point after the first octet of a value, or `None` if the octet is not allowed there.
#[tactic(auto, unfolding(link_model::specs::DocumentReading::point_after))]
fn point_at_value(octet: u8) -> Option<Point>
    ensures { option_map point_in result ≡ grammar.point_after grammar.at_value octet }
{
    if octet == b'"' {
        return Some(Quotes);
    }
    point_if(is_token_character(octet), Token)
}

/// Returns the point after a further octet of a token, or `None` if the octet is not allowed there.
/// Tests for a semicolon first, which ends most tokens.
#[tactic(auto, unfolding(link_model::specs::DocumentReading::point_after))]
fn point_in_token(octet: u8) -> Option<Point>
    ensures { option_map point_in result ≡ grammar.point_after grammar.in_token octet }
{
    if octet == b';' {
        return Some(Name);
    }
    if is_token_character(octet) {
        return Some(Token);
    }
    point_after_part(octet)
}

/// Returns the point after an octet of a quoted string, or `None` if the octet is not allowed
/// there.
#[tactic(auto, unfolding(link_model::specs::DocumentReading::point_after))]
fn point_in_quotes(octet: u8) -> Option<Point>
    ensures { option_map point_in result ≡ grammar.point_after grammar.in_quotes octet }
{
    if octet == b'"' {
        return Some(AfterPart);
    }
    if octet == b'\\' {
        return Some(AfterBackslash);
    }
    point_if(is_not_control(octet), Quotes)
}

/// Returns the point after an octet at this point, or `None` if the octet is not allowed there.
#[tactic(auto, unfolding(link_model::specs::DocumentReading::point_after))]
pub fn point_after(point: Point, octet: u8) -> Option<Point>
    ensures { option_map point_in result ≡ grammar.point_after (point_in point) octet }
{
    match point {
        Beginning | Link => point_if(octet == b'<', Target),
        Target => point_in_target(octet),
        AfterPart => point_after_part(octet),
        Name => point_if(is_name_character(octet), WithinName),
        WithinName => point_within_name(octet),
        AfterName => point_after_name(octet),
        Value => point_at_value(octet),
        Token => point_in_token(octet),
        Quotes => point_in_quotes(octet),
        AfterBackslash => point_if(is_not_control(octet), Quotes),
    }
}

/// Returns whether a document may end at the point.
#[tactic(auto, unfolding(link_model::specs::DocumentReading::links_at_end))]
pub fn may_end(point: Point) -> bool
    ensures { result ≡ is_some (grammar.links_at_end (point_in point)) }
{
    matches!(
        point,
        Beginning | AfterPart | WithinName | AfterName | Token
    )
}
