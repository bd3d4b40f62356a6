//! The resource that a path names (RFC 9176 sections 4.3, 5 and 6).

ghost use Rattle.std.specs.Prelude.{◌≡◌, ◌≤◌, ◌<◌, ◌^◌, true, ◌&&◌, nat_le, length, codes};
ghost use Rattle.std.specs.Prelude.{bytes_eq, if◌then◌else◌};
ghost use Rattle.std.specs.List.{list_all};
ghost use Rattle.std.specs.Char.{is_ascii_digit};
ghost use Rattle.message_model.specs.Request as request;
ghost use Rattle.message_model.specs.declared.requests.Path.TheVariants as path;

use message_model::{MAX_LOCATION_DIGITS, Path};

/// Returns whether all octets are decimal digits.
fn are_digits(text: &[u8]) -> bool
    ensures { result ≡ list_all is_ascii_digit text.now }
{
    text.iter().all(|byte| byte.is_ascii_digit())
}

/// Returns whether a text of at least two octets begins with the digit 0.
fn has_leading_zero(text: &[u8]) -> bool
    ensures { result ≡ request.has_leading_zero text.now }
{
    match text {
        [first, _, ..] => *first == b'0',
        _ => false,
    }
}

/// Returns whether there is an octet, and no more than a registration's number has digits.
fn has_good_length(text: &[u8]) -> bool
    ensures { result
        ≡ (nat_le 1 (length text.now) && nat_le (length text.now) request.most_digits) }
{
    1 <= text.len() && text.len() <= MAX_LOCATION_DIGITS
}

/// Returns whether a text is a decimal number of 1 to 15 digits without a leading zero.
fn is_location(text: &[u8]) -> bool
    ensures value { result ≡ request.is_location text.now }
    ensures few { result ≡ true → length text.now ≤ 15 }
    ensures digits { result ≡ true → list_all is_ascii_digit text.now ≡ true }
{
    if !has_good_length(text) {
        return false;
    }
    if !are_digits(text) {
        return false;
    }
    !has_leading_zero(text)
}

/// Returns the number that at most 15 digits spell.
fn decimal_value(text: &[u8]) -> u64
    requires few { length text.now ≤ 15 }
    requires digits { list_all is_ascii_digit text.now ≡ true }
    ensures value { result ≡ request.decimal_value text.now }
{
    match text {
        [front @ .., last] => decimal_value(front) * 10 + u64::from(*last - b'0'),
        [] => 0,
    }
}

/// Returns the registration that the segment after `rd` names (RFC 9176 section 5.3).
#[tactic(auto, unfolding(message_model::specs::Request::location_of))]
fn location_of(text: &[u8]) -> Path
    ensures { result ≡ request.location_of text.now }
{
    if !is_location(text) {
        return Path::Other;
    }
    Path::Location(decimal_value(text))
}

/// Returns the resource that the segment after `.well-known` names (RFC 9176 sections 4.3 and 5.1).
fn well_known_of(segment: &[u8]) -> Path
    ensures { result ≡ request.well_known_of segment.now }
{
    if segment == b"core".as_slice() {
        return Path::Core;
    }
    if segment == b"rd".as_slice() {
        return Path::SimpleRd;
    }
    Path::Other
}

/// Returns the resource that the segment after `rd-lookup` names (RFC 9176 section 6).
fn lookup_of(segment: &[u8]) -> Path
    ensures { result ≡ request.lookup_of segment.now }
{
    if segment == b"res".as_slice() {
        return Path::Res;
    }
    if segment == b"ep".as_slice() {
        return Path::Ep;
    }
    Path::Other
}

/// Returns the resource that one segment names.
pub(crate) fn path_of_one(segment: &[u8]) -> Path
    ensures { result ≡ (if bytes_eq segment.now (codes "rd") then path.Rd else path.Other) }
{
    if segment == b"rd".as_slice() {
        return Path::Rd;
    }
    Path::Other
}

/// Returns the resource that two segments name.
pub(crate) fn path_of_two(first: &[u8], second: &[u8]) -> Path
    ensures { result ≡ request.path_of_two first.now second.now }
{
    if first == b".well-known".as_slice() {
        return well_known_of(second);
    }
    if first == b"rd".as_slice() {
        return location_of(second);
    }
    if first == b"rd-lookup".as_slice() {
        return lookup_of(second);
    }
    Path::Other
}
