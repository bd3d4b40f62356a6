//! One query option by itself: its name and value, and the tests of values.
ghost use Rattle.std.specs.Prelude.{◌≡◌, ◌≤◌, ◌&&◌, not, IfSome, unwrap_or, option_map};
ghost use Rattle.std.specs.List.{list_all};
ghost use Rattle.std.specs.Char.{is_ascii_digit};
ghost use Rattle.link_model.specs.Characters as characters;
ghost use Rattle.record_model.specs.Options as options;
ghost use Rattle.record_model.specs.Parameters as parameters;
ghost use Rattle.reference_model.specs.References as references;
ghost use Rattle.query_text.specs.Numbers.{number_in};

use ref_resolve::{Parts, host, is_uri, parts};

/// Returns the name of an option and its value: what precedes its first equals sign, and what
/// follows it.
pub(crate) fn name_and_value(option: &str) -> (&str, &str)
    ensures name { result.0.now ≡ options.option_name option.now }
    ensures value { result.1.now ≡ options.option_value option.now }
{
    match option.split_once('=') {
        Some((name, value)) => (name, value),
        None => (option, ""),
    }
}

/// Returns whether a text has a control character, U+0000 to U+001F or U+007F to U+009F.
#[tactic(auto, unfolding(record_model::specs::Parameters::has_control))]
pub(crate) fn has_control(text: &str) -> bool
    ensures { result ≡ parameters.has_control text.now }
{
    text.chars().any(|c| c.is_control())
}

/// Returns whether a text has only digits.
fn are_digits(text: &str) -> bool
    ensures { result ≡ list_all is_ascii_digit text.now }
{
    text.as_bytes().iter().all(|octet| octet.is_ascii_digit())
}

/// Returns the number of 32 bits that 1 to 10 decimal digits spell.
pub(crate) fn number(text: &str) -> Option<u32>
    ensures { result ≡ number_in text.now }
{
    if text.is_empty() {
        return None;
    }
    if text.len() > 10 {
        return None;
    }
    if !are_digits(text) {
        return None;
    }
    match text.parse::<u32>() {
        Ok(n) => Some(n),
        Err(_) => None,
    }
}

/// Returns whether an octet is a character of an attribute's name (RFC 8187 section 3.2.1).
fn is_attribute_name_character(octet: u8) -> bool
    ensures { result ≡ characters.is_attribute_name_character octet }
{
    octet.is_ascii_alphanumeric()
        || matches!(
            octet,
            b'!' | b'#' | b'$' | b'&' | b'+' | b'-' | b'.' | b'^' | b'_' | b'`' | b'|' | b'~'
        )
}

/// Returns whether all octets are characters of an attribute's name.
fn are_attribute_name_characters(text: &str) -> bool
    ensures { result ≡ list_all characters.is_attribute_name_character text.now }
{
    text.as_bytes()
        .iter()
        .all(|octet| is_attribute_name_character(*octet))
}

/// Returns whether a name means something else in a lookup, so that no attribute of an endpoint has
/// it.
fn is_reserved_name(name: &str) -> bool
    ensures { result ≡ options.is_among parameters.reserved_names name.now }
{
    name == "href" || name == "anchor" || name == "rt" || name == "page" || name == "count"
}

/// Returns whether an extra attribute may have the name.
pub(crate) fn is_extra_name(name: &str) -> bool
    ensures { result ≡ parameters.is_extra_name name.now }
{
    !name.is_empty() && are_attribute_name_characters(name) && !is_reserved_name(name)
}
