//! The checks of a base: a URI with a host, and no link-local one (RFC 9176 section 5, base).
ghost use Rattle.std.specs.Prelude.{◌≡◌, ◌<◌, ◌∷◌, [], not, true, false, Some, option_map};
ghost use Rattle.std.specs.Prelude.{MatchOption};
ghost use Rattle.std.specs.List.{list_all};
ghost use Rattle.std.specs.Char.{is_ascii_hexdigit};
ghost use Rattle.link_model.specs.Characters.{left_bracket};
ghost use Rattle.record_model.specs.Parameters as parameters;
ghost use Rattle.reference_model.specs.References as references;
ghost use Rattle.record_model.specs.declared.readings.Why.TheVariants as why;
ghost use Rattle.ref_resolve.specs.ComponentsOfParts.{components_of};
ghost use Rattle.query_text.specs.Bases.{begins_link_local, base_fault};

use crate::Why;
use ref_resolve::{Parts, host, is_uri, parts};

/// Returns what precedes the first of these marks, or the whole text.
fn before(text: &str, mark: char) -> &str
    requires { mark < 128 }
    ensures { result.now ≡ references.before mark text.now }
{
    match text.split_once(mark) {
        Some((front, _)) => front,
        None => text,
    }
}

/// Returns what follows an opening bracket, if the text begins with it.
fn after_bracket(text: &str) -> Option<&str>
    ensures { MatchOption result (references.begins_with left_bracket text.now ≡ false)
        (λ rest. text.now ≡ left_bracket ∷ rest.now) }
{
    text.strip_prefix('[')
}

/// Returns whether a text has only hexadecimal digits.
fn are_hex_digits(text: &str) -> bool
    ensures { result ≡ list_all is_ascii_hexdigit text.now }
{
    text.as_bytes()
        .iter()
        .all(|octet| octet.is_ascii_hexdigit())
}

/// Returns whether the octets are `fe8`, `fe9`, `fea` or `feb`, in either case.
fn begins_link_local(front: &[u8]) -> bool
    ensures { result ≡ begins_link_local front.now }
{
    front.eq_ignore_ascii_case(b"fe8")
        || front.eq_ignore_ascii_case(b"fe9")
        || front.eq_ignore_ascii_case(b"fea")
        || front.eq_ignore_ascii_case(b"feb")
}

/// Returns whether four hexadecimal digits begin a link-local address (RFC 4291 section 2.5.6).
fn is_link_local_group(group: &str) -> bool
    ensures { result ≡ parameters.is_link_local_group group.now }
{
    if group.len() != 4 {
        return false;
    }
    if !are_hex_digits(group) {
        return false;
    }
    begins_link_local(&group.as_bytes()[..3])
}

/// Returns whether a host is an IP literal of a link-local address.
fn is_link_local_host(host: Option<&str>) -> bool
    ensures { result ≡ parameters.is_link_local_host (option_map (λ text. text.now) host.entry) }
{
    match host {
        None => false,
        Some(text) => match after_bracket(text) {
            None => false,
            Some(inner) => is_link_local_group(before(before(inner, ']'), ':')),
        },
    }
}

/// Returns whether there is a host that is not empty.
fn has_host(host: Option<&str>) -> bool
    ensures { result ≡ parameters.has_host (option_map (λ text. text.now) host.entry) }
{
    match host {
        None => false,
        Some(text) => !text.is_empty(),
    }
}

/// Returns whether parts are those of a URI with an authority and a host, and without query and
/// fragment.
fn is_base_of(parts: &Parts<'_>) -> bool
    ensures { result ≡ parameters.is_base_of (Some (components_of parts.now)) }
{
    if !is_uri(parts) {
        return false;
    }
    if !has_host(host(parts)) {
        return false;
    }
    parts.query.is_none() && parts.fragment.is_none()
}

/// Returns the parts of a text that is a URI-reference.
fn reference(text: &str) -> Option<Parts<'_>>
    ensures { option_map (λ parts. components_of parts) result ≡ references.reference text.now }
{
    match parts(text) {
        Ok(parts) => Some(parts),
        Err(_) => None,
    }
}

/// Returns why a base is refused by itself, if it is.
#[rattlefmt::skip]
#[tactic(
    auto,
    unfolding(
        record_model::specs::Parameters::is_base,
        record_model::specs::Parameters::is_link_local
    )
)]
pub(crate) fn base_fault(text: &str) -> Option<Why>
    ensures { result ≡ base_fault text.now }
{
    let Some(parts) = reference(text) else {
        return Some(Why::Base);
    };
    if !is_base_of(&parts) {
        return Some(Why::Base);
    }
    if is_link_local_host(host(&parts)) {
        return Some(Why::LinkLocal);
    }
    None
}
