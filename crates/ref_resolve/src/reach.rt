//! How far the text of a component goes before an octet that it may not have (RFC 3986 section 3).
ghost use Rattle.std.specs.Prelude.{◌≡◌, ◌≤◌, ◌+◌, ◌∷◌, length};
ghost use Rattle.std.specs.List.{prefix_len, list_all};
ghost use Rattle.std.specs.Char.{is_ascii_digit};
ghost use Rattle.link_model.specs.Characters as characters;
ghost use Rattle.reference_model.specs.References as references;
ghost use Rattle.reference_model.specs.ReferenceFaults as faults;
ghost use Rattle.ref_resolve.specs.Classes.{stands_in, next_digits};

use crate::cuts::{after_first, around, split_from};

/// How far a text goes as the beginning of a component, and whether all of it is one.
#[derive(Clone, Copy)]
pub(crate) struct Reach {
    /// The number of octets at its beginning with which some component begins.
    pub at: usize,
    /// Whether the text is such a component.
    pub whole: bool,
}

/// The characters that a text may have, apart from percent escapes.
#[derive(Clone, Copy)]
pub(crate) enum Class {
    /// Those of a registered name (RFC 3986 section 3.2.2).
    Name,
    /// Those of user information (RFC 3986 section 3.2.1).
    User,
    /// Those of a path (RFC 3986 section 3.3).
    Path,
    /// Those of a query or a fragment (RFC 3986 sections 3.4 and 3.5).
    Query,
}

/// Returns whether an octet is unreserved or a delimiter within components (RFC 3986 section 2).
fn is_name_character(octet: u8) -> bool
    ensures { result ≡ characters.is_name_character octet }
{
    octet.is_ascii_alphanumeric()
        || matches!(
            octet,
            b'-' | b'.'
                | b'_'
                | b'~'
                | b'!'
                | b'$'
                | b'&'
                | b'\''
                | b'('
                | b')'
                | b'*'
                | b'+'
                | b','
                | b';'
                | b'='
        )
}

/// Returns whether an octet is a character of a path, apart from percent escapes (RFC 3986 section
/// 3.3). Lower-case letters come first, since most are.
fn is_path_character(octet: u8) -> bool
    ensures { result ≡ characters.is_path_character octet }
{
    octet.is_ascii_lowercase()
        || matches!(octet, b'&'..=b';' | b'@'..=b'Z')
        || matches!(octet, b'=' | b'_' | b'~' | b'!' | b'$')
}

/// Returns whether an octet is a character of a scheme after its first letter (RFC 3986 section
/// 3.1).
fn is_scheme_character(octet: u8) -> bool
    ensures { result ≡ characters.is_scheme_character octet }
{
    octet.is_ascii_alphanumeric() || matches!(octet, b'+' | b'-' | b'.')
}

/// Returns whether an octet is a character between the brackets of an IP literal.
fn is_literal_character(octet: u8) -> bool
    ensures { result ≡ characters.is_literal_character octet }
{
    octet.is_ascii_hexdigit() || octet == b':' || octet == b'.'
}

impl Class {
    /// Returns whether the octet is such a character.
    fn has(self, octet: u8) -> bool
        ensures { result ≡ stands_in self octet }
    {
        match self {
            Class::Name => is_name_character(octet),
            Class::User => is_name_character(octet) || octet == b':',
            Class::Path => is_path_character(octet),
            Class::Query => is_path_character(octet) || octet == b'?',
        }
    }

    /// Returns how many hexadecimal digits must follow, if the octet is allowed where `digits` of
    /// them must.
    fn next_digits(self, digits: u8, octet: u8) -> Option<u8>
        ensures { result ≡ next_digits (stands_in self) digits octet }
    {
        if digits == 0 {
            if octet == b'%' {
                return Some(2);
            }
            return if self.has(octet) { Some(0) } else { None };
        }
        if octet.is_ascii_hexdigit() {
            Some(digits - 1)
        } else {
            None
        }
    }
}

/// Returns whether each octet is a character of a path, without percent escapes.
pub(crate) fn are_path_characters(text: &[u8]) -> bool
    ensures { result ≡ list_all characters.is_path_character text.now }
{
    text.iter().all(|c| is_path_character(*c))
}

/// Returns how far a text has only such characters and percent escapes.
pub(crate) fn text_reach(class: Class, text: &str) -> Reach
    ensures whole { result.whole ≡ references.is_text_of (stands_in class) text.now }
    ensures at { result.at ≡ faults.text_prefix (stands_in class) text.now }
    ensures bound { result.at ≤ length text.now }
{
    let mut digits = 0;
    let mut at = 0;
    let mut rest = text.as_bytes();
    'octets: while let Some((octet, more)) = rest.split_first() {
        match class.next_digits(digits, *octet) {
            None => return Reach { at, whole: false },
            Some(missing) => digits = missing,
        }
        at += 1;
        rest = more;
    }
    Reach {
        at,
        whole: digits == 0,
    }
}

/// Returns how many decimal digits are at the beginning.
fn digits_at(text: &str) -> usize
    ensures value { result ≡ prefix_len is_ascii_digit text.now }
    ensures bound { result ≤ length text.now }
{
    text.as_bytes()
        .iter()
        .take_while(|c| c.is_ascii_digit())
        .count()
}

/// Returns how many characters of an IP literal are at the beginning.
fn literal_at(text: &str) -> usize
    ensures value { result ≡ prefix_len characters.is_literal_character text.now }
    ensures bound { result ≤ length text.now }
{
    text.as_bytes()
        .iter()
        .take_while(|c| is_literal_character(**c))
        .count()
}

/// Returns whether a text is the inside of an IP literal.
#[tactic(auto, using(crate::proofs::ReachLaws::run_of))]
fn is_literal(text: &str) -> bool
    ensures { result ≡ characters.is_run_of characters.is_literal_character text.now }
{
    !text.is_empty() && literal_at(text) == text.len()
}

/// Returns the reach of a port with its colon, or of nothing (RFC 3986 section 3.2.3).
#[rattlefmt::skip]
#[tactic(
    auto,
    using(crate::proofs::ReachLaws::port_after_colon, crate::proofs::ReachLaws::no_port)
)]
fn port_reach(text: &str) -> Reach
    ensures whole { result.whole ≡ references.is_port_text text.now }
    ensures at { result.at ≡ faults.port_prefix text.now }
    ensures bound { result.at ≤ length text.now }
{
    match after_first(text, ':') {
        Some(digits) => {
            let count = digits_at(digits);
            Reach {
                at: 1 + count,
                whole: count == digits.len(),
            }
        }
        None => Reach {
            at: 0,
            whole: text.is_empty(),
        },
    }
}

/// Returns the reach of an IP literal after its opening bracket, and of a port or none (RFC 3986
/// section 3.2.2).
#[tactic(auto, using(crate::proofs::ReachLaws::octet_after))]
fn literal_reach(text: &str) -> Reach
    ensures whole { result.whole
        ≡ references.is_literal_and_port (characters.left_bracket ∷ text.now) }
    ensures at { result.at + 1 ≡ faults.literal_prefix (characters.left_bracket ∷ text.now) }
    ensures bound { result.at ≤ length text.now }
{
    let (inside, after) = around(text, ']');
    match after {
        Some(port) => {
            if !is_literal(inside) {
                return Reach {
                    at: literal_at(inside),
                    whole: false,
                };
            }
            let port = port_reach(port);
            Reach {
                at: inside.len() + 1 + port.at,
                whole: port.whole,
            }
        }
        None => Reach {
            at: literal_at(inside),
            whole: false,
        },
    }
}

/// Returns the reach of a registered name, and of a port or none (RFC 3986 section 3.2.2).
fn name_reach(text: &str) -> Reach
    ensures whole { result.whole ≡ references.is_name_and_port text.now }
    ensures at { result.at ≡ faults.name_prefix text.now }
    ensures bound { result.at ≤ length text.now }
{
    let (name, port) = split_from(text, ':');
    let reach = text_reach(Class::Name, name);
    if !reach.whole {
        return reach;
    }
    let port = port_reach(port);
    Reach {
        at: name.len() + port.at,
        whole: port.whole,
    }
}

/// Returns the reach of a host, and of a port or none.
#[rattlefmt::skip]
#[tactic(
    auto,
    using(crate::proofs::ReachLaws::host_in_brackets, crate::proofs::ReachLaws::host_of_name)
)]
fn host_reach(text: &str) -> Reach
    ensures whole { result.whole ≡ references.is_host_and_port text.now }
    ensures at { result.at ≡ faults.host_prefix text.now }
    ensures bound { result.at ≤ length text.now }
{
    match after_first(text, '[') {
        Some(rest) => {
            let reach = literal_reach(rest);
            Reach {
                at: 1 + reach.at,
                whole: reach.whole,
            }
        }
        None => name_reach(text),
    }
}

/// Returns the reach of an authority: user information or none, a host, and a port or none (RFC
/// 3986 section 3.2).
#[rattlefmt::skip]
#[tactic(
    auto,
    using(
        crate::proofs::ReachLaws::octet_after,
        reference_model::proofs::ReferenceCuts::before_alone,
        crate::proofs::ReachLaws::no_at_sign
    ),
    unfolding(reference_model::specs::ReferenceFaults::authority_prefix)
)]
pub(crate) fn authority_reach(text: &str) -> Reach
    ensures whole { result.whole ≡ references.is_authority text.now }
    ensures at { result.at ≡ faults.authority_prefix text.now }
    ensures bound { result.at ≤ length text.now }
{
    let (front, after) = around(text, '@');
    let user = text_reach(Class::User, front);
    match after {
        Some(rest) => {
            let host = host_reach(rest);
            if user.whole {
                return Reach {
                    at: front.len() + 1 + host.at,
                    whole: host.whole,
                };
            }
            let begun = host_reach(front);
            Reach {
                at: user.at.max(begun.at),
                whole: false,
            }
        }
        None => {
            let host = host_reach(front);
            Reach {
                at: user.at.max(host.at),
                whole: host.whole,
            }
        }
    }
}

/// Returns whether each octet is a character of a scheme after its first letter.
fn are_scheme_characters(text: &[u8]) -> bool
    ensures { result ≡ list_all characters.is_scheme_character text.now }
{
    text.iter().all(|c| is_scheme_character(*c))
}

/// Returns whether a text is a scheme (RFC 3986 section 3.1).
#[tactic(auto, using(crate::proofs::ReachLaws::scheme_cons))]
pub(crate) fn is_scheme(text: &str) -> bool
    ensures { result ≡ references.is_scheme text.now }
{
    match text.as_bytes().split_first() {
        Some((first, rest)) => { first.is_ascii_alphabetic() && are_scheme_characters(rest) }
        None => false,
    }
}
