//! The classes of characters that the grammar of links names (RFC 6690 section 2).
ghost use Rattle.std.specs.Prelude.{◌≡◌, ◌==◌, ◌&&◌, not};
ghost use Rattle.std.specs.Char.{is_ascii};
ghost use Rattle.std.specs.List.{list_any};
ghost use Rattle.link_model.specs.Characters as class;

/// Returns whether the octet is one of these. The call is not inlined, since letters and digits do
/// without it.
#[inline(never)]
fn is_one_of(octets: &[u8], octet: u8) -> bool
    ensures { result ≡ list_any (λ d. octet == d) octets.now }
{
    octets.iter().any(|d| octet == *d)
}

/// Returns whether the octet is none of the control characters 0x00 to 0x1F and 0x7F.
pub fn is_not_control(octet: u8) -> bool
    ensures { result ≡ class.is_not_control octet }
{
    !octet.is_ascii_control()
}

/// Returns whether the octet may appear in the name of an attribute (RFC 8187 section 3.2.1,
/// attr-char).
pub fn is_name_character(octet: u8) -> bool
    ensures { result ≡ class.is_attribute_name_character octet }
{
    octet.is_ascii_alphanumeric() || is_one_of(b"!#$&+-.^_`|~", octet)
}

/// Returns whether the octet may appear in a value without quotes (RFC 6690 section 2, ptokenchar).
pub fn is_token_character(octet: u8) -> bool
    ensures { result ≡ class.is_token_character octet }
{
    octet.is_ascii_alphanumeric() || is_one_of(b"!#$%&'()*+-./:<=>?@[]^_`{|}~", octet)
}

/// Returns whether the octet may appear between `<` and `>`.
pub fn is_target_character(octet: u8) -> bool
    ensures { result ≡ class.is_target_character octet }
{
    octet.is_ascii() && is_not_control(octet) && octet != b'>'
}

/// Returns whether the octet is an ASCII character that a quoted string may have without an escape.
pub fn is_plain_in_quotes(octet: u8) -> bool
    ensures { result
        ≡ (is_ascii octet && class.is_not_control octet && not (octet == class.quote_mark) && not
        (octet == class.backslash)) }
{
    octet.is_ascii() && is_not_control(octet) && octet != b'"' && octet != b'\\'
}
