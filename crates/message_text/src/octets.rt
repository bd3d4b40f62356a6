//! Octets as text, or in hexadecimal.

use rd_base::Starved;
use unicode::properties::{GeneralCategory, is_default_ignorable_code_point};

/// The place of text in a message. It determines which characters the line uses itself, which are
/// therefore percent-encoded (RFC 3986 section 2.1).
#[derive(Clone, Copy, Debug, PartialEq, Eq)]
pub(crate) enum Field {
    /// A segment of a path or an argument of a query, among others on the line of the message.
    Part,
    /// The value of an option, on the line of the message.
    Value,
    /// The payload, on a line of its own.
    Payload,
}

/// Writes octets in hexadecimal.
pub(crate) fn write_hexadecimal(page: &mut String, octets: &[u8]) -> Result<(), Starved> {
    page.push_str("0x")?;
    'octets: for octet in octets {
        let octet = *octet;
        write!(page, "{octet:02x}")?;
    }
    Ok(())
}

/// Returns whether a character is invisible among others. It is the end of a line or a paragraph, a
/// control or format character, or a space other than that of ASCII. Or it is any other that is
/// ignored when it is shown.
fn is_unseen(character: char) -> bool {
    match GeneralCategory::for_char(character) {
        GeneralCategory::Control
        | GeneralCategory::Format
        | GeneralCategory::LineSeparator
        | GeneralCategory::ParagraphSeparator => true,
        GeneralCategory::SpaceSeparator => character != ' ',
        _ => is_default_ignorable_code_point(character),
    }
}

impl Field {
    /// Returns whether a character is one of those that the line uses here itself.
    fn uses(self, character: char) -> bool {
        match character {
            '%' => true,
            ' ' | ',' | '(' | ')' => self != Field::Payload,
            '/' | '?' | '&' => self == Field::Part,
            _ => false,
        }
    }
}

/// Writes an octet percent-encoded (RFC 3986 section 2.1).
fn write_encoded(page: &mut String, octet: u8) -> Result<(), Starved> {
    Ok(write!(page, "%{octet:02X}")?)
}

/// Writes a character, percent-encoded if it would be invisible or taken for something else.
fn write_character(page: &mut String, field: Field, character: char) -> Result<(), Starved> {
    if !field.uses(character) && !is_unseen(character) {
        return Ok(page.push(character)?);
    }
    let mut buffer = [0; 4];
    let spelled = character.encode_utf8(&mut buffer);
    'octets: for octet in spelled.as_bytes() {
        write_encoded(page, *octet)?;
    }
    Ok(())
}

/// Writes text in UTF-8, percent-encoded as the field requires.
pub(crate) fn write_text(page: &mut String, field: Field, text: &str) -> Result<(), Starved> {
    'characters: for character in text.chars() {
        write_character(page, field, character)?;
    }
    Ok(())
}

/// Writes an octet of a value that is no text.
fn write_octet(page: &mut String, field: Field, octet: u8) -> Result<(), Starved> {
    if octet.is_ascii() {
        return write_character(page, field, char::from(octet));
    }
    write_encoded(page, octet)
}

/// Writes octets as the text that they are. If they are no text in UTF-8, each octet that is not
/// ASCII is percent-encoded.
pub(crate) fn write_octets(page: &mut String, field: Field, octets: &[u8]) -> Result<(), Starved> {
    if let Ok(text) = str::from_utf8(octets) {
        return write_text(page, field, text);
    }
    'octets: for octet in octets {
        write_octet(page, field, *octet)?;
    }
    Ok(())
}
