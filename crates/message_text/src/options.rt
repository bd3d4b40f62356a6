//! The options of a message, as text.

use super::codes::is_request;
use super::octets::{Field, write_hexadecimal, write_octets};
use super::table::{Form, named};
use block_wise::{block_read, block_size};
use coap_message::{Opt, View, options_of};
use message_model::formats::LINK_FORMAT;
use rd_base::Starved;

/// Returns what precedes a part: `first` before the first, `next` before each other.
fn lead<'a>(begun: bool, first: &'a str, next: &'a str) -> &'a str {
    if begun {
        return next;
    }
    first
}

/// Returns whether a message has an option with a number.
pub(crate) fn holds(view: &View<'_>, number: u32) -> bool {
    options_of(view).any(|option| option.number == number)
}

/// Writes the values of the options with a number one after the other, with `first` before the
/// first and `next` before each other.
pub(crate) fn write_joined(
    page: &mut String,
    view: &View<'_>,
    number: u32,
    first: &str,
    next: &str,
) -> Result<(), Starved> {
    let mut begun = false;
    'options: for option in options_of(view) {
        if option.number == number {
            page.push_str(lead(begun, first, next))?;
            write_octets(page, Field::Part, option.value)?;
            begun = true;
        }
    }
    Ok(())
}

/// The most octets of a number (RFC 7252 section 5.10, RFC 7959 section 4).
const LONGEST_NUMBER: usize = 4;

/// Returns the number that a value encodes, the most significant octet first (RFC 7252 section
/// 3.2).
///
/// Returns `None` if the value is longer than that of any option that is a number.
fn number_of(value: &[u8]) -> Option<u32> {
    if value.len() > LONGEST_NUMBER {
        return None;
    }
    let mut octets = [0; LONGEST_NUMBER];
    octets[LONGEST_NUMBER - value.len()..].copy_from_slice(value);
    Some(u32::from_be_bytes(octets))
}

/// Returns the name that a number stands for: a Content-Format (RFC 7252 section 12.3), or what a
/// request asks of an observation (RFC 7641 section 2).
fn name_of(code: u8, form: Form, number: u32) -> Option<&'static str> {
    match (form, number) {
        (Form::ContentFormat, _) if number == u32::from(LINK_FORMAT) => Some("link-format"),
        (Form::Observe, 0) if is_request(code) => Some("register"),
        (Form::Observe, 1) if is_request(code) => Some("deregister"),
        _ => None,
    }
}

/// Writes a number or the name that it stands for, or the octets of a value that is too long for a
/// number.
fn write_number(page: &mut String, code: u8, form: Form, value: &[u8]) -> Result<(), Starved> {
    let Some(number) = number_of(value) else {
        return write_hexadecimal(page, value);
    };
    match name_of(code, form, number) {
        Some(name) => Ok(page.push_str(name)?),
        None => Ok(write!(page, "{number}")?),
    }
}

/// Writes a block as its number, whether more follow, and its size (RFC 7959 section 3), or the
/// octets of a value that is no block.
fn write_block(page: &mut String, value: &[u8]) -> Result<(), Starved> {
    if value.len() > 3 {
        return write_hexadecimal(page, value);
    }
    let Ok(block) = block_read(value) else {
        return write_hexadecimal(page, value);
    };
    let number = block.num;
    let more = u8::from(block.more);
    let size = block_size(block.szx);
    Ok(write!(page, "{number}/{more}/{size}")?)
}

/// Writes the value of an option of a message with this code, in its form.
fn write_value(page: &mut String, code: u8, form: Form, value: &[u8]) -> Result<(), Starved> {
    match form {
        Form::Number | Form::ContentFormat | Form::Observe => write_number(page, code, form, value),
        Form::Block => write_block(page, value),
        Form::Text => write_octets(page, Field::Value, value),
        Form::Opaque | Form::Part => write_hexadecimal(page, value),
    }
}

/// Writes an option of a message with this code: by its name, or by its number if it has no name
/// here.
fn write_option(page: &mut String, code: u8, option: &Opt<'_>) -> Result<(), Starved> {
    match named(option.number) {
        Some((_, Form::Part)) => Ok(()),
        Some((name, form)) => {
            write!(page, ", {name} ")?;
            write_value(page, code, form, option.value)
        }
        None => {
            let number = option.number;
            write!(page, ", Option {number} ")?;
            write_hexadecimal(page, option.value)
        }
    }
}

/// Writes all options except those of which paths and queries consist.
pub(crate) fn write_options(page: &mut String, view: &View<'_>) -> Result<(), Starved> {
    'options: for option in options_of(view) {
        write_option(page, view.code, &option)?;
    }
    Ok(())
}
