//! A message, as text.

use super::codes::{kind_name, method_name, response_name};
use super::faults::format_fault;
use super::octets::{Field, write_hexadecimal, write_text};
use super::options::{holds, write_joined, write_options};
use super::table::LOCATION_QUERY;
use coap_message::{View, view};
use message_model::Unread;
use message_model::options::{LOCATION_PATH, URI_PATH, URI_QUERY};
use rd_base::Starved;

/// Writes the type and the Message ID.
fn write_head(page: &mut String, view: &View<'_>) -> Result<(), Starved> {
    let kind = kind_name(view.kind);
    let mid = view.mid;
    Ok(write!(page, "{kind} [0x{mid:04x}] ")?)
}

/// Writes the code: a method by its name, or by its number if it has none, and a response by its
/// number and its name.
fn write_code(page: &mut String, code: u8) -> Result<(), Starved> {
    let class = code >> 5;
    let detail = code & 31;
    if class == 0 {
        return match method_name(detail) {
            Some(name) => Ok(page.push_str(name)?),
            None => Ok(write!(page, "{class}.{detail:02} unknown method")?),
        };
    }
    let name = response_name(class, detail);
    Ok(write!(page, "{class}.{detail:02} {name}")?)
}

/// Writes the path and the query of a request.
fn write_target(page: &mut String, view: &View<'_>) -> Result<(), Starved> {
    write_joined(page, view, URI_PATH, " /", "/")?;
    write_joined(page, view, URI_QUERY, "?", "&")
}

/// Writes the location that a response names, if it names one.
fn write_location(page: &mut String, view: &View<'_>) -> Result<(), Starved> {
    if holds(view, LOCATION_PATH) || holds(view, LOCATION_QUERY) {
        page.push_str(" Location ")?;
    }
    write_joined(page, view, LOCATION_PATH, "/", "/")?;
    write_joined(page, view, LOCATION_QUERY, "?", "&")
}

/// Writes the token, if there is one.
fn write_token(page: &mut String, token: &[u8]) -> Result<(), Starved> {
    if token.is_empty() {
        return Ok(());
    }
    page.push_str(" (Token ")?;
    write_hexadecimal(page, token)?;
    Ok(page.push_str(")")?)
}

/// Writes the payload on a line of its own, if there is one. Text in UTF-8 follows a bar. Other
/// octets are written in hexadecimal after a word that precedes no text.
fn write_payload(page: &mut String, indent: &str, payload: &[u8]) -> Result<(), Starved> {
    if payload.is_empty() {
        return Ok(());
    }
    if let Ok(text) = str::from_utf8(payload) {
        write!(page, "\n{indent}| ")?;
        return write_text(page, Field::Payload, text);
    }
    write!(page, "\n{indent}octets ")?;
    write_hexadecimal(page, payload)
}

/// Writes a message.
fn write_message(page: &mut String, indent: &str, view: &View<'_>) -> Result<(), Starved> {
    write_head(page, view)?;
    write_code(page, view.code)?;
    write_target(page, view)?;
    write_location(page, view)?;
    write_token(page, view.token.octets)?;
    write_options(page, view)?;
    write_payload(page, indent, view.payload)
}

/// Writes which rule octets break that are no message because of their form.
fn write_fault(page: &mut String, datagram: &[u8]) -> Result<(), Starved> {
    page.push_str("no message, format error")?;
    if let Some(fault) = format_fault(datagram) {
        page.push_str(", ")?;
        page.push_str(fault.text())?;
    }
    Ok(page.push_str(": ")?)
}

/// Writes octets that are no message, and why.
fn write_unread(page: &mut String, datagram: &[u8], why: Unread) -> Result<(), Starved> {
    match why {
        Unread::Short => page.push_str("no message, shorter than a header: ")?,
        Unread::Version => page.push_str("no message of version 1: ")?,
        Unread::Format(_, _) => write_fault(page, datagram)?,
    }
    write_hexadecimal(page, datagram)
}

/// Appends a datagram to a page (RFC 7252 section 3).
///
/// A message has a line with its type, Message ID, code, path and query, token and options, as `CON
/// [0x0001] POST /rd?ep=node1 (Token 0xa1), Content-Format link-format`. Its payload has a line of
/// its own, after `indent`. If the datagram is no message, its octets are written, and why.
///
/// Nothing in a datagram looks like something else:
///
/// - In text a percent sign and invisible characters are percent-encoded (RFC 3986 section 2.1).
///   These are control, format and other ignored characters, ends of lines and paragraphs, and
///   spaces other than that of ASCII.
/// - On the line of the message a space, a comma and parentheses are percent-encoded, too. So are
///   octets there that are no text.
/// - In a part of a path or a query, so are a slash, a question mark and an ampersand.
/// - A payload that is no text in UTF-8 is written in hexadecimal, after the word `octets` and not
///   after a bar.
///
/// # Errors
///
/// `Starved` if memory runs out.
pub fn write_datagram(page: &mut String, indent: &str, datagram: &[u8]) -> Result<(), Starved> {
    match view(datagram) {
        Ok(message) => write_message(page, indent, &message),
        Err(why) => write_unread(page, datagram, why),
    }
}
