//! Messages: reading and writing datagrams.

use crate::kinds::{kind_name, role_name};
use crate::scripts::{message_of, written};
use coap_message::{Unread, View, options_of, role_of, view};
use message_text::write_datagram;
use rd_base::Starved;
use vector_words::Line;

/// Writes a message.
fn put_message(line: &mut Line<'_>, view: &View<'_>) -> Result<(), Starved> {
    let kind = kind_name(view.kind);
    let class = view.code / 32;
    let detail = view.code % 32;
    let mid = view.mid;
    write!(line.page, "{kind} {class}.{detail:02} m={mid:04x} t=")?;
    line.put_datagram(view.token.octets);
    'options: for option in options_of(view) {
        line.put(" [");
        line.put_number(u64::from(option.number));
        line.put(" ");
        line.put_octets(option.value);
        line.put("]");
    }
    if !view.payload.is_empty() {
        line.put(" | ");
        line.put_octets(view.payload);
    }
    Ok(())
}

/// Writes why octets are not a message.
fn put_unread(line: &mut Line<'_>, why: Unread) -> Result<(), Starved> {
    match why {
        Unread::Short => line.put("short"),
        Unread::Version => line.put("version"),
        Unread::Format(kind, mid) => {
            let kind = kind_name(kind);
            write!(line.page, "format {kind} m={mid:04x}")?;
        }
    }
    Ok(())
}

/// Answers `message HEX`: the message of a datagram.
pub(crate) fn message(line: &mut Line<'_>) -> Result<(), Starved> {
    let datagram = line.datagram(line.said);
    match view(datagram.as_slice()) {
        Ok(read) => put_message(line, &read),
        Err(why) => put_unread(line, why),
    }
}

/// Answers `role MESSAGE`: the purpose of a message.
pub(crate) fn role(line: &mut Line<'_>) {
    let datagram = message_of(line);
    match view(datagram.as_slice()) {
        Ok(read) => line.put(role_name(role_of(&read))),
        Err(_) => line.refuse(),
    }
}

/// Answers `octets MESSAGE`: the length of the options of a message in octets.
pub(crate) fn octets(line: &mut Line<'_>) {
    let datagram = message_of(line);
    match view(datagram.as_slice()) {
        Ok(read) => line.put_number(options_of(&read).octets() as u64),
        Err(_) => line.refuse(),
    }
}

/// Answers `write MESSAGE`: the datagram of a message.
pub(crate) fn write(line: &mut Line<'_>) {
    match written(line) {
        Some(datagram) => line.put_datagram(datagram.as_slice()),
        None => line.put("too long"),
    }
}

/// Answers `note MESSAGE`: a message in text, with its payload after two spaces on a line of its
/// own.
pub(crate) fn note(line: &mut Line<'_>) -> Result<(), Starved> {
    let datagram = message_of(line);
    let mut page = String::new(line.alloc);
    write_datagram(&mut page, "  ", datagram.as_slice())?;
    line.put_octets(page.as_bytes());
    Ok(())
}
