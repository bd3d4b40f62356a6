//! The parts of an answer, one after another.

use rd_base::{Link, Links, Pair, Text};
use vector_words::Line;

/// Begins a part, and writes ` | ` if it is not the first.
pub(crate) fn begin(line: &mut Line<'_>) {
    if !line.page.is_empty() {
        line.put(" | ");
    }
}

/// Writes a text between other marks, which may be empty.
pub(crate) fn put_text(line: &mut Line<'_>, text: &str) {
    if !text.is_empty() {
        line.put_octets(text.as_bytes());
    }
}

/// Writes a part of a name and a value.
pub(crate) fn put_named(line: &mut Line<'_>, name: &str, value: &str) {
    begin(line);
    put_text(line, name);
    line.put("=");
    put_text(line, value);
}

/// Writes a part of a name and a value, if there is a value.
pub(crate) fn put_optional(line: &mut Line<'_>, name: &str, value: Option<&str>) {
    if let Some(value) = value {
        put_named(line, name, value);
    }
}

/// Writes a part of a name and a number.
pub(crate) fn put_number(line: &mut Line<'_>, name: &str, number: u64) {
    begin(line);
    line.put(name);
    line.put("=");
    line.put_number(number);
}

/// Writes a fault with its offset.
pub(crate) fn put_fault(line: &mut Line<'_>, name: &str, at: usize) {
    line.put(name);
    line.put(" at ");
    line.put_number(at as u64);
}

/// Writes attributes, each as a part.
pub(crate) fn put_pairs(line: &mut Line<'_>, pairs: &[Pair]) {
    'pairs: for pair in pairs {
        put_named(line, pair.name.as_str(), pair.value.as_str());
    }
}

/// Returns the text, if there is one.
pub(crate) fn text_in(text: &Option<Text>) -> Option<&str> {
    match text {
        None => None,
        Some(text) => Some(text.as_str()),
    }
}

/// Writes a target in brackets, raw attributes, and an anchor if there is one.
fn put_link(line: &mut Line<'_>, target: &str, raw: &str, anchor: Option<&str>) {
    line.put("<");
    put_text(line, target);
    line.put(">");
    put_text(line, raw);
    if let Some(anchor) = anchor {
        line.put(";anchor=\"");
        put_text(line, anchor);
        line.put("\"");
    }
}

/// Writes a link as a part: its target and anchor as submitted, the link as it is listed, and its
/// attributes.
fn put_item(line: &mut Line<'_>, link: &Link<'_>) {
    begin(line);
    put_link(line, link.target_ref(), "", link.anchor_ref());
    line.put(" is ");
    put_link(line, link.target(), link.raw(), link.anchor());
    'pairs: for pair in link.pairs() {
        line.put(" [");
        put_text(line, pair.name);
        line.put("=");
        put_text(line, pair.value);
        line.put("]");
    }
}

/// Writes links, each as a part.
pub(crate) fn put_items(line: &mut Line<'_>, links: Links<'_>) {
    'links: for link in links {
        put_item(line, &link);
    }
}
