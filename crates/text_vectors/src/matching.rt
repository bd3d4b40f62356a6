//! The calls of `listing` on patterns and criteria (RFC 6690 section 4.1, RFC 9176 section 6.2):
//!
//! - `before_wildcard PATTERN`, `matches_value PATTERN VALUE`;
//! - `is_list_name NAME`, `first_part VALUE`, `matches_named NAME=PATTERN VALUE`;
//! - `link_matches NAME=PATTERN LINK`, `endpoint_matches NAME=PATTERN RECORD`.

use crate::pages::{begin, put_text};
use crate::records::{items_of, record_of};
use listing::{
    before_wildcard, endpoint_matches, first_part, is_list_name, link_matches, matches_named,
    matches_value,
};
use rd_base::{Criterion, Starved, Text};
use vector_words::{Line, yes_or_no};

/// Reads a criterion: its name, and its pattern after the first equals sign.
fn criterion_of(line: &mut Line<'_>) -> Result<Criterion, Starved> {
    let word = line.word();
    let text = line.text(word);
    let text = text.as_str();
    let (name, pattern) = text.split_once('=').unwrap_or((text, ""));
    Ok(Criterion {
        name: Text::copy_of(line.alloc, name)?,
        pattern: Text::copy_of(line.alloc, pattern)?,
    })
}

/// Writes the part of a pattern before its asterisk.
pub(crate) fn put_front(line: &mut Line<'_>) {
    let pattern = line.text(line.said);
    match before_wildcard(pattern.as_str()) {
        Some(front) => line.put_octets(front.as_bytes()),
        None => line.put("none"),
    }
}

/// Writes the first part of a value, and the rest.
pub(crate) fn put_first_part(line: &mut Line<'_>) {
    let value = line.text(line.said);
    match first_part(value.as_str()) {
        Some((part, rest)) => {
            put_text(line, part);
            begin(line);
            line.put_octets(rest.as_bytes());
        }
        None => line.put("none"),
    }
}

/// Writes whether a name is one of those whose values are lists.
pub(crate) fn put_is_list_name(line: &mut Line<'_>) {
    line.put(yes_or_no(is_list_name(line.said)));
}

/// Writes whether a pattern matches a value.
pub(crate) fn put_matched(line: &mut Line<'_>) {
    let pattern = line.word();
    let pattern = line.text(pattern);
    let value = line.text(line.said);
    line.put(yes_or_no(matches_value(pattern.as_str(), value.as_str())));
}

/// Returns whether a criterion's pattern matches a value of its name.
fn is_named_matched(line: &mut Line<'_>, criterion: &Criterion) -> bool {
    let value = line.text(line.said);
    let name = criterion.name.as_str();
    let pattern = criterion.pattern.as_str();
    matches_named(name, pattern, value.as_str())
}

/// Returns whether a criterion matches a link.
fn is_link_matched(line: &mut Line<'_>, criterion: &Criterion) -> bool {
    if let Some(items) = items_of(line, line.said) {
        if let Some(link) = items.links().get(0) {
            return link_matches(criterion, &link);
        }
    }
    line.refuse();
    false
}

/// Returns whether a criterion matches a registration.
fn is_endpoint_matched(line: &mut Line<'_>, criterion: &Criterion) -> bool {
    match record_of(line, line.said) {
        Some(record) => endpoint_matches(criterion, &record),
        None => false,
    }
}

/// Writes the truth value of a call on a criterion and what it may match.
pub(crate) fn put_holds(line: &mut Line<'_>, call: &str) -> Result<(), Starved> {
    let criterion = criterion_of(line)?;
    let holds = match call {
        "matches_named" => is_named_matched(line, &criterion),
        "link_matches" => is_link_matched(line, &criterion),
        _ => is_endpoint_matched(line, &criterion),
    };
    line.put(yes_or_no(holds));
    Ok(())
}
