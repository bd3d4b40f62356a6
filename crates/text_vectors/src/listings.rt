//! The calls of `listing` on lookups (RFC 9176 section 6). A lookup is `KIND?OPTIONS`.
//!
//! - `matches LOOKUP INDEX RECORD`, `endpoint_listed LOOKUP RECORD`;
//! - `same_part LOOKUP OLD -> NEW`, each of which is a record or `-`;
//! - `lines LOOKUP SKIP MOST BEFORE RECORD`, in which `BEFORE` is the text before the lines;
//! - `discovery LOOKUP`, `page_bounds LOOKUP`.

use crate::pages::{begin, put_number};
use crate::queries::query_of;
use crate::records::record_of;
use listing::{discovery, endpoint_listed, lines, matches, page_bounds, same_part};
use rd_base::{Query, Record, Starved};
use vector_words::{Line, yes_or_no};

/// Writes whether a query lists the link at an index of a registration.
fn put_matched(line: &mut Line<'_>, query: &Query, record: &Record, index: usize) {
    if index < record.items.len() {
        line.put(yes_or_no(matches(query, record, index)));
    } else {
        line.refuse();
    }
}

/// Returns the registration in a text, or `None` for `-`.
fn record_in(line: &mut Line<'_>, said: &str) -> Option<Record> {
    if said == "-" {
        return None;
    }
    record_of(line, said)
}

/// Writes whether a query lists the same lines of two registrations.
fn put_same(line: &mut Line<'_>, query: &Query) {
    let (old, new) = line.said.split_once(" -> ").unwrap_or(("", ""));
    let old = record_in(line, old);
    let new = record_in(line, new);
    line.put(yes_or_no(same_part(query, old.as_ref(), new.as_ref())));
}

/// The lines of a registration that a line asks for.
#[derive(Clone, Copy)]
struct Shown {
    /// How many are skipped.
    skip: u64,
    /// The maximum number of lines.
    most: u64,
}

/// Writes the lines that a registration contributes to a query, after the numbers of those skipped
/// and written.
fn put_lines(
    line: &mut Line<'_>,
    query: &Query,
    record: &Record,
    shown: Shown,
    before: &str,
) -> Result<(), Starved> {
    let mut text = line.octets(before);
    let Shown { skip, most } = shown;
    let (skipped, written) = lines(line.alloc, query, record, skip, most, &mut text)?;
    put_number(line, "skipped", skipped);
    put_number(line, "written", written);
    begin(line);
    line.put_octets(text.as_slice());
    Ok(())
}

/// Writes how many lines precede a page, and the maximum number of its lines.
fn put_bounds(line: &mut Line<'_>, query: &Query) {
    let (skip, most) = page_bounds(query);
    put_number(line, "skip", skip);
    put_number(line, "most", most);
}

/// Writes the answer of a call on a lookup and a registration.
fn put_of_record(line: &mut Line<'_>, call: &str, query: &Query) -> Result<(), Starved> {
    let mut index = 0;
    let mut most = 0;
    let mut before = "";
    if call != "endpoint_listed" {
        index = line.number(u64::MAX);
    }
    if call == "lines" {
        most = line.number(u64::MAX);
        before = line.word();
    }
    let Some(record) = record_of(line, line.said) else {
        return Ok(());
    };
    match call {
        "matches" => put_matched(line, query, &record, index as usize),
        "lines" => return put_lines(line, query, &record, Shown { skip: index, most }, before),
        _ => line.put(yes_or_no(endpoint_listed(query, &record))),
    }
    Ok(())
}

/// Writes the answer of one of these calls.
pub(crate) fn put_answer(line: &mut Line<'_>, call: &str) -> Result<(), Starved> {
    let lookup = line.word();
    let Some(query) = query_of(line, lookup) else {
        return Ok(());
    };
    match call {
        "page_bounds" => put_bounds(line, &query),
        "same_part" => put_same(line, &query),
        "discovery" => {
            let text = discovery(line.alloc, &query)?;
            line.put_octets(text.as_slice());
        }
        _ => return put_of_record(line, call, &query),
    }
    Ok(())
}
