//! The results of a reader of streams, however the octets are cut.

use crate::frames::{bad_name, put_message};
use rd_base::Starved;
use std::alloc::Global;
use stream_reader::{Fed, StreamReader};
use vector_words::{NoAnswer, datagram_of};

/// Feeds a piece until all of it is taken, and writes each message. Returns the result of the last
/// feed, or `None` if no feed was needed.
fn put_messages(
    page: &mut String,
    reader: &mut StreamReader,
    piece: &[u8],
) -> Result<Option<Fed>, Starved> {
    let mut rest = piece;
    let mut last = None;
    'feeds: for _ in 0..piece.len() {
        if rest.is_empty() {
            return Ok(last);
        }
        match reader.feed(rest) {
            Fed::Whole(count) => {
                put_message(page, reader)?;
                page.push_str("; ")?;
                rest = &rest[count..];
                last = Some(Fed::Whole(count));
            }
            Fed::More => return Ok(Some(Fed::More)),
            Fed::Bad(count, why) => return Ok(Some(Fed::Bad(count, why))),
        }
    }
    Ok(last)
}

/// Writes how a stream ends after its last feed: within a message, between two, or with a bad one.
fn put_end(page: &mut String, last: Option<Fed>) -> Result<(), Starved> {
    match last {
        None => page.push_str("nothing")?,
        Some(Fed::More) => page.push_str("cut")?,
        Some(Fed::Whole(_)) => page.push_str("closed")?,
        Some(Fed::Bad(_, why)) => {
            page.push_str("bad ")?;
            page.push_str(bad_name(why))?;
        }
    }
    Ok(())
}

/// Returns the messages and the end of octets in two pieces.
fn in_two(alloc: Global, octets: &[u8], at: usize) -> Result<String, Starved> {
    let mut page = String::new(alloc);
    let mut reader = StreamReader::new();
    let (front, back) = octets.split_at(usize::min(at, octets.len()));
    let first = put_messages(&mut page, &mut reader, front)?;
    let second = put_messages(&mut page, &mut reader, back)?;
    put_end(&mut page, second.or(first))?;
    Ok(page)
}

/// Returns the messages and the end of octets that are fed one by one.
fn one_by_one(alloc: Global, octets: &[u8]) -> Result<String, Starved> {
    let mut page = String::new(alloc);
    let mut reader = StreamReader::new();
    let mut last = None;
    'octets: for octet in octets {
        last = put_messages(&mut page, &mut reader, &[*octet])?;
    }
    put_end(&mut page, last)?;
    Ok(page)
}

/// Returns the first offset at which octets can be cut so that the text differs.
fn first_other(alloc: Global, octets: &[u8], whole: &str) -> Result<Option<usize>, Starved> {
    'cuts: for at in 0..octets.len() {
        if in_two(alloc, octets, at)?.as_str() != whole {
            return Ok(Some(at));
        }
    }
    Ok(None)
}

/// Answers `cuts HEX`: the messages and the end of octets, if they are the same for each cutting
/// into two and for single octets, or else the first difference.
pub(crate) fn cuts(alloc: Global, said: &str) -> Result<String, NoAnswer> {
    let octets = datagram_of(alloc, said)?;
    let whole = in_two(alloc, octets.as_slice(), octets.len())?;
    if let Some(at) = first_other(alloc, octets.as_slice(), whole.as_str())? {
        return Ok(format!(in alloc; "another at {at}")?);
    }
    if one_by_one(alloc, octets.as_slice())?.as_str() != whole.as_str() {
        return Ok(format!(in alloc; "another octet by octet")?);
    }
    Ok(whole)
}
