//! The results of a reader of streams, feed by feed.

use crate::frames::{bad_name, put_message};
use rd_base::Starved;
use std::alloc::Global;
use stream_reader::{Fed, StreamReader};
use vector_words::{NoAnswer, datagram_of};

/// Writes that a message is complete after this number of octets.
fn put_whole(page: &mut String, count: usize, reader: &StreamReader) -> Result<(), Starved> {
    write!(page, "whole {count}: ")?;
    put_message(page, reader)
}

/// Writes the result of the last feed of a piece, and whether there is a message all the same.
fn put_last(page: &mut String, word: &str, reader: &StreamReader) -> Result<(), Starved> {
    page.push_str(word)?;
    if reader.message().is_some() {
        page.push_str(", and a message")?;
    }
    Ok(())
}

/// Feeds a piece until all of it is taken, and writes the result of each feed.
fn put_feeds(page: &mut String, reader: &mut StreamReader, piece: &[u8]) -> Result<(), Starved> {
    let mut rest = piece;
    'feeds: for _ in 0..=piece.len() {
        match reader.feed(rest) {
            Fed::More => return put_last(page, "more", reader),
            Fed::Bad(count, why) => {
                let name = bad_name(why);
                write!(page, "bad {count} ")?;
                return put_last(page, name, reader);
            }
            Fed::Whole(count) => {
                put_whole(page, count, reader)?;
                rest = &rest[count..];
            }
        }
        if rest.is_empty() {
            return Ok(());
        }
        page.push_str("; ")?;
    }
    Ok(())
}

/// Answers `feed HEX ..`: the results of the pieces, one after the other.
pub(crate) fn feed(alloc: Global, said: &str) -> Result<String, NoAnswer> {
    let mut page = String::new(alloc);
    let mut reader = StreamReader::new();
    let mut is_next = false;
    'pieces: for word in said.split(' ') {
        let piece = datagram_of(alloc, word)?;
        if is_next {
            page.push_str(" / ")?;
        }
        is_next = true;
        put_feeds(&mut page, &mut reader, piece.as_slice())?;
    }
    Ok(page)
}
