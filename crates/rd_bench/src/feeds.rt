//! Messages of 64 octets, fed to a reader.

use bench_rows::{Sample, Trouble};
use rd_base::Bytes;
use std::alloc::Global;
use stream_reader::{Fed, StreamReader};

/// The number of messages that a round feeds.
const MESSAGES: u64 = 16_384;

/// The number of octets that a round feeds.
const OCTETS: u64 = MESSAGES * 64;

/// A CSM (RFC 8323 section 5.3).
const SETTINGS: [u8; 2] = [0x00, 0xe1];

/// A lookup of 64 octets with two queries, and a payload that has no meaning for it.
const LOOKUP: [u8; 64] =
    *b"\xd2\x2e\x01\x00\x01\xb9rd-lookup\x03res\x4d\x08rt=core.rd-lookup-res\x06d=dom1\xffabcdefghijklmn";

/// Returns the messages of a round.
fn messages(alloc: Global) -> Result<Bytes, Trouble> {
    let mut octets = Bytes::new(alloc);
    for _ in 0..MESSAGES {
        octets.append(&LOOKUP)?;
    }
    Ok(octets)
}

/// Feeds a piece until all of it is taken. Returns how many messages it completed.
fn feed_all(reader: &mut StreamReader, piece: &[u8]) -> u64 {
    let mut rest = piece;
    let mut whole = 0;
    for _ in 0..piece.len() {
        if rest.is_empty() {
            return whole;
        }
        match reader.feed(rest) {
            Fed::Whole(count) => {
                rest = &rest[count..];
                whole = u64::wrapping_add(whole, 1);
            }
            Fed::More => return whole,
            Fed::Bad(_, _) => return whole,
        }
    }
    whole
}

/// Feeds octets in pieces of one size. Returns how many messages they completed.
fn feed_in_pieces(octets: &[u8], size: usize) -> u64 {
    let mut reader = StreamReader::new();
    let mut whole = feed_all(&mut reader, &SETTINGS);
    for piece in octets.chunks(size.max(1)) {
        whole = u64::wrapping_add(whole, feed_all(&mut reader, piece));
    }
    whole
}

/// Messages in pieces; the time of a message is measured.
#[derive(Drop)]
pub struct Pieces {
    octets: Bytes,
    size: usize,
}

impl Sample for Pieces {
    const CALLS: u64 = MESSAGES;

    fn make(alloc: Global, size: u64) -> Result<Pieces, Trouble> {
        let octets = messages(alloc)?;
        Ok(Pieces {
            octets,
            size: size as usize,
        })
    }

    fn round(&mut self) -> Result<u64, Trouble> {
        Ok(feed_in_pieces(self.octets.as_slice(), self.size))
    }
}

/// Messages in pieces; the time of an octet is measured.
#[derive(Drop)]
pub struct Octets {
    octets: Bytes,
    size: usize,
}

impl Sample for Octets {
    const CALLS: u64 = OCTETS;

    fn make(alloc: Global, size: u64) -> Result<Octets, Trouble> {
        let octets = messages(alloc)?;
        Ok(Octets {
            octets,
            size: size as usize,
        })
    }

    fn round(&mut self) -> Result<u64, Trouble> {
        Ok(feed_in_pieces(self.octets.as_slice(), self.size))
    }
}
