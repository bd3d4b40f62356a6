//! Messages that are written to a connection.
ghost use Rattle.std.specs.Prelude.{◌≡◌, ◌+◌, ◌*◌, ◌<◌, ◌≤◌};
ghost use Rattle.std.specs.Prelude.{◌∷◌, ◌++◌, length, take};
ghost use Rattle.message_model.specs.Spelling.{payload_spelling};
ghost use Rattle.stream_model.specs.Messages as messages;
ghost use Rattle.coap_stream.specs.Spoken.{FitsRoom, IsPut, frame_spelling};

use message_model::{MAX_MESSAGE_SIZE, PAYLOAD_MARKER};
use rd_base::{Sink, write_all};
use stream_model::{FIRST_EXTENDED, FIRST_LONG};
use stream_reader::Frame;

/// The most octets of a message that is written: those of a datagram, and four for the lengths.
pub(crate) const MAX_SPOKEN: usize = MAX_MESSAGE_SIZE + 4;

/// Puts octets at an index, and returns the index after them.
pub(crate) fn put_octets(octets: &mut [u8], at: usize, piece: &[u8]) -> usize
    requires { at + length piece.now ≤ length octets.old }
    ensures end { result ≡ at + length piece.now }
    ensures put { take result octets.new ≡ take at octets.old ++ piece.now }
{
    octets[at..at + piece.len()].copy_from_slice(piece);
    at + piece.len()
}

/// Puts the lengths of a message with a token and a tail of these numbers of octets, and returns
/// the index after them (RFC 8323 section 3.2).
#[rattlefmt::skip]
#[tactic(
    auto,
    unfolding(
        stream_model::specs::Messages::nibble_of,
        stream_model::specs::Messages::extension_of
    )
)]
pub(crate) fn put_lengths(octets: &mut [u8], token: usize, tail: usize) -> usize
    requires room { 4 ≤ length octets.old }
    requires token { token < 16 }
    requires tail { tail ≤ 1280 }
    ensures few { result ≤ 3 }
    ensures put { take result octets.new
        ≡ (messages.nibble_of tail * 16 + token) ∷ messages.extension_of tail }
{
    if tail < FIRST_EXTENDED {
        return put_octets(octets, 0, &[(tail * 16 + token) as u8]);
    }
    if tail < FIRST_LONG {
        let more = (tail - FIRST_EXTENDED) as u8;
        return put_octets(octets, 0, &[(13 * 16 + token) as u8, more]);
    }
    let long = tail - FIRST_LONG;
    let first = (14 * 16 + token) as u8;
    put_octets(octets, 0, &[first, (long / 256) as u8, (long % 256) as u8])
}

/// Returns how many octets a payload takes, including its marker (RFC 7252 section 3).
#[tactic(auto, unfolding(message_model::specs::Spelling::payload_spelling))]
fn payload_size(payload: &[u8]) -> usize
    requires { length payload.now ≤ 1280 }
    ensures value { result ≡ length (payload_spelling payload.now) }
    ensures few { result ≤ length payload.now + 1 }
{
    let [_first, _rest @ ..] = payload else {
        return 0;
    };
    payload.len() + 1
}

/// Puts a payload with its marker, and returns the index after it. An empty payload has no marker
/// (RFC 7252 section 3).
#[tactic(auto, unfolding(message_model::specs::Spelling::payload_spelling))]
fn put_payload(octets: &mut [u8], at: usize, payload: &[u8]) -> usize
    requires { at + length (payload_spelling payload.now) ≤ length octets.old }
    ensures end { result ≡ at + length (payload_spelling payload.now) }
    ensures put { take result octets.new ≡ take at octets.old ++ payload_spelling payload.now }
{
    let [_first, _rest @ ..] = payload else {
        return at;
    };
    let behind = put_octets(octets, at, &[PAYLOAD_MARKER]);
    put_octets(octets, behind, payload)
}

/// Puts a message, and returns its length (RFC 8323 section 3.2).
fn put_frame(octets: &mut [u8; MAX_SPOKEN], frame: &Frame<'_>) -> usize
    requires { FitsRoom frame.now }
    ensures few { result ≤ 1284 }
    ensures put { take result octets.new ≡ frame_spelling frame.now }
{
    let tail = frame.options.len() + payload_size(frame.payload);
    let lengths = put_lengths(octets, frame.token.len(), tail);
    let code = put_octets(octets, lengths, &[frame.code]);
    let token = put_octets(octets, code, frame.token);
    let options = put_octets(octets, token, frame.options);
    put_payload(octets, options, frame.payload)
}

/// Writes a message (RFC 8323 section 3.2). Returns false if the output failed; a prefix of the
/// message was written then.
///
/// # Requires
///
/// The token has at most 8 octets. Token, options and payload have at most 1,276 octets together.
pub fn write_frame<K: Sink>(out: &mut K, frame: &Frame<'_>) -> bool
    requires { FitsRoom frame.now }
    ensures { IsPut (K.holds out.old) (K.holds out.new) (K.faults out.old) (K.faults out.new)
        (frame_spelling frame.now) result }
{
    let mut octets = [0u8; MAX_SPOKEN];
    let end = put_frame(&mut octets, frame);
    write_all(out, &octets[..end])
}
