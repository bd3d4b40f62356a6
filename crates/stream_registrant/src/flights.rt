//! What is written to a connection.
ghost use Rattle.std.specs.Prelude.{◌≡◌, ◌+◌, ◌*◌, ◌<◌, ◌≤◌, ℕ, List};
ghost use Rattle.std.specs.Prelude.{◌∷◌, ◌++◌, [], length, take, IfOk, IfSome};
ghost use Rattle.message_model.specs.Spelling.{spelling};
ghost use Rattle.stream_model.specs.Messages as messages;
ghost use Rattle.client_model.specs.declared.asks.TheConstants.{TOKEN_SIZE};
ghost use Rattle.client_model.specs.declared.asks.Ask.{Ask};
ghost use Rattle.client_model.specs.Requests.{CanBeSent, message_of};
ghost use Rattle.stream_registrant.specs.Saying as saying;
ghost use Rattle.stream_registrant.specs.Saying.{IsBegun, IsFlight, IsSaid, voice_seen};

use crate::Unanswered;
use client_model::{Ask, TOKEN_SIZE};
use message_model::MAX_MESSAGE_SIZE;
use rd_base::{Moment, Sink, Starved, write_all};
use registrant::{Talk, ask_again};
use std::alloc::Global;
use stream_model::signals::{ABORT, CSM, PONG};
use stream_model::{FIRST_EXTENDED, FIRST_LONG, MAX_STREAM_MESSAGE};

/// The most octets that are written at once: those of a CSM and of a datagram.
pub(crate) const MAX_FLIGHT: usize = MAX_MESSAGE_SIZE + 2;

/// Puts octets at an index, and returns the index after them.
fn put_octets(octets: &mut [u8], at: usize, piece: &[u8]) -> usize
    requires { at + length piece.now ≤ length octets.old }
    ensures end { result ≡ at + length piece.now }
    ensures put { take result octets.new ≡ take at octets.old ++ piece.now }
{
    octets[at..at + piece.len()].copy_from_slice(piece);
    at + piece.len()
}

/// Puts the lengths of a message with a token and a tail of these numbers of octets, and returns
/// the index after them (RFC 8323 section 3.2).
#[rattlefmt::skip]
#[tactic(
    auto,
    unfolding(
        stream_model::specs::Messages::nibble_of,
        stream_model::specs::Messages::extension_of
    )
)]
fn put_lengths(octets: &mut [u8], at: usize, token: usize, tail: usize) -> usize
    requires room { at + 3 ≤ length octets.old }
    requires token { token < 16 }
    requires tail { tail ≤ 1280 }
    ensures few { (at ≤ result) × (result ≤ at + 3) }
    ensures put { take result octets.new
        ≡ take at octets.old
        ++ ((messages.nibble_of tail * 16 + token) ∷ messages.extension_of tail) }
{
    if tail < FIRST_EXTENDED {
        return put_octets(octets, at, &[(tail * 16 + token) as u8]);
    }
    if tail < FIRST_LONG {
        let more = (tail - FIRST_EXTENDED) as u8;
        return put_octets(octets, at, &[(13 * 16 + token) as u8, more]);
    }
    let long = tail - FIRST_LONG;
    let first = (14 * 16 + token) as u8;
    put_octets(octets, at, &[first, (long / 256) as u8, (long % 256) as u8])
}

/// Puts the CSM that begins a connection, unless it was sent before, and returns the index after it
/// (RFC 8323 section 5.3).
#[rattlefmt::skip]
#[tactic(
    auto,
    unfolding(
        stream_model::specs::Messages::nibble_of,
        stream_model::specs::Messages::extension_of,
        stream_model::specs::Messages::lengths_spelling
    )
)]
fn put_opening(octets: &mut [u8], is_open: bool) -> usize
    requires { 2 ≤ length octets.old }
    ensures few { result ≤ 2 }
    ensures put { take result octets.new ≡ saying.opening is_open }
{
    if is_open {
        return 0;
    }
    put_octets(octets, 0, &[0, CSM])
}

/// Puts the message of a request, by its code and its datagram, and returns the index after it (RFC
/// 8323 section 3.2).
fn put_request(octets: &mut [u8], at: usize, code: u8, datagram: &[u8]) -> usize
    requires room { at + length datagram.now ≤ length octets.old }
    requires least { 12 ≤ length datagram.now }
    requires most { length datagram.now ≤ 1280 }
    ensures few { (at ≤ result) × (result ≤ at + length datagram.now) }
    ensures put { (ask : Ask) (token : List ℕ)
        → length token ≡ TOKEN_SIZE
        → code ≡ ask.code
        → datagram.now ≡ spelling (message_of ask 0 token)
        → take result octets.new ≡ take at octets.old ++ saying.request_octets ask token }
{
    let rest = &datagram[4..];
    let lengths = put_lengths(octets, at, TOKEN_SIZE, rest.len() - TOKEN_SIZE);
    let behind = put_octets(octets, lengths, &[code]);
    put_octets(octets, behind, rest)
}

/// Returns the talk of an ask with this token, whose datagram is the request in the form of a
/// confirmable message.
fn talk_of(alloc: Global, ask: &Ask, token: &[u8; TOKEN_SIZE]) -> Result<Talk, Starved>
    requires { CanBeSent ask.now }
    ensures { IfOk result (λ talk. talk.octets ≡ spelling (message_of ask.now 0 token.now)) }
{
    let ask = ask_again(alloc, ask)?;
    Talk::start(alloc, ask, 0, *token, Moment(0), 0)
}

/// Puts a CSM, unless it was sent before, and then the message of a request by its code and its
/// datagram. Returns the index after them, or `None` if the message has more than 1,152 octets.
fn put_flight(
    octets: &mut [u8; MAX_FLIGHT],
    is_open: bool,
    code: u8,
    datagram: &[u8],
) -> Option<usize>
    requires least { 12 ≤ length datagram.now }
    requires most { length datagram.now ≤ 1280 }
    ensures few { IfSome result (λ end. end ≤ 1282) }
    ensures put { (ask : Ask) (token : List ℕ)
        → length token ≡ TOKEN_SIZE
        → code ≡ ask.code
        → datagram.now ≡ spelling (message_of ask 0 token)
        → IsFlight is_open ask token result octets.new }
{
    let opening = put_opening(octets, is_open);
    let end = put_request(octets, opening, code, datagram);
    if end - opening > MAX_STREAM_MESSAGE {
        return None;
    }
    Some(end)
}

/// Writes a CSM, unless it was sent before, and then the message of a request.
pub(crate) fn begin<K: Sink>(
    alloc: Global,
    is_open: bool,
    ask: &Ask,
    token: &[u8; TOKEN_SIZE],
    out: &mut K,
) -> Result<(), Unanswered>
    requires { CanBeSent ask.now }
    ensures { IsBegun (saying.opening is_open) (saying.request_octets ask.now token.now)
        (voice_seen K.Sink.own out.old) (voice_seen K.Sink.own out.new) result }
{
    let Ok(talk) = talk_of(alloc, ask, token) else {
        return Err(Unanswered::Starved);
    };
    let mut octets = [0u8; MAX_FLIGHT];
    let Some(end) = put_flight(&mut octets, is_open, ask.code, talk.bytes()) else {
        return Err(Unanswered::Size);
    };
    if !write_all(out, &octets[..end]) {
        return Err(Unanswered::Write);
    }
    Ok(())
}

/// Puts a Pong with this token, and returns the index after it (RFC 8323 section 5.4).
#[rattlefmt::skip]
#[tactic(
    auto,
    unfolding(
        stream_model::specs::Messages::nibble_of,
        stream_model::specs::Messages::extension_of,
        stream_model::specs::Messages::lengths_spelling
    )
)]
fn put_pong(octets: &mut [u8; 17], token: &[u8]) -> usize
    requires { length token.now < 16 }
    ensures few { result ≤ 17 }
    ensures put { take result octets.new ≡ saying.pong token.now }
{
    let lengths = put_octets(octets, 0, &[token.len() as u8, PONG]);
    put_octets(octets, lengths, token)
}

/// Writes a Pong with this token (RFC 8323 section 5.4). Returns whether no write failed.
pub(crate) fn say_pong<K: Sink>(out: &mut K, token: &[u8]) -> bool
    requires { length token.now < 16 }
    ensures { IsSaid (saying.pong token.now) (voice_seen K.Sink.own out.old)
        (voice_seen K.Sink.own out.new) result }
{
    let mut octets = [0u8; 17];
    let end = put_pong(&mut octets, token);
    write_all(out, &octets[..end])
}

/// Writes an Abort (RFC 8323 section 5.6). Returns whether no write failed.
pub(crate) fn say_abort<K: Sink>(out: &mut K) -> bool
    ensures { IsSaid saying.abort (voice_seen K.Sink.own out.old)
        (voice_seen K.Sink.own out.new) result }
{
    write_all(out, &[0, ABORT])
}
