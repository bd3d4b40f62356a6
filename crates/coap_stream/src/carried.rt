//! Datagrams of a seat, written to a connection.
ghost use Rattle.std.specs.Prelude.{◌≡◌, ◌+◌, ◌-◌, ◌*◌, ◌≤◌};
ghost use Rattle.std.specs.Prelude.{◌∷◌, ◌++◌, drop, length, take};
ghost use Rattle.std.specs.Prelude.{Ok, []};
ghost use Rattle.message_model.specs.Codes as codes_of;
ghost use Rattle.message_model.specs.Reading.{reading};
ghost use Rattle.message_model.specs.Spelling.{spelling};
ghost use Rattle.coap_message.specs.Views.{message_in};
ghost use Rattle.stream_model.specs.Messages as messages;
ghost use Rattle.event_model.specs.Same.{is_same_peer};
ghost use Rattle.coap_stream.specs.Made.{Speaks, voice_seen};
ghost use Rattle.coap_stream.specs.Spoken.{FitsRoom, IsPut, frame_spelling};
ghost use Rattle.coap_stream.specs.Manners.{saying};
ghost use Rattle.coap_stream.specs.Talks as spec;

use crate::lines::{Line, Manner};
use crate::spoken::{MAX_SPOKEN, put_lengths, put_octets, write_frame};
use coap_message::{View, view};
use message_model::MAX_MESSAGE_SIZE;
use message_model::codes::INTERNAL_SERVER_ERROR;
use rd_base::{Peer, Sink, write_all};
use rd_desk::Outbox;
use stream_reader::Frame;

/// Writes a message, if no write failed before. Returns whether none has failed.
pub(crate) fn say<K: Sink>(out: &mut K, still: bool, frame: &Frame<'_>) -> bool
    requires { FitsRoom frame.now }
    ensures { Speaks (voice_seen K.Sink.own out.old still) (frame_spelling frame.now)
        (voice_seen K.Sink.own out.new result) }
{
    if !still {
        return false;
    }
    write_frame(out, frame)
}

/// Returns whether a message of `size` octets has more than these, where there is a limit.
fn is_beyond(most: Option<u64>, size: usize) -> bool
    ensures { result ≡ spec.is_beyond most size }
{
    match most {
        Some(most) => most < size as u64,
        None => false,
    }
}

/// Returns the response that is written where another one is too long: 5.00 with this token (RFC
/// 7252 section 5.9.3.1).
fn too_long(token: &[u8]) -> Frame<'_>
    requires { length token.now ≤ 8 }
    ensures fits { FitsRoom result }
    ensures octets { frame_spelling result
        ≡ saying codes_of.internal_server_error token.now [] }
{
    Frame {
        code: INTERNAL_SERVER_ERROR,
        token,
        options: b"",
        payload: b"",
    }
}

/// Puts a message with this code into `octets`, and returns its length. `body` is a token of
/// `token` octets, followed by the rest of the message.
fn put_body(octets: &mut [u8; MAX_SPOKEN], code: u8, token: usize, body: &[u8]) -> usize
    requires token { token ≤ 8 }
    requires within { token ≤ length body.now }
    requires short { length body.now ≤ 1276 }
    ensures few { result ≤ 1284 }
    ensures put { take result octets.new
        ≡ ((messages.nibble_of (length body.now - token) * 16 + token)
        ∷ messages.extension_of (length body.now - token)) ++ (code ∷ body.now) }
{
    let lengths = put_lengths(octets, token, body.len() - token);
    let behind = put_octets(octets, lengths, &[code]);
    put_octets(octets, behind, body)
}

/// Returns the octets of a datagram after its header (RFC 7252 section 3).
fn behind_header(datagram: &[u8]) -> &[u8]
    requires { 4 ≤ length datagram.now }
    ensures { result.now ≡ drop 4 datagram.now }
{
    &datagram[4..]
}

/// Puts the message of a datagram without its type and Message ID, and returns its length (RFC 8323
/// section 3.2).
fn put_view(octets: &mut [u8; MAX_SPOKEN], view: &View<'_>, datagram: &[u8]) -> usize
    requires spelled { spelling (message_in view.now) ≡ datagram.now }
    requires short { length datagram.now ≤ 1280 }
    ensures few { result ≤ 1284 }
    ensures put { take result octets.new ≡ spec.carried (message_in view.now) }
{
    put_body(
        octets,
        view.code,
        view.token.octets.len(),
        behind_header(datagram),
    )
}

/// Writes the message of a datagram without its type and Message ID (RFC 8323 section 3.2), or 5.00
/// with its token if it has more than `most` octets, where there is such a limit (RFC 8323 section
/// 5.3.1). Returns false if the output failed.
fn write_view<K: Sink>(out: &mut K, most: Option<u64>, view: &View<'_>, datagram: &[u8]) -> bool
    requires spelled { spelling (message_in view.now) ≡ datagram.now }
    requires read { reading datagram.now ≡ Ok (message_in view.now) }
    requires short { length datagram.now ≤ 1280 }
    requires token { length view.now.token.octets.now ≤ 8 }
    ensures { IsPut (K.holds out.old) (K.holds out.new) (K.faults out.old) (K.faults out.new)
        (spec.carried_within most datagram.now) result }
{
    let mut octets = [0u8; MAX_SPOKEN];
    let end = put_view(&mut octets, view, datagram);
    if is_beyond(most, end) {
        return write_frame(out, &too_long(view.token.octets));
    }
    write_all(out, &octets[..end])
}

/// Writes a datagram in that form. Returns false if the output failed.
fn write_datagram<K: Sink>(out: &mut K, most: Option<u64>, datagram: &[u8]) -> bool
    ensures { IsPut (K.holds out.old) (K.holds out.new) (K.faults out.old) (K.faults out.new)
        (spec.carried_within most datagram.now) result }
{
    if datagram.len() > MAX_MESSAGE_SIZE {
        return true;
    }
    let Ok(view) = view(datagram) else {
        return true;
    };
    write_view(out, most, &view, datagram)
}

/// Writes a datagram in that form, if no write failed before. Returns whether none has failed.
fn carry<K: Sink>(out: &mut K, still: bool, most: Option<u64>, datagram: &[u8]) -> bool
    ensures { Speaks (voice_seen K.Sink.own out.old still) (spec.carried_within most datagram.now)
        (voice_seen K.Sink.own out.new result) }
{
    if !still {
        return false;
    }
    write_datagram(out, most, datagram)
}

/// Returns whether both are the same peer.
fn is_peer(one: &Peer, other: &Peer) -> bool
    ensures { result ≡ is_same_peer one.now other.now }
{
    *one == *other
}

/// Returns how many octets a message may have, if the manner keeps to it.
fn most_by(manner: Manner, most: u64) -> Option<u64>
    ensures { result ≡ spec.most_by manner most }
{
    match manner {
        Manner::Plain => None,
        Manner::Full => Some(most),
    }
}

/// Writes a datagram, if it is for the peer of the line and no write failed before. Returns whether
/// none has failed.
fn carry_for<K: Sink>(
    out: &mut K,
    still: bool,
    line: &Line,
    most: u64,
    to: &Peer,
    datagram: &[u8],
) -> bool
    ensures { Speaks (voice_seen K.Sink.own out.old still)
        (spec.reply_of line.now most (to.now, datagram.now))
        (voice_seen K.Sink.own out.new result) }
{
    if !is_peer(to, &line.peer) {
        return still;
    }
    carry(out, still, most_by(line.manner, most), datagram)
}

/// Writes the datagrams for the peer of the line, in order, if no write failed before. Returns
/// whether none has failed.
pub(crate) fn carry_all<K: Sink>(
    out: &mut K,
    still: bool,
    line: &Line,
    most: u64,
    outbox: &Outbox,
) -> bool
    ensures { Speaks (voice_seen K.Sink.own out.old still)
        (spec.replies_to line.now most outbox.now)
        (voice_seen K.Sink.own out.new result) }
{
    let mut holds = still;
    let mut index = 0;
    'datagrams: while index < outbox.len() {
        let Some((to, datagram)) = outbox.at(index) else {
            unreachable!()
        };
        holds = carry_for(out, holds, line, most, &to, datagram);
        index += 1;
    }
    holds
}
