//! Responses to the messages of a connection.
ghost use Rattle.std.specs.Prelude.{◌≡◌, ◌+◌, ◌≤◌, ◌<◌, ◌^◌, ◌∷◌, [], ℕ, Ok, length};
ghost use Rattle.std.specs.Prelude.{Some, false};
ghost use Rattle.std.specs.List.{list_any};
ghost use Rattle.message_model.specs.Message.{Opt};
ghost use Rattle.message_model.specs.Reading.{reading};
ghost use Rattle.message_model.specs.Spelling.{options_spelling, spelling};
ghost use Rattle.coap_answers.specs.Outboxes.{most_datagrams};
ghost use Rattle.stream_reader.specs.Shown.{frame_shown};
ghost use Rattle.coap_stream.specs.declared.lines.Manner.TheVariants as manner;
ghost use Rattle.coap_stream.specs.declared.purposes.Meant.TheVariants as meant;
ghost use Rattle.coap_stream.specs.Answered.{MessageDone, RequestDone};
ghost use Rattle.rd_seat.specs.Callers.{caller_seen};
ghost use Rattle.coap_stream.specs.Made.{IsAsked, Speaks, voice_seen};
ghost use Rattle.coap_stream.specs.Manners as manners;
ghost use Rattle.coap_stream.specs.Requests as requests;
ghost use Rattle.coap_stream.specs.Requests.{IsRequest, heard_as};
ghost use Rattle.coap_stream.specs.Talks as spec;

use crate::blocks::block_wanted;
use crate::calls::{Context, Tally, ask};
use crate::carried::say;
use crate::heard::{begin_request, begin_sized};
use crate::lines::Manner;
use crate::purposes::{Meant, meant_by};
use crate::refusing::{Unasked, why_unasked};
use crate::signals::has_custody;
use coap_answers::{refusal_code, refusal_diagnostic};
use coap_message::view;
use message_model::codes::{BAD_REQUEST, NOT_FOUND};
use rd_base::Sink;
use rd_seat::{Gate, Seat};
use std::sync::Wait;
use stream_model::signals::PONG;
use stream_reader::Frame;
use udp_link::Clock;

/// Returns the code of the response to a request that is answered without a seat (RFC 7252 section
/// 5.9).
fn unasked_code(why: Unasked) -> u8
    ensures { result ≡ requests.unasked_code why }
{
    match why {
        Unasked::Refused(refusal) => refusal_code(refusal),
        Unasked::Simple => NOT_FOUND,
        Unasked::Baseless => BAD_REQUEST,
    }
}

/// Returns the diagnostic payload of that response (RFC 7252 section 5.5.2).
fn unasked_diagnostic(why: Unasked) -> &'static [u8]
    ensures word { result.now ≡ requests.unasked_diagnostic why }
    ensures few { length result.now ≤ 6 }
{
    match why {
        Unasked::Refused(refusal) => refusal_diagnostic(refusal),
        Unasked::Simple => b"path",
        Unasked::Baseless => b"query",
    }
}

/// Writes a message without options, if no write failed before. Returns whether none has failed.
pub(crate) fn say_plain<K: Sink>(
    out: &mut K,
    still: bool,
    code: u8,
    token: &[u8],
    payload: &[u8],
) -> bool
    requires token { length token.now ≤ 8 }
    requires payload { length payload.now ≤ 6 }
    ensures { Speaks (voice_seen K.Sink.own out.old still)
        (manners.saying code token.now payload.now) (voice_seen K.Sink.own out.new result) }
{
    let frame = Frame {
        code,
        token,
        options: b"",
        payload,
    };
    say(out, still, &frame)
}

/// Writes a signal with one option and no payload, if no write failed before. Returns whether none
/// has failed.
pub(crate) fn say_with<K: Sink>(
    out: &mut K,
    still: bool,
    code: u8,
    token: &[u8],
    option: &[u8],
) -> bool
    requires token { length token.now ≤ 8 }
    requires option { length option.now ≤ 3 }
    ensures { (o : Opt) → option.now ≡ options_spelling 0 (o ∷ [])
        → Speaks (voice_seen K.Sink.own out.old still) (manners.saying_with code token.now o)
        (voice_seen K.Sink.own out.new result) }
{
    let frame = Frame {
        code,
        token,
        options: option,
        payload: b"",
    };
    say(out, still, &frame)
}

/// Answers a Ping with a Pong that has Custody if the Ping had it (RFC 8323 section 5.4.1).
fn say_full_pong<K: Sink>(out: &mut K, still: bool, frame: &Frame<'_>) -> bool
    requires token { length frame.now.token.now ≤ 8 }
    ensures { Speaks (voice_seen K.Sink.own out.old still)
        (manners.pong_by manner.Full (frame_shown frame.now))
        (voice_seen K.Sink.own out.new result) }
{
    if has_custody(frame) {
        return say_with(out, still, PONG, frame.token, b"\x20");
    }
    say_plain(out, still, PONG, frame.token, b"")
}

/// Answers a Ping with a Pong (RFC 8323 section 5.4).
fn say_pong<K: Sink>(out: &mut K, still: bool, manner: Manner, frame: &Frame<'_>) -> bool
    requires token { length frame.now.token.now ≤ 8 }
    ensures { Speaks (voice_seen K.Sink.own out.old still)
        (manners.pong_by manner (frame_shown frame.now))
        (voice_seen K.Sink.own out.new result) }
{
    match manner {
        Manner::Plain => say_plain(out, still, PONG, frame.token, b""),
        Manner::Full => say_full_pong(out, still, frame),
    }
}

/// Passes a request to the seat, which handles it as one that asks for blocks with this exponent.
fn ask_blocks<R: Wait, K: Sink, C: Clock, G: Gate>(
    context: &Context<R, G>,
    seat: &mut Seat,
    out: &mut K,
    clock: &mut C,
    tally: &mut Tally,
    frame: &Frame<'_>,
    exponent: u8,
)
    requires hall { seat.old.hall ≡ context.now.hall.now }
    requires few { tally.old.asked < 65_536 }
    requires room { tally.old.dropped ≤ 10 ^ 17 }
    requires request { IsRequest (frame_shown frame.now) }
    requires exponent { exponent ≤ 5 }
    requires unblocked { list_any manners.is_from_block2
        (heard_as tally.old.asked (frame_shown frame.now)).options ≡ false }
    ensures hall { seat.new.hall ≡ seat.old.hall }
    ensures made { (dropped : ℕ)
        × IsAsked context.now.line (tally.old.asked + 1) tally.old.most
        (spelling (manners.with_block (Some exponent)
        (heard_as tally.old.asked (frame_shown frame.now)))) dropped
        (caller_seen C.Clock.own seat.old clock.old) (caller_seen C.Clock.own seat.new clock.new)
        (voice_seen K.Sink.own out.old tally.old.still)
        (voice_seen K.Sink.own out.new tally.new.still)
        × (tally.new.dropped ≡ tally.old.dropped + dropped) × (dropped ≤ most_datagrams) }
    ensures asked { tally.new.asked ≡ tally.old.asked + 1 }
    ensures most { tally.new.most ≡ tally.old.most }
{
    let mut writer = begin_sized(frame, tally.asked as u16, exponent);
    let Ok(sized) = writer.finish(frame.payload) else {
        unreachable!()
    };
    ask(context, seat, out, clock, tally, sized);
}

/// Passes a request to the seat, which handles this datagram of it, or one that asks for smaller
/// blocks if the peer accepts only short messages.
fn ask_sized<R: Wait, K: Sink, C: Clock, G: Gate>(
    context: &Context<R, G>,
    seat: &mut Seat,
    out: &mut K,
    clock: &mut C,
    tally: &mut Tally,
    frame: &Frame<'_>,
    datagram: &[u8],
)
    requires hall { seat.old.hall ≡ context.now.hall.now }
    requires few { tally.old.asked < 65_536 }
    requires room { tally.old.dropped ≤ 10 ^ 17 }
    requires request { IsRequest (frame_shown frame.now) }
    requires spelled { datagram.now
        ≡ spelling (heard_as tally.old.asked (frame_shown frame.now)) }
    requires read { reading datagram.now
        ≡ Ok (heard_as tally.old.asked (frame_shown frame.now)) }
    ensures hall { seat.new.hall ≡ seat.old.hall }
    ensures made { (dropped : ℕ)
        × IsAsked context.now.line (tally.old.asked + 1) tally.old.most
        (spelling (manners.sized_by context.now.line.manner tally.old.most
        (heard_as tally.old.asked (frame_shown frame.now)))) dropped
        (caller_seen C.Clock.own seat.old clock.old) (caller_seen C.Clock.own seat.new clock.new)
        (voice_seen K.Sink.own out.old tally.old.still)
        (voice_seen K.Sink.own out.new tally.new.still)
        × (tally.new.dropped ≡ tally.old.dropped + dropped) × (dropped ≤ most_datagrams) }
    ensures asked { tally.new.asked ≡ tally.old.asked + 1 }
    ensures most { tally.new.most ≡ tally.old.most }
{
    let Ok(request) = view(datagram) else {
        unreachable!()
    };
    match block_wanted(context.line.manner, tally.most, &request) {
        Some(exponent) => ask_blocks(context, seat, out, clock, tally, frame, exponent),
        None => ask(context, seat, out, clock, tally, datagram),
    }
}

/// Answers a request, without a seat or by the seat, which handles this datagram of it.
fn answer_heard<R: Wait, K: Sink, C: Clock, G: Gate>(
    context: &Context<R, G>,
    seat: &mut Seat,
    out: &mut K,
    clock: &mut C,
    tally: &mut Tally,
    frame: &Frame<'_>,
    datagram: &[u8],
)
    requires hall { seat.old.hall ≡ context.now.hall.now }
    requires few { tally.old.asked < 65_536 }
    requires room { tally.old.dropped ≤ 10 ^ 17 }
    requires token { length frame.now.token.now ≤ 8 }
    requires request { IsRequest (frame_shown frame.now) }
    requires spelled { datagram.now
        ≡ spelling (heard_as tally.old.asked (frame_shown frame.now)) }
    requires read { reading datagram.now
        ≡ Ok (heard_as tally.old.asked (frame_shown frame.now)) }
    ensures hall { seat.new.hall ≡ seat.old.hall }
    ensures done { RequestDone context.now.line tally.old.asked tally.old.most
        (frame_shown frame.now)
        (requests.unasked_of (heard_as tally.old.asked (frame_shown frame.now)))
        (caller_seen C.Clock.own seat.old clock.old) (caller_seen C.Clock.own seat.new clock.new)
        (voice_seen K.Sink.own out.old tally.old.still)
        (voice_seen K.Sink.own out.new tally.new.still)
        tally.old.dropped tally.new.dropped }
    ensures asked { tally.new.asked ≡ tally.old.asked + requests.number_asked
        (requests.unasked_of (heard_as tally.old.asked (frame_shown frame.now))) }
    ensures most { tally.new.most ≡ tally.old.most }
{
    let Ok(request) = view(datagram) else {
        unreachable!()
    };
    match why_unasked(&request) {
        Some(why) => {
            let word = unasked_diagnostic(why);
            tally.still = say_plain(out, tally.still, unasked_code(why), frame.token, word);
        }
        None => ask_sized(context, seat, out, clock, tally, frame, datagram),
    }
}

/// Answers a request.
fn answer_request<R: Wait, K: Sink, C: Clock, G: Gate>(
    context: &Context<R, G>,
    seat: &mut Seat,
    out: &mut K,
    clock: &mut C,
    tally: &mut Tally,
    frame: &Frame<'_>,
)
    requires hall { seat.old.hall ≡ context.now.hall.now }
    requires few { tally.old.asked < 65_536 }
    requires room { tally.old.dropped ≤ 10 ^ 17 }
    requires request { IsRequest (frame_shown frame.now) }
    ensures hall { seat.new.hall ≡ seat.old.hall }
    ensures done { RequestDone context.now.line tally.old.asked tally.old.most
        (frame_shown frame.now)
        (requests.unasked_of (heard_as tally.old.asked (frame_shown frame.now)))
        (caller_seen C.Clock.own seat.old clock.old) (caller_seen C.Clock.own seat.new clock.new)
        (voice_seen K.Sink.own out.old tally.old.still)
        (voice_seen K.Sink.own out.new tally.new.still)
        tally.old.dropped tally.new.dropped }
    ensures asked { tally.new.asked ≡ tally.old.asked + requests.number_asked
        (requests.unasked_of (heard_as tally.old.asked (frame_shown frame.now))) }
    ensures most { tally.new.most ≡ tally.old.most }
{
    let mut writer = begin_request(frame, tally.asked as u16);
    let Ok(datagram) = writer.finish(frame.payload) else {
        unreachable!()
    };
    answer_heard(context, seat, out, clock, tally, frame, datagram);
}

/// Answers a message (RFC 8323 sections 3.4 and 5): a Ping with a Pong, and a request by the seat
/// or without one. Any other message gets no response.
pub(crate) fn answer<R: Wait, K: Sink, C: Clock, G: Gate>(
    context: &Context<R, G>,
    seat: &mut Seat,
    out: &mut K,
    clock: &mut C,
    tally: &mut Tally,
    frame: &Frame<'_>,
)
    requires hall { seat.old.hall ≡ context.now.hall.now }
    requires few { tally.old.asked < 65_536 }
    requires room { tally.old.dropped ≤ 10 ^ 17 }
    requires token { length frame.now.token.now ≤ 8 }
    requires request { requests.meant_by frame.now.code ≡ meant.Request
        → IsRequest (frame_shown frame.now) }
    ensures hall { seat.new.hall ≡ seat.old.hall }
    ensures done { MessageDone context.now.line tally.old.asked tally.old.most
        (frame_shown frame.now)
        (caller_seen C.Clock.own seat.old clock.old) (caller_seen C.Clock.own seat.new clock.new)
        (voice_seen K.Sink.own out.old tally.old.still)
        (voice_seen K.Sink.own out.new tally.new.still)
        tally.old.dropped tally.new.dropped }
    ensures asked { tally.new.asked
        ≡ tally.old.asked + spec.asked_by tally.old.asked (frame_shown frame.now) }
    ensures most { tally.new.most ≡ tally.old.most }
{
    match meant_by(frame.code) {
        Meant::Passed => {}
        Meant::Ping => {
            tally.still = say_pong(out, tally.still, context.line.manner, frame);
        }
        Meant::Release => {}
        Meant::Abort => {}
        Meant::Request => answer_request(context, seat, out, clock, tally, frame),
    }
}
