//! Conversations: the messages of a connection, answered one after the other.
ghost use Rattle.std.specs.Prelude.{◌≡◌, ◌≤◌, ◌<◌, ◌*◌, ◌==◌, ◌^◌};
ghost use Rattle.std.specs.Prelude.{true, None, Some, [], length};
ghost use Rattle.std.specs.Prelude.{IfOk, IfSome};
ghost use Rattle.stream_model.specs.Streams.{IsGood};
ghost use Rattle.stream_reader.specs.Shown.{message_of};
ghost use Rattle.rd_seat.specs.Callers.{caller_seen};
ghost use Rattle.coap_stream.specs.Made.{Speaks, voice_seen};
ghost use Rattle.coap_stream.specs.declared.lines.Line.{Line};
ghost use Rattle.coap_stream.specs.Manners as manners;
ghost use Rattle.coap_stream.specs.Requests as requests;
ghost use Rattle.coap_stream.specs.Talks as spec;
ghost use Rattle.coap_stream.specs.Asked.{asked_in};
ghost use Rattle.coap_stream.specs.Duplicates.{AreNew};
ghost use Rattle.coap_stream.specs.Endings.{Attends, SourceSeen, TalkSeen, Talks, TalksOver};
ghost use Rattle.coap_stream.specs.Endings.{cause_by, source_seen, talk_seen};
ghost use Rattle.coap_stream.specs.Talking.{IsHeard, TalksSo, WasHeard, is_open, is_still, told_if};

use crate::answering::{answer, say_plain, say_with};
use crate::calls::{Context, Tally};
use crate::lines::{Line, Manner};
use crate::purposes::{Meant, meant_by};
use crate::signals::{bad_option, size_after};
use crate::talked::{TalkEnd, TalkFault, Talked};
use rd_base::{Got, Peer, Sink, Source};
use rd_desk::Outbox;
use rd_seat::{Gate, Hall, Seat};
use std::sync::Wait;
use stream_model::MAX_STREAM_MESSAGE;
use stream_model::signals::{ABORT, CSM, RELEASE};
use stream_reader::{Fed, StreamReader};
use udp_link::Clock;

/// The most requests that one conversation passes to its seat: the number of Message IDs.
const MOST_ASKED: u64 = 65_536;

/// Returns `Spent` if there is no number for one more request.
fn spent_by(asked: u64) -> Option<TalkEnd>
    ensures { result ≡ spec.end_by None (asked == spec.most_asked) }
{
    if asked == MOST_ASKED {
        return Some(TalkEnd::Spent);
    }
    None
}

/// Returns how a message with this code ends the conversation, if it does. `asked` requests have
/// been passed to the seat by then.
fn end_by(code: u8, asked: u64) -> Option<TalkEnd>
    ensures { result
        ≡ spec.end_by (spec.ends_by (requests.meant_by code)) (asked == spec.most_asked) }
{
    match meant_by(code) {
        Meant::Release => Some(TalkEnd::Released),
        Meant::Abort => Some(TalkEnd::Aborted),
        Meant::Passed => spent_by(asked),
        Meant::Ping => spent_by(asked),
        Meant::Request => spent_by(asked),
    }
}

/// The result of a piece.
#[derive(Clone, Copy)]
pub(crate) enum Heard {
    /// All of it was used. If nothing more comes, the conversation ends so.
    Open(TalkEnd),
    /// The conversation ends so.
    Ended(TalkEnd),
    /// A write failed.
    Failed,
}

/// Answers the message that is complete. Returns how the conversation ends with it, if it does.
fn hear_message<R: Wait, K: Sink, C: Clock, G: Gate>(
    context: &Context<R, G>,
    seat: &mut Seat,
    out: &mut K,
    clock: &mut C,
    tally: &mut Tally,
    reader: &StreamReader,
) -> Option<TalkEnd>
    requires hall { seat.old.hall ≡ context.now.hall.now }
    requires few { tally.old.asked < 65_536 }
    requires room { tally.old.dropped ≤ 1_152 * tally.old.asked }
    requires good { IsGood reader.now.is_first reader.now.pending }
    ensures hall { seat.new.hall ≡ seat.old.hall }
    ensures heard { WasHeard context.now.line (message_of reader.now) result
        (caller_seen C.Clock.own seat.old clock.old) (caller_seen C.Clock.own seat.new clock.new)
        (voice_seen K.Sink.own out.old tally.old.still)
        (voice_seen K.Sink.own out.new tally.new.still)
        (record { asked = tally.old.asked; dropped = tally.old.dropped; most = tally.old.most })
        (record { asked = tally.new.asked; dropped = tally.new.dropped; most = tally.new.most }) }
    ensures few { result ≡ None → tally.new.asked < 65_536 }
    ensures room { tally.new.dropped ≤ 1_152 * tally.new.asked }
{
    let Some(frame) = reader.message() else {
        unreachable!()
    };
    answer(context, seat, out, clock, tally, &frame);
    tally.most = size_after(tally.most, &frame);
    end_by(frame.code, tally.asked)
}

/// Answers the messages of a piece, up to the end of the conversation.
fn hear_piece<R: Wait, K: Sink, C: Clock, G: Gate>(
    context: &Context<R, G>,
    seat: &mut Seat,
    out: &mut K,
    clock: &mut C,
    tally: &mut Tally,
    reader: &mut StreamReader,
    piece: &[u8],
) -> Heard
    requires hall { seat.old.hall ≡ context.now.hall.now }
    requires still { tally.old.still ≡ true }
    requires few { tally.old.asked < 65_536 }
    requires room { tally.old.dropped ≤ 1_152 * tally.old.asked }
    requires some { 0 < length piece.now }
    ensures hall { seat.new.hall ≡ seat.old.hall }
    ensures still { tally.new.still ≡ is_still result }
    ensures few { is_open result ≡ true → tally.new.asked < 65_536 }
    ensures room { tally.new.dropped ≤ 1_152 * tally.new.asked }
    ensures heard { (before : TalkSeen) (source : SourceSeen)
        → TalksSo context.now.line before
        (talk_seen K.Sink.own C.Clock.own source seat.old out.old clock.old)
        (record { asked = tally.old.asked; dropped = tally.old.dropped; most = tally.old.most })
        reader.old piece.now
        → IsHeard result context.now.line before
        (talk_seen K.Sink.own C.Clock.own source seat.new out.new clock.new)
        (record { asked = tally.new.asked; dropped = tally.new.dropped; most = tally.new.most })
        reader.new }
{
    let mut rest = piece;
    'messages: while !rest.is_empty() {
        match reader.feed(rest) {
            Fed::More => return Heard::Open(TalkEnd::Cut),
            Fed::Bad(_, why) => return Heard::Ended(TalkEnd::Refused(why)),
            Fed::Whole(count) => {
                let end = hear_message(context, seat, out, clock, tally, reader);
                if !tally.still {
                    return Heard::Failed;
                }
                if let Some(end) = end {
                    return Heard::Ended(end);
                }
                rest = &rest[count..];
            }
        }
    }
    Heard::Open(TalkEnd::Closed)
}

/// Returns the number of the option that made the message bad which the reader holds (RFC 8323
/// section 5.2).
fn cause_in(reader: &StreamReader) -> Option<u32>
    ensures value { result ≡ manners.bad_option_in reader.now.pending }
    ensures small { IfSome result (λ number. (0 < number) × (number < 2 ^ 16)) }
{
    let Some(frame) = reader.shown() else {
        return None;
    };
    bad_option(&frame)
}

/// Writes an Abort that names an option of a CSM (RFC 8323 section 5.6), if no write failed before.
/// Returns whether none has failed.
fn say_bad_option<K: Sink>(out: &mut K, still: bool, number: u32) -> bool
    requires { (0 < number) × (number < 2 ^ 16) }
    ensures { Speaks (voice_seen K.Sink.own out.old still) (manners.abort_with (Some number))
        (voice_seen K.Sink.own out.new result) }
{
    if number < 256 {
        return say_with(out, still, ABORT, b"", &[0x21, number as u8]);
    }
    say_with(
        out,
        still,
        ABORT,
        b"",
        &[0x22, (number / 256) as u8, (number % 256) as u8],
    )
}

/// Writes an Abort after the bad message that the reader holds (RFC 8323 section 5.6), if no write
/// failed before. Returns whether none has failed.
fn say_abort<K: Sink>(out: &mut K, still: bool, manner: Manner, reader: &StreamReader) -> bool
    ensures { Speaks (voice_seen K.Sink.own out.old still)
        (manners.abort_by manner (manners.bad_option_in reader.now.pending))
        (voice_seen K.Sink.own out.new result) }
{
    match manner {
        Manner::Plain => say_plain(out, still, ABORT, b"", b""),
        Manner::Full => match cause_in(reader) {
            Some(number) => say_bad_option(out, still, number),
            None => say_plain(out, still, ABORT, b"", b""),
        },
    }
}

/// Ends the conversation so: a bad message is answered by an Abort, and the last possible request
/// is followed by a Release (RFC 8323 sections 5.5 and 5.6).
fn farewell<K: Sink>(
    out: &mut K,
    tally: &mut Tally,
    line: &Line,
    reader: &StreamReader,
    end: TalkEnd,
) -> Result<Talked, TalkFault>
    ensures speaks { Speaks (voice_seen K.Sink.own out.old tally.old.still)
        (spec.farewell line.now end (cause_by end reader.now))
        (voice_seen K.Sink.own out.new tally.new.still) }
    ensures told { result ≡ told_if tally.new.still (record {
      end = end;
      asked = tally.old.asked;
      dropped = tally.old.dropped;
    }) }
{
    match end {
        TalkEnd::Refused(_) => tally.still = say_abort(out, tally.still, line.manner, reader),
        TalkEnd::Spent => tally.still = say_plain(out, tally.still, RELEASE, b"", b""),
        TalkEnd::Closed => {}
        TalkEnd::Cut => {}
        TalkEnd::Released => {}
        TalkEnd::Aborted => {}
    }
    if !tally.still {
        return Err(TalkFault::Write);
    }
    Ok(Talked {
        end,
        asked: tally.asked,
        dropped: tally.dropped,
    })
}

/// Writes the CSM that begins a connection, if no write failed before (RFC 8323 section 5.3).
/// Returns whether none has failed.
fn open<K: Sink>(out: &mut K, still: bool, line: &Line) -> bool
    ensures { Speaks (voice_seen K.Sink.own out.old still) (spec.opening line.now)
        (voice_seen K.Sink.own out.new result) }
{
    match line.manner {
        Manner::Plain => say_plain(out, still, CSM, b"", b""),
        Manner::Full => say_with(out, still, CSM, b"", b"\x40"),
    }
}

/// Writes a CSM, and then answers piece after piece, to the end.
fn talk<R: Wait, S: Source, K: Sink, C: Clock, G: Gate>(
    context: &Context<R, G>,
    seat: &mut Seat,
    source: &mut S,
    out: &mut K,
    clock: &mut C,
    tally: &mut Tally,
) -> Result<Talked, TalkFault>
    requires hall { seat.old.hall ≡ context.now.hall.now }
    requires still { tally.old.still ≡ true }
    requires asked { tally.old.asked ≡ 0 }
    requires dropped { tally.old.dropped ≡ 0 }
    requires most { tally.old.most ≡ manners.usual_size }
    ensures hall { seat.new.hall ≡ seat.old.hall }
    ensures talks { TalksOver context.now.line
        (talk_seen K.Sink.own C.Clock.own (source_seen S.Source.own source.old)
        seat.old out.old clock.old)
        (talk_seen K.Sink.own C.Clock.own (source_seen S.Source.own source.new)
        seat.new out.new clock.new) result }
{
    let mut reader = StreamReader::new();
    let mut room = [0u8; MAX_STREAM_MESSAGE];
    let mut last = TalkEnd::Closed;
    tally.still = open(out, tally.still, &context.line);
    if !tally.still {
        return Err(TalkFault::Write);
    }
    'pieces: loop {
        let count = match source.read(&mut room) {
            Got::Bytes(count) => count,
            Got::Failed => return Err(TalkFault::Read),
        };
        if count == 0 {
            return farewell(out, tally, &context.line, &reader, last);
        }
        match hear_piece(
            context,
            seat,
            out,
            clock,
            tally,
            &mut reader,
            &room[..count],
        ) {
            Heard::Open(end) => last = end,
            Heard::Ended(end) => {
                return farewell(out, tally, &context.line, &reader, end);
            }
            Heard::Failed => return Err(TalkFault::Write),
        }
    }
}

/// Answers the messages of a connection over a line, up to its end.
fn hold<R: Wait + AllocGlobal, S: Source, K: Sink, C: Clock, G: Gate>(
    rt: &R,
    hall: &Hall,
    seat: &mut Seat,
    line: Line,
    source: &mut S,
    out: &mut K,
    clock: &mut C,
    gate: &G,
) -> Result<Talked, TalkFault>
    requires hall { seat.old.hall ≡ hall.now }
    ensures hall { seat.new.hall ≡ seat.old.hall }
    ensures talks { TalksOver line
        (talk_seen K.Sink.own C.Clock.own (source_seen S.Source.own source.old)
        seat.old out.old clock.old)
        (talk_seen K.Sink.own C.Clock.own (source_seen S.Source.own source.new)
        seat.new out.new clock.new) result }
    ensures counts { IfOk result (λ talked. IfSome (S.left source.old)
        (λ octets. talked.asked ≡ asked_in octets)) }
    ensures few { IfOk result (λ talked. talked.asked ≤ spec.most_asked) }
    ensures fresh { AreNew line.peer seat.old.seen seat.old.worker seat.new.seen }
{
    let Ok(outbox) = Outbox::make(rt.alloc()) else {
        return Err(TalkFault::Starved);
    };
    let context = Context {
        rt,
        hall,
        gate,
        line,
    };
    let mut tally = Tally {
        out: outbox,
        asked: 0,
        dropped: 0,
        most: MAX_STREAM_MESSAGE as u64,
        still: true,
    };
    talk(&context, seat, source, out, clock, &mut tally)
}

/// Answers the messages of a connection by a seat of the hall, up to its end (RFC 8323). Waits for
/// turns at the hall.
///
/// - A CSM is written before the first read.
/// - A Ping is answered by a Pong, and a bad message by an Abort.
/// - A request that is not for a seat ([`why_unasked`](crate::why_unasked)) is answered at once.
/// - The seat handles any other request, under the number of requests that it handled before. It
///   does the job of the request at once, and the replies are written.
/// - After each 64th request, time passes at the seat. The datagrams that come out are dropped.
///
/// Before each call of the seat, the clock is queried for a moment. For a request and for the
/// passing of time, it is also queried for a word.
///
/// No request is taken for a duplicate if the peer had no admission in the 247 seconds before, and
/// no other caller uses the peer (RFC 7252 section 4.8.2; `HasPeerAlone`).
///
/// # Requires
///
/// The seat is of this hall.
///
/// # Errors
///
/// - `Read` if a read failed.
/// - `Write` if a write failed.
/// - `Starved` if memory runs out, before the first read.
pub fn converse<R: Wait + AllocGlobal, S: Source, K: Sink, C: Clock, G: Gate>(
    rt: &R,
    hall: &Hall,
    seat: &mut Seat,
    peer: Peer,
    source: &mut S,
    out: &mut K,
    clock: &mut C,
    gate: &G,
) -> Result<Talked, TalkFault>
    requires hall { seat.old.hall ≡ hall.now }
    ensures hall { seat.new.hall ≡ seat.old.hall }
    ensures talks { Talks peer
        (talk_seen K.Sink.own C.Clock.own (source_seen S.Source.own source.old)
        seat.old out.old clock.old)
        (talk_seen K.Sink.own C.Clock.own (source_seen S.Source.own source.new)
        seat.new out.new clock.new) result }
    // If the source exposes its octets, they determine what was passed to the seat.
    ensures counts { IfOk result (λ talked. IfSome (S.left source.old)
        (λ octets. talked.asked ≡ asked_in octets)) }
    ensures few { IfOk result (λ talked. talked.asked ≤ spec.most_asked) }
    // If nothing but this connection uses the peer, no request is taken for a duplicate.
    ensures fresh { AreNew peer seat.old.seen seat.old.worker seat.new.seen }
{
    let line = Line {
        peer,
        manner: Manner::Plain,
    };
    hold(rt, hall, seat, line, source, out, clock, gate)
}

/// Answers the messages of a connection as [`converse`] does, and offers its peer more (RFC 8323
/// sections 5.3 to 5.6). Waits for turns at the hall.
///
/// - The CSM says that blocks are served (Block-Wise-Transfer).
/// - A message has no more octets than the peer accepts: 1,152, or as many as the Max-Message-Size
///   of its last CSM says, and 64 at least. If it accepts fewer than 1,088, a GET without Block2 is
///   handled as one that asks for blocks which fit. A response that is longer nevertheless is
///   replaced by 5.00.
/// - A Ping with Custody is answered by a Pong with Custody.
/// - If a critical option of a CSM was not understood, the Abort names it (Bad-CSM-Option).
/// - No time passes at the seat. The workers that serve over UDP let it pass.
///
/// # Requires
///
/// The seat is of this hall.
///
/// # Errors
///
/// - `Read` if a read failed.
/// - `Write` if a write failed.
/// - `Starved` if memory runs out, before the first read.
pub fn attend<R: Wait + AllocGlobal, S: Source, K: Sink, C: Clock, G: Gate>(
    rt: &R,
    hall: &Hall,
    seat: &mut Seat,
    peer: Peer,
    source: &mut S,
    out: &mut K,
    clock: &mut C,
    gate: &G,
) -> Result<Talked, TalkFault>
    requires hall { seat.old.hall ≡ hall.now }
    ensures hall { seat.new.hall ≡ seat.old.hall }
    ensures attends { Attends peer
        (talk_seen K.Sink.own C.Clock.own (source_seen S.Source.own source.old)
        seat.old out.old clock.old)
        (talk_seen K.Sink.own C.Clock.own (source_seen S.Source.own source.new)
        seat.new out.new clock.new) result }
    // If the source exposes its octets, they determine what was passed to the seat.
    ensures counts { IfOk result (λ talked. IfSome (S.left source.old)
        (λ octets. talked.asked ≡ asked_in octets)) }
    ensures few { IfOk result (λ talked. talked.asked ≤ spec.most_asked) }
    // If nothing but this connection uses the peer, no request is taken for a duplicate.
    ensures fresh { AreNew peer seat.old.seen seat.old.worker seat.new.seen }
{
    let line = Line {
        peer,
        manner: Manner::Full,
    };
    hold(rt, hall, seat, line, source, out, clock, gate)
}
