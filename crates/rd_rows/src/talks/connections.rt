//! The answers of a directory to connections, however their octets are cut.
ghost use Rattle.std.specs.Prelude.{◌≡◌, IfOk};

use super::pieces::{Cutting, Pieces};
use coap_stream::{StreamBad, TalkEnd, TalkFault, Talked, converse};
use rd_base::{Bytes, Host, MemSink, Peer, Starved};
use rd_seat::{Hall, OpenGate, Seat};
use std::sync::Wait;
use udp_link::{MemClock, Moments, Words};
use vector_words::{NoAnswer, datagram_of, put_datagram};

/// The maximum number of written octets that are shown. Of more, the number and the last two are
/// shown.
const MOST_SHOWN: usize = 1000;

/// The port of the first connection's peer. Each further connection has the next port.
const FIRST_PORT: u16 = 40_000;

/// Returns the name of the reason why a message is bad.
fn bad_name(why: StreamBad) -> &'static str {
    match why {
        StreamBad::Format => "format",
        StreamBad::Size => "size",
        StreamBad::First => "first",
        StreamBad::Code => "code",
        StreamBad::Signal => "signal",
    }
}

/// Returns the name of how a conversation ended.
fn end_name(end: TalkEnd) -> &'static str {
    match end {
        TalkEnd::Closed => "closed",
        TalkEnd::Cut => "cut",
        TalkEnd::Released => "released",
        TalkEnd::Aborted => "aborted",
        TalkEnd::Refused(why) => bad_name(why),
        TalkEnd::Spent => "spent",
    }
}

/// Writes the octets that were written, or their number.
fn put_written(page: &mut String, octets: &[u8]) -> Result<(), Starved> {
    if octets.len() <= MOST_SHOWN {
        return put_datagram(page, octets);
    }
    let count = octets.len();
    write!(page, "{count} octets, last ")?;
    put_datagram(page, &octets[count - 2..])
}

/// Writes how a conversation ended, and its counts.
fn put_outcome(page: &mut String, outcome: Result<Talked, TalkFault>) -> Result<(), Starved> {
    match outcome {
        Ok(talked) => {
            let end = end_name(talked.end);
            let (asked, dropped) = (talked.asked, talked.dropped);
            write!(page, "; {end}, {asked} asked, {dropped} dropped")?;
        }
        Err(TalkFault::Read) => page.push_str("; read failed")?,
        Err(TalkFault::Write) => page.push_str("; write failed")?,
        Err(TalkFault::Starved) => page.push_str("; starved")?,
    }
    Ok(())
}

/// Makes a new hall and its seat.
fn new_hall<R: Wait + AllocGlobal>(rt: &R) -> Result<(Hall, Seat), Starved>
    ensures { IfOk result (λ made. made.1.hall ≡ made.0) }
{
    let (hall, mut seats) = Hall::make(rt.alloc(), rt, 1)?;
    let Some(seat) = seats.take_first() else {
        unreachable!()
    };
    Ok((hall, seat))
}

/// Makes a connection from this port, with its octets cut like this, and writes the answer.
fn put_talk<R: Wait + AllocGlobal>(
    rt: &R,
    page: &mut String,
    hall: &Hall,
    seat: &mut Seat,
    port: u16,
    octets: &[u8],
    cutting: Cutting,
) -> Result<(), Starved>
    requires hall { seat.old.hall ≡ hall.now }
    ensures hall { seat.new.hall ≡ seat.old.hall }
{
    let alloc = rt.alloc();
    let peer = Peer {
        host: Host::V4([192, 0, 2, 10]),
        port,
    };
    let mut source = Pieces::of(octets, cutting);
    let mut out = MemSink::of(alloc, Bytes::new(alloc));
    let mut clock = MemClock::of(Moments::new(alloc), Words::new(alloc));
    let outcome = converse(
        rt,
        hall,
        seat,
        peer,
        &mut source,
        &mut out,
        &mut clock,
        &OpenGate,
    );
    put_written(page, out.as_slice())?;
    put_outcome(page, outcome)
}

/// Makes connections one after the other with one seat, each cut like this.
fn put_talks<R: Wait + AllocGlobal>(
    rt: &R,
    page: &mut String,
    hall: &Hall,
    seat: &mut Seat,
    said: &str,
    cutting: Cutting,
) -> Result<(), NoAnswer>
    requires hall { seat.old.hall ≡ hall.now }
{
    let mut port = FIRST_PORT;
    'connections: for word in said.split(' ') {
        let octets = datagram_of(rt.alloc(), word)?;
        if port > FIRST_PORT {
            page.push_str(" / ")?;
        }
        put_talk(rt, page, hall, seat, port, octets.as_slice(), cutting)?;
        port = port.saturating_add(1);
    }
    Ok(())
}

/// Returns the answers of a new directory to connections, each cut like this.
fn answered<R: Wait + AllocGlobal>(
    rt: &R,
    said: &str,
    cutting: Cutting,
) -> Result<String, NoAnswer> {
    let mut page = String::new(rt.alloc());
    let (hall, mut seat) = new_hall(rt)?;
    let put = put_talks(rt, &mut page, &hall, &mut seat, said, cutting);
    hall.end(rt);
    put?;
    Ok(page)
}

/// Each connection in one piece, as far as a read has room.
const WHOLE: Cutting = Cutting {
    first: 0,
    next: usize::MAX,
};

/// Each octet by itself.
const SINGLE: Cutting = Cutting { first: 0, next: 1 };

/// Returns the answers of a new directory to connections, one after the other: `talk CONNECTION
/// ..`.
pub(crate) fn talk<R: Wait + AllocGlobal>(rt: &R, said: &str) -> Result<String, NoAnswer> {
    answered(rt, said, WHOLE)
}

/// Returns the first index at which the connections can be cut so that the answer differs.
fn first_other<R: Wait + AllocGlobal>(
    rt: &R,
    said: &str,
    whole: &str,
) -> Result<Option<usize>, NoAnswer> {
    'cuts: for first in 1..said.len() / 2 {
        let cutting = Cutting {
            first,
            next: usize::MAX,
        };
        if answered(rt, said, cutting)?.as_str() != whole {
            return Ok(Some(first));
        }
    }
    Ok(None)
}

/// Returns the same, if it is the same for each cutting of each connection into two and into single
/// octets, or else the first difference: `cuts CONNECTION ..`.
pub(crate) fn cuts<R: Wait + AllocGlobal>(rt: &R, said: &str) -> Result<String, NoAnswer> {
    let whole = answered(rt, said, WHOLE)?;
    if let Some(at) = first_other(rt, said, whole.as_str())? {
        return Ok(format!(in rt.alloc(); "another at {at}")?);
    }
    if answered(rt, said, SINGLE)?.as_str() != whole.as_str() {
        return Ok(format!(in rt.alloc(); "another octet by octet")?);
    }
    Ok(whole)
}
