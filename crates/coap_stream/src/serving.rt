//! Connections served one after the other.
ghost use Rattle.std.specs.Prelude.{◌≡◌, ◌≤◌, IfOk};
ghost use Rattle.rd_seat.specs.Callers.{caller_seen, clock_seen};
ghost use Rattle.coap_stream.specs.Serving as spec;
ghost use Rattle.coap_stream.specs.Serving.{Concludes, NeverFail, ServesAll, ServesOne};
ghost use Rattle.coap_stream.specs.Serving.{ServesStreams, out_seen, talked_line};

use crate::doors::{Accept, Opened};
use crate::talked::{TalkFault, Talked};
use crate::talks::converse;
use rd_base::{Bytes, Sink, Starved, write_all};
use rd_seat::{Gate, Hall, Seat};
use std::alloc::Global;
use std::sync::Wait;
use udp_link::Clock;

/// How serving connections ended.
#[derive(Clone, Copy, Debug, PartialEq, Eq)]
pub enum StreamsStatus {
    /// All connections were served, and the line was written.
    Done,
    /// A connection could not be opened.
    Link,
    /// The output failed. A prefix of the line was written then.
    Write,
    /// Memory ran out.
    Memory,
}

/// The reason for which not all connections were served.
#[derive(Clone, Copy, Debug, PartialEq, Eq)]
pub(crate) enum StreamsFault {
    /// A connection could not be opened.
    Link,
    /// Memory ran out.
    Memory,
}

/// Returns how many requests a conversation passed to the seat, or 0 if a read or a write failed.
fn asked_of(talked: Result<Talked, TalkFault>) -> Result<u64, StreamsFault>
    ensures { result ≡ spec.asked_unless talked }
{
    match talked {
        Ok(talked) => Ok(talked.asked),
        Err(TalkFault::Read) => Ok(0),
        Err(TalkFault::Write) => Ok(0),
        Err(TalkFault::Starved) => Err(StreamsFault::Memory),
    }
}

/// Opens the next connection and serves it. Returns how many requests its conversation passed to
/// the seat.
fn serve_one<R: Wait + AllocGlobal, A: Accept, C: Clock, G: Gate>(
    rt: &R,
    hall: &Hall,
    seat: &mut Seat,
    door: &mut A,
    clock: &mut C,
    gate: &G,
) -> Result<u64, StreamsFault>
    requires hall { seat.old.hall ≡ hall.now }
    ensures hall { seat.new.hall ≡ seat.old.hall }
    ensures serves { ServesOne (NeverFail A.In.Source.own A.Out.Sink.own)
        (caller_seen C.Clock.own seat.old clock.old)
        (caller_seen C.Clock.own seat.new clock.new)
        (A.coming door.old) (A.coming door.new) (A.faults door.old) (A.faults door.new) result }
    ensures few { IfOk result (λ asked. asked ≤ 65_536) }
{
    match door.next() {
        Opened::One(peer, source, out) => {
            let (mut source, mut out) = (source, out);
            let talked = converse(rt, hall, seat, peer, &mut source, &mut out, clock, gate);
            asked_of(talked)
        }
        Opened::Failed => Err(StreamsFault::Link),
    }
}

/// Serves `count` connections, one after the other. Returns how many requests were passed to the
/// seat.
fn serve_all<R: Wait + AllocGlobal, A: Accept, C: Clock, G: Gate>(
    rt: &R,
    hall: &Hall,
    seat: &mut Seat,
    door: &mut A,
    clock: &mut C,
    gate: &G,
    count: u64,
) -> Result<u64, StreamsFault>
    requires hall { seat.old.hall ≡ hall.now }
    requires count { count ≤ 1_000_000 }
    ensures serves { ServesAll (NeverFail A.In.Source.own A.Out.Sink.own) count
        (caller_seen C.Clock.own seat.old clock.old)
        (caller_seen C.Clock.own seat.new clock.new)
        (A.coming door.old) (A.coming door.new) (A.faults door.old) (A.faults door.new) result }
{
    let mut done = 0u64;
    let mut asked = 0u64;
    'connections: while done < count {
        match serve_one(rt, hall, seat, door, clock, gate) {
            Ok(more) => asked += more,
            Err(why) => return Err(why),
        }
        done += 1;
    }
    Ok(asked)
}

/// Returns the line with these numbers of connections and requests.
fn line_of(alloc: Global, count: u64, asked: u64) -> Result<Bytes, Starved>
    ensures { IfOk result (λ line. line ≡ talked_line count asked) }
{
    let text = format!(in alloc; "talked {count} {asked}\n")?;
    Ok(Bytes::of(text.into_bytes()))
}

/// Writes the line, if all connections were served.
fn conclude<K: Sink>(
    alloc: Global,
    count: u64,
    served: Result<u64, StreamsFault>,
    out: &mut K,
) -> StreamsStatus
    ensures { Concludes count served (K.holds out.old) (K.holds out.new)
        (K.faults out.old) (K.faults out.new) result }
{
    let asked = match served {
        Ok(asked) => asked,
        Err(StreamsFault::Link) => return StreamsStatus::Link,
        Err(StreamsFault::Memory) => return StreamsStatus::Memory,
    };
    let Ok(line) = line_of(alloc, count, asked) else {
        return StreamsStatus::Memory;
    };
    if write_all(out, line.as_slice()) {
        return StreamsStatus::Done;
    }
    StreamsStatus::Write
}

/// Serves `count` connections, one after the other, with the only seat of a new, empty hall. Then
/// writes the line `talked CONNECTIONS ASKED`.
///
/// Each connection is served as [`converse`] does it, after waiting for it. A connection with a
/// failed read or write counts no requests.
///
/// Returns `Link` if a connection could not be opened, `Memory` if memory ran out, and `Write` if
/// the output failed. After `Write`, a prefix of the line was written.
///
/// # Requires
///
/// `count` is at most 1,000,000.
pub fn serve_streams<R: Wait + AllocGlobal, A: Accept, C: Clock, G: Gate, K: Sink>(
    rt: &R,
    door: &mut A,
    clock: &mut C,
    gate: &G,
    count: u64,
    out: &mut K,
) -> StreamsStatus
    requires count { count ≤ 1_000_000 }
    // The seat of a new hall served the connections that were opened, and the status is their
    // result; or memory ran out before. If the listener exposes its connections, and no call of
    // their sources and sinks fails, the count is what their octets pass to the seat.
    ensures serves { ServesStreams (NeverFail A.In.Source.own A.Out.Sink.own) count
        (clock_seen C.Clock.own clock.old) (clock_seen C.Clock.own clock.new)
        (record { coming = A.coming door.old; faults = A.faults door.old })
        (record { coming = A.coming door.new; faults = A.faults door.new })
        (out_seen K.Sink.own out.old) (out_seen K.Sink.own out.new) result }
{
    let Ok((hall, mut seats)) = Hall::make(rt.alloc(), rt, 1) else {
        return StreamsStatus::Memory;
    };
    let Some(mut seat) = seats.take_first() else {
        unreachable!()
    };
    let served = serve_all(rt, &hall, &mut seat, door, clock, gate, count);
    hall.end(rt);
    conclude(rt.alloc(), count, served, out)
}
