//! Replays in which one call after another fails: of the source, the output, or the error sink.
use crate::requests::sink_of;
use rd_base::{Bytes, MemSource, Sink, Starved, SureSink};
use std::alloc::Global;
use trace_replay::{LineBad, Reason, Status, replay};

/// A line that does nothing.
const GO: &[u8] = b"go 0 6\n";

/// A ping.
const PING: &[u8] = b"in 0 5 192.0.2.10:5683 40001234\n";

/// The error text for a trace whose second line is bad.
const SAID: &[u8] = b"line 2: form\n";

/// A trace of an observer that gets notifications of a link and of its lapse (RFC 7641). It gets
/// none of a link that comes and goes between two ticks.
const OBSERVED: &[u8] = b"\
    in 0 1000 192.0.2.30:40000 41010010c1605972642d6c6f6f6b7570037265734c72743d6c696768742d6c7\
      578\n\
    in 0 1100 192.0.2.20:61616 41020001d1b272644865703d6f74686572ff3c2f703e3b72743d2270756d702\
      2\n\
    go 0 1100\n\
    tick 0 1200\n\
    in 0 1300 192.0.2.10:5683 41020001a1b2726411283865703d6e6f646531066c743d363030ff3c2f74656d\
      703e3b72743d2274656d7065726174757265223b63743d302c3c2f6c696768743e3b72743d226c696768742d6c\
      7578223b69663d2273656e736f7222\n\
    go 0 1300\n\
    tick 0 1400\n\
    in 0 1400 192.0.2.30:40000 60000000\n\
    tick 0 601300\n\
    in 0 601301 192.0.2.30:40000 60000001\n\
    in 0 700000 192.0.2.10:5683 41020001a1b2726411283865703d6e6f646531066c743d363030ff3c2f7465\
      6d703e3b72743d2274656d7065726174757265223b63743d302c3c2f6c696768743e3b72743d226c696768742d\
      6c7578223b69663d2273656e736f7222\n\
    go 0 700000\n\
    in 0 700010 192.0.2.10:5683 41040009a3b272640133\n\
    go 0 700010\n\
    tick 0 700020\n";

/// Replays a trace into `out` and `err`. The calls of its source with these numbers fail.
fn replayed<O: Sink, E: Sink>(
    alloc: Global,
    trace: &[u8],
    unread: &[u8],
    out: &mut O,
    err: &mut E,
) -> Result<Status, Starved> {
    let trace = Bytes::copy_of(alloc, trace)?;
    let mut source = MemSource::of(trace, Bytes::copy_of(alloc, unread)?);
    Ok(replay(alloc, &[], &mut source, out, err))
}

/// Replays a trace, with calls of the source and of the output that fail. Returns the status, and
/// puts what is written into `written`.
fn writes(
    alloc: Global,
    trace: &[u8],
    unread: &[u8],
    unwritten: &[u8],
    written: &mut Vec<u8>,
) -> Result<Status, Starved> {
    let mut out = sink_of(alloc, unwritten)?;
    let status = replayed(alloc, trace, unread, &mut out, &mut SureSink::new())?;
    written.clear();
    written.extend_from_slice(out.as_slice())?;
    Ok(status)
}

/// Returns a line this many times.
fn repeated(alloc: Global, line: &[u8], times: u32) -> Result<Vec<u8>, Starved> {
    let mut trace = Vec::new(alloc);
    for _ in 0..times {
        trace.extend_from_slice(line)?;
    }
    Ok(trace)
}

/// Replays the two traces, with a read of the first and a write of the second that fail. Returns
/// each status, and the number of octets that are written.
fn ends_with(
    alloc: Global,
    read: &[u8],
    written: &[u8],
    call: u8,
) -> Result<[(Status, usize); 2], Starved> {
    let mut page = Vec::new(alloc);
    let unread = writes(alloc, read, &[call], b"", &mut page)?;
    let unread = (unread, page.len());
    let unwritten = writes(alloc, written, b"", &[call], &mut page)?;
    Ok([unread, (unwritten, page.len())])
}

/// Asserts how a replay ends at each call that fails. 20 calls read 77,000 octets. 20 calls write
/// 19 lines of 31 octets, and the last line.
#[test]
fn each_call_may_fail(rt: HostRuntime) -> Result<(), Starved> {
    let alloc = rt.alloc();
    let read = repeated(alloc, GO, 11_000)?;
    let written = repeated(alloc, PING, 19)?;
    for call in 0..=20 {
        let wanted = if call < 20 {
            let octets = usize::from(call) * 31;
            [(Status::ReadFault, 0), (Status::WriteFault, octets)]
        } else {
            [(Status::Done, 10), (Status::Done, 599)]
        };
        let ends = ends_with(alloc, read.as_slice(), written.as_slice(), call)?;
        assert_eq!(rt; ends, wanted);
    }
    Ok(())
}

/// Replays the trace of an observer with one call that fails. Returns whether it ends with a
/// status, and what is written is a prefix of the whole, and all of it if nothing failed.
fn begins_whole(
    alloc: Global,
    whole: &[u8],
    unread: &[u8],
    unwritten: &[u8],
    wanted: Status,
) -> Result<bool, Starved> {
    let mut page = Vec::new(alloc);
    let status = writes(alloc, OBSERVED, unread, unwritten, &mut page)?;
    let is_whole = status != Status::Done || page.len() == whole.len();
    Ok(status == wanted && whole.starts_with(page.as_slice()) && is_whole)
}

/// Returns this status if a call is one of the first ones, and `Done` otherwise.
fn fault_before(call: u8, calls: u8, fault: Status) -> Status {
    if call < calls { fault } else { Status::Done }
}

/// Asserts that a prefix of the whole is written. One call reads the trace and one its end. Each of
/// the seven responses and notifications is written by a call of its own, as is the last line. A
/// later call is never made.
#[test]
fn what_was_written_is_a_beginning(rt: HostRuntime) -> Result<(), Starved> {
    let alloc = rt.alloc();
    let mut whole = Vec::new(alloc);
    let status = writes(alloc, OBSERVED, b"", b"", &mut whole)?;
    assert_eq!(rt;
        (status, whole.ends_with(b"end 4 1 1\n")),
        (Status::Done, true)
    );
    for call in 0..21 {
        let (read, write) = (
            fault_before(call, 2, Status::ReadFault),
            fault_before(call, 8, Status::WriteFault),
        );
        assert!(rt;
            begins_whole(alloc, whole.as_slice(), &[call], b"", read)?,
            "read {call}"
        );
        assert!(rt;
            begins_whole(alloc, whole.as_slice(), b"", &[call], write)?,
            "write {call}"
        );
    }
    Ok(())
}

/// Replays a trace whose second line is bad, with one call of the error sink that fails. Returns
/// the status, and whether this many octets of the error text are then written.
fn unsaid_at(alloc: Global, call: u8, said: usize) -> Result<(Status, bool), Starved> {
    let mut err = sink_of(alloc, &[call])?;
    let status = replayed(alloc, b"go 0 6\nx\n", b"", &mut SureSink::new(), &mut err)?;
    Ok((status, SAID.get(..said) == Some(err.as_slice())))
}

#[test]
fn what_is_said_may_be_cut_off(rt: HostRuntime) -> Result<(), Starved> {
    let bad = Status::Line(LineBad {
        line: 2,
        why: Reason::Form,
    });
    for (call, said) in [(0, 0), (1, 5), (2, 6), (3, 8), (4, 12), (5, 13)] {
        assert_eq!(rt; unsaid_at(rt.alloc(), call, said)?, (bad, true));
    }
    Ok(())
}
