//! Conversations whose reads and writes fail as planned.
use crate::requests::{CLIENT, DISCOVERED, DISCOVERY, clock_of, sink_of};
use crate::seats::calls::one_seat;
use coap_stream::{TalkEnd, TalkFault, Talked, converse};
use rd_base::{Bytes, MemSink, MemSource, Starved};
use rd_seat::OpenGate;
use std::sync::Wait;

/// A connection that requests the discovery.
struct Case {
    name: &'static str,
    /// The read that fails.
    unread: &'static [u8],
    /// The write that fails.
    unwritten: &'static [u8],
    outcome: Result<Talked, TalkFault>,
    written: &'static [u8],
}

const CASES: &[Case] = &[
    Case {
        name: "the first read fails",
        unread: b"\0",
        unwritten: b"",
        outcome: Err(TalkFault::Read),
        written: b"\x00\xe1",
    },
    Case {
        name: "the second read fails",
        unread: b"\x01",
        unwritten: b"",
        outcome: Err(TalkFault::Read),
        written: DISCOVERED,
    },
    Case {
        name: "the first write fails",
        unread: b"",
        unwritten: b"\0",
        outcome: Err(TalkFault::Write),
        written: b"",
    },
    Case {
        name: "the second write fails",
        unread: b"",
        unwritten: b"\x01",
        outcome: Err(TalkFault::Write),
        written: b"\x00\xe1",
    },
    Case {
        name: "there is no third write",
        unread: b"",
        unwritten: b"\x02",
        outcome: Ok(Talked {
            end: TalkEnd::Closed,
            asked: 1,
            dropped: 0,
        }),
        written: DISCOVERED,
    },
];

/// Requests the discovery over a connection whose reads with these numbers fail, into `out`.
fn talked<R: Wait + AllocGlobal>(
    rt: &R,
    unread: &[u8],
    out: &mut MemSink,
) -> Result<Result<Talked, TalkFault>, Starved> {
    let alloc = rt.alloc();
    let octets = Bytes::copy_of(alloc, DISCOVERY)?;
    let mut source = MemSource::of(octets, Bytes::copy_of(alloc, unread)?);
    let mut clock = clock_of(alloc);
    let (hall, mut seat) = one_seat(alloc, rt)?;
    let talked = converse(
        rt,
        &hall,
        &mut seat,
        CLIENT,
        &mut source,
        out,
        &mut clock,
        &OpenGate,
    );
    hall.end(rt);
    Ok(talked)
}

/// Makes the connection of a case. Returns whether all is as expected.
fn talks_so<R: Wait + AllocGlobal>(rt: &R, case: &Case) -> Result<bool, Starved> {
    let mut out = sink_of(rt.alloc(), case.unwritten)?;
    let outcome = talked(rt, case.unread, &mut out)?;
    Ok(outcome == case.outcome && out.as_slice() == case.written)
}

#[test]
fn each_failure_is_told(rt: HostRuntime) -> Result<(), Starved> {
    for case in CASES {
        assert!(rt; talks_so(&rt, case)?, "{}", case.name);
    }
    Ok(())
}
