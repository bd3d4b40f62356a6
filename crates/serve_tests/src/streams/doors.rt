//! Connections that are served one after the other.
use crate::requests::{CLIENT, DISCOVERY, clock_of, sink_of};
use coap_stream::{MemAccept, StreamsStatus, serve_streams};
use rd_base::{Bytes, Starved};
use rd_seat::OpenGate;
use std::alloc::Global;
use std::sync::Wait;
use udp_link::Arrivals;

/// Returns a door with two connections. The second opens and sends nothing.
fn two_connections(alloc: Global) -> Result<MemAccept, Starved> {
    let mut streams = Arrivals::new(alloc);
    streams.push(CLIENT, Bytes::copy_of(alloc, DISCOVERY)?)?;
    streams.push(CLIENT, Bytes::new(alloc))?;
    Ok(MemAccept::of(streams))
}

/// A server of the door.
struct Case {
    name: &'static str,
    /// The number of connections that it serves.
    count: u8,
    /// The write of the output that fails.
    unwritten: &'static [u8],
    status: StreamsStatus,
    written: &'static [u8],
}

const CASES: &[Case] = &[
    Case {
        name: "so many are served and counted",
        count: 2,
        unwritten: b"",
        status: StreamsStatus::Done,
        written: b"talked 2 1\n",
    },
    Case {
        name: "one that cannot be opened is told",
        count: 3,
        unwritten: b"",
        status: StreamsStatus::Link,
        written: b"",
    },
    Case {
        name: "an output that fails is told",
        count: 2,
        unwritten: b"\0",
        status: StreamsStatus::Write,
        written: b"",
    },
];

/// Serves the door as a case says. Returns whether all is as expected.
fn serves_so<R: Wait + AllocGlobal>(rt: &R, case: &Case) -> Result<bool, Starved> {
    let mut clock = clock_of(rt.alloc());
    let mut out = sink_of(rt.alloc(), case.unwritten)?;
    let mut door = two_connections(rt.alloc())?;
    let count = u64::from(case.count);
    let status = serve_streams(rt, &mut door, &mut clock, &OpenGate, count, &mut out);
    Ok(status == case.status && out.as_slice() == case.written)
}

#[test]
fn a_door_of_two_connections(rt: HostRuntime) -> Result<(), Starved> {
    for case in CASES {
        assert!(rt; serves_so(&rt, case)?, "{}", case.name);
    }
    Ok(())
}
