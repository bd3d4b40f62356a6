//! Servers of several ends over links in memory.
ghost use Rattle.std.specs.Prelude.{◌≡◌, []};
ghost use Rattle.rd_server.specs.serving.Servers.{AreOfHall};

use crate::requests::{CREATED, REGISTRATION, clock_of, link_of, sink_of, went};
use rd_base::{Moment, Starved};
use rd_desk::Outbox;
use rd_seat::{Hall, OpenGate};
use rd_server::{End, ServeFault, ServeStatus, make_hall, serve, serve_seats};
use std::alloc::Global;
use std::sync::Wait;
use std::thread::Threads;
use udp_link::{MemClock, MemLink};

/// An end over a link in memory.
pub(crate) type MemEnd = End<MemLink, MemClock>;

/// Returns two ends, which receive these datagrams. The receives of the second with these numbers,
/// from 0, fail.
pub(crate) fn two_ends(
    alloc: Global,
    first: &[&[u8]],
    second: &[&[u8]],
    fails: &[u8],
) -> Result<[MemEnd; 2], Starved> {
    let first = link_of(alloc, first, b"", b"")?;
    let second = link_of(alloc, second, fails, b"")?;
    Ok([
        End::of(first, clock_of(alloc)),
        End::of(second, clock_of(alloc)),
    ])
}

/// A server of two ends, of which the first receives the registration.
struct Case {
    name: &'static str,
    /// The number of receives that each end makes.
    turns: u8,
    /// The receive of the second end that fails, if it makes that many.
    fails: &'static [u8],
    /// The write of the output that fails.
    unwritten: &'static [u8],
    status: ServeStatus,
    /// Why the second end does not serve to the end.
    fault: Option<ServeFault>,
    written: &'static [u8],
}

const CASES: &[Case] = &[
    Case {
        name: "the sums of all are written",
        turns: 3,
        fails: &[9],
        unwritten: b"",
        status: ServeStatus::Done,
        fault: None,
        written: b"served 1 1 0\n",
    },
    Case {
        name: "one link that fails is told",
        turns: 3,
        fails: &[1],
        unwritten: b"",
        status: ServeStatus::Link,
        fault: Some(ServeFault::Link),
        written: b"",
    },
    Case {
        name: "an output that fails is told",
        turns: 1,
        fails: &[9],
        unwritten: b"\0",
        status: ServeStatus::Write,
        fault: None,
        written: b"",
    },
];

/// Returns whether a server ended as a case says, with a seat at each end, and the registration
/// answered.
fn has_ended(case: &Case, status: ServeStatus, ends: &[MemEnd; 2], out: &[u8]) -> bool {
    let [first, second] = ends;
    status == case.status
        && first.outcome.is_ok()
        && second.outcome.err() == case.fault
        && first.seat.is_some()
        && second.seat.is_some()
        && went(&first.link, 0, CREATED)
        && out == case.written
}

/// Serves the two ends of a case. Returns whether the server ends as expected.
fn ends_so<R: Threads + Wait + Sync + AllocGlobal>(rt: &R, case: &Case) -> Result<bool, Starved> {
    let mut out = sink_of(rt.alloc(), case.unwritten)?;
    let mut ends = two_ends(rt.alloc(), &[REGISTRATION], &[], case.fails)?;
    let status = serve(rt, &mut ends, &OpenGate, u64::from(case.turns), &mut out);
    Ok(has_ended(case, status, &ends, out.as_slice()))
}

/// Lets time pass at the seat of the first end.
fn first_ticks<R: Wait>(rt: &R, hall: &Hall, ends: &mut [MemEnd], out: &mut Outbox)
    requires hall { AreOfHall hall.now ends.old }
    requires empty { out.old ≡ [] }
    ensures hall { AreOfHall hall.now ends.new }
{
    let Some(end) = ends.first_mut() else {
        return;
    };
    if let Some(seat) = &mut end.seat {
        seat.tick(rt, hall, &OpenGate, Moment(1), 0, out);
    }
}

/// Lets time pass at a seat, and then serves the two ends of a case. Returns whether the server
/// ends as expected.
fn ends_so_after_a_row<R: Threads + Wait + Sync + AllocGlobal>(
    rt: &R,
    case: &Case,
) -> Result<bool, Starved> {
    let mut ticked = Outbox::make(rt.alloc())?;
    let mut out = sink_of(rt.alloc(), case.unwritten)?;
    let mut ends = two_ends(rt.alloc(), &[REGISTRATION], &[], case.fails)?;
    let hall = make_hall(rt, &mut ends)?;
    first_ticks(rt, &hall, &mut ends, &mut ticked);
    let turns = u64::from(case.turns);
    let status = serve_seats(rt, hall, &mut ends, &OpenGate, turns, &mut out);
    Ok(has_ended(case, status, &ends, out.as_slice()))
}

#[test]
fn a_server_of_two_ends(rt: HostRuntime) -> Result<(), Starved> {
    for case in CASES {
        assert!(rt; ends_so(&rt, case)?, "{}", case.name);
        assert!(rt;
            ends_so_after_a_row(&rt, case)?,
            "after a row: {}",
            case.name
        );
    }
    Ok(())
}
