//! One worker over a link in memory.

use crate::requests::{CREATED, LISTED, LOOKUP, REGISTRATION, clock_of, link_of, went};
use crate::seats::calls::one_seat;
use rd_base::Starved;
use rd_seat::OpenGate;
use rd_server::{ServeFault, Served, serve_worker};
use std::sync::Wait;
use udp_link::MemLink;

/// What a worker serves by two calls.
struct Case {
    name: &'static str,
    /// The datagrams that the link receives from the endpoint.
    coming: &'static [&'static [u8]],
    /// The receive that fails.
    unreceived: &'static [u8],
    /// The send that fails.
    unsent: &'static [u8],
    /// The number of receives of each call.
    turns: [u8; 2],
    /// What each call returns.
    outcomes: [Result<Served, ServeFault>; 2],
    /// The beginnings of all that is sent.
    gone: &'static [&'static [u8]],
}

/// A call that makes no receive.
const NONE: Served = Served {
    heard: 0,
    sent: 0,
    lost: 0,
    too_long: 0,
    starved: 0,
};

const CASES: &[Case] = &[
    Case {
        name: "a registration is served",
        coming: &[REGISTRATION],
        unreceived: b"",
        unsent: b"",
        turns: [2, 0],
        outcomes: [
            Ok(Served {
                heard: 1,
                sent: 1,
                ..NONE
            }),
            Ok(NONE),
        ],
        gone: &[CREATED],
    },
    Case {
        name: "what was written is read back",
        coming: &[REGISTRATION, LOOKUP],
        unreceived: b"",
        unsent: b"",
        turns: [2, 0],
        outcomes: [
            Ok(Served {
                heard: 2,
                sent: 2,
                ..NONE
            }),
            Ok(NONE),
        ],
        gone: &[CREATED, LISTED],
    },
    Case {
        name: "a datagram that is too long is counted",
        coming: &[&[0x40; 4097], b""],
        unreceived: b"",
        unsent: b"",
        turns: [3, 0],
        outcomes: [
            Ok(Served {
                heard: 1,
                too_long: 1,
                ..NONE
            }),
            Ok(NONE),
        ],
        gone: &[],
    },
    Case {
        name: "a send that fails is lost",
        coming: &[REGISTRATION],
        unreceived: b"",
        unsent: b"\0",
        turns: [2, 0],
        outcomes: [
            Ok(Served {
                heard: 1,
                lost: 1,
                ..NONE
            }),
            Ok(NONE),
        ],
        gone: &[],
    },
    Case {
        name: "a receive that fails ends it after what was done",
        coming: &[REGISTRATION, LOOKUP],
        unreceived: b"\x01",
        unsent: b"",
        turns: [3, 1],
        outcomes: [
            Err(ServeFault::Link),
            Ok(Served {
                heard: 1,
                sent: 1,
                ..NONE
            }),
        ],
        gone: &[CREATED, LISTED],
    },
];

/// Serves by a seat of a new hall, by one call after the other. Returns what each returns.
fn served<R: Wait + AllocGlobal>(
    rt: &R,
    link: &mut MemLink,
    turns: [u8; 2],
) -> Result<[Result<Served, ServeFault>; 2], Starved> {
    let [turns, more] = turns;
    let mut clock = clock_of(rt.alloc());
    let (hall, mut seat) = one_seat(rt.alloc(), rt)?;
    let (hall_now, gate) = (&hall, &OpenGate);
    let first = serve_worker(
        rt,
        hall_now,
        &mut seat,
        link,
        &mut clock,
        gate,
        u64::from(turns),
    );
    let second = serve_worker(
        rt,
        hall_now,
        &mut seat,
        link,
        &mut clock,
        gate,
        u64::from(more),
    );
    hall.end(rt);
    Ok([first, second])
}

/// Returns whether a link sent as many datagrams to the endpoint, each of which begins like this.
fn are_gone(link: &MemLink, beginnings: &[&[u8]]) -> bool {
    for (number, beginning) in beginnings.iter().enumerate() {
        if !went(link, number, beginning) {
            return false;
        }
    }
    link.gone().as_slice().len() == beginnings.len()
}

/// Runs a case. Returns whether all is as expected.
fn serves_so<R: Wait + AllocGlobal>(rt: &R, case: &Case) -> Result<bool, Starved> {
    let mut link = link_of(rt.alloc(), case.coming, case.unreceived, case.unsent)?;
    let outcomes = served(rt, &mut link, case.turns)?;
    Ok(outcomes == case.outcomes && are_gone(&link, case.gone))
}

#[test]
fn a_worker(rt: HostRuntime) -> Result<(), Starved> {
    for case in CASES {
        assert!(rt; serves_so(&rt, case)?, "{}", case.name);
    }
    Ok(())
}
