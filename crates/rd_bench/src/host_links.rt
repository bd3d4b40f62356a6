//! The links of `rd_host`: what its guard and its counters add to a lookup.
ghost use Rattle.std.specs.Prelude.{None};

use crate::requests::{LOOKUP, LOOKUPS, PEER};
use bench_rows::{Row, Trouble};
use hosting::{
    CountedLink, Counts, Guard, GuardedLink, HostClock, HostPlan, Origin, Teller, Wanted,
    host_words,
};
use rd_base::Peer;
use std::alloc::Global;
use std::io::{Sink, sink};
use std::sync::Wait;
use udp_link::{Came, Link, MAX_DATAGRAM, Went};

/// The answer to the lookup: the one link.
const ANSWER: &[u8] = b"\x61\x45\x00\x02\xb2\x48\0\0\0\0\0\x01\0\0\x81\x28\xff\
    <coap://192.0.2.10/light>;rt=\"light-lux\"";

/// A link that receives the lookup again and again, each time with another Message ID. What it
/// sends goes nowhere.
#[derive(Drop)]
struct Asking {
    lookup: Vec<u8>,
}

impl Asking {
    /// Creates the link.
    fn new(alloc: Global) -> Result<Asking, Trouble> {
        let lookup = Vec::from_slice(alloc, LOOKUP)?;
        Ok(Asking { lookup })
    }
}

impl Link for Asking {
    ghost coming = { λ _. None };

    ghost gone = { λ _. None };

    ghost order = { λ _. None };

    ghost recv_faults = { λ _. 0 };

    ghost send_faults = { λ _. 0 };

    fn recv(&mut self, into: &mut [u8]) -> Came {
        let length = self.lookup.len();
        if length > MAX_DATAGRAM {
            return Came::TooLong;
        }
        if let Some(last) = self.lookup.get_mut(3) {
            *last = u8::wrapping_add(*last, 1);
        }
        into[..length].copy_from_slice(self.lookup.as_slice());
        Came::Datagram(PEER, length)
    }

    fn send(&mut self, _peer: Peer, _piece: &[u8]) -> Went {
        Went::Sent
    }
}

/// Receives lookups by a link and sends their answers. Returns the sum of the last octets of their
/// Message IDs, so that what was received is read.
fn looks<L: Link>(link: &mut L) -> u64 {
    let mut into = [0u8; MAX_DATAGRAM];
    let mut sum = 0;
    for _ in 0..LOOKUPS {
        if let Came::Datagram(peer, _) = link.recv(&mut into) {
            link.send(peer, ANSWER);
            sum = u64::wrapping_add(sum, u64::from(into[3]));
        }
    }
    sum
}

/// Times lookups by a link, and prints its row.
fn print_looks<L: Link>(rt: &HostRuntime, name: &str, link: &mut L) -> Result<(), Trouble> {
    let mut row = Row::new(rt.alloc());
    row.add(rt, LOOKUP.len() as u64, LOOKUPS, || Ok(looks(link)))?;
    row.print(rt, name)
}

/// Returns what these arguments of `rd_host` ask for.
fn plan_of(alloc: Global, words: &[&str]) -> Result<HostPlan, Trouble> {
    let mut given = Vec::new(alloc);
    for word in words {
        given.push(String::from_str(alloc, word)?)?;
    }
    match host_words(alloc, given.as_slice()) {
        Ok(Wanted::Serve(plan)) => Ok(plan),
        _ => Err(Trouble::Outside),
    }
}

/// What the links of a server share.
#[derive(Drop)]
struct Shared {
    guard: Guard,
    /// What they count, if they do.
    counts: Option<Counts>,
    origin: Origin,
}

/// Creates what the links of a server share if these arguments are given.
fn shared_of(rt: &HostRuntime, words: &[&str]) -> Result<Shared, Trouble> {
    let plan = plan_of(rt.alloc(), words)?;
    let counts = if plan.quiet {
        None
    } else {
        Some(Counts::new(rt.alloc())?)
    };
    Ok(Shared {
        guard: Guard::of(rt, rt.alloc(), &plan)?,
        counts,
        origin: Origin::read(rt)?,
    })
}

/// A clock of the system.
type SystemClock<'a> = HostClock<'a, HostRuntime>;

/// A link that is guarded and counted.
type Guarded<'a, R> = GuardedLink<
    'a,
    R,
    CountedLink<'a, Asking, SystemClock<'a>, Sink>,
    SystemClock<'a>,
>;

/// Returns what counts the datagrams of a link, if they are counted.
fn teller_of<'a>(
    rt: &'a HostRuntime,
    shared: &'a Shared,
) -> Option<Teller<'a, SystemClock<'a>, Sink>> {
    let counts = shared.counts.as_ref()?;
    let clock = HostClock::of(rt, &shared.origin, [0; 32]);
    Some(Teller::of(counts, rt.alloc(), clock, sink()))
}

/// Creates a link of a server. The guard waits for its lock by `ends`.
fn guarded<'a, R>(
    rt: &'a HostRuntime,
    ends: &'a R,
    shared: &'a Shared,
) -> Result<Guarded<'a, R>, Trouble> {
    let link = CountedLink::over(Asking::new(rt.alloc())?, teller_of(rt, shared));
    let clock = HostClock::of(rt, &shared.origin, [0; 32]);
    let counts = shared.counts.as_ref();
    Ok(GuardedLink::over(ends, &shared.guard, counts, link, clock))
}

/// Measures lookups by a link that is guarded and counted as these arguments of `rd_host` ask for.
/// If they ask for neither, measures them by the link alone, as `rd_host` then serves.
fn measure_guarded<R: Wait>(
    rt: &HostRuntime,
    ends: &R,
    words: &[&str],
    name: &str,
) -> Result<(), Trouble> {
    let shared = shared_of(rt, words)?;
    if shared.guard.is_open() && shared.counts.is_none() {
        let mut link = Asking::new(rt.alloc())?;
        return print_looks(rt, name, &mut link);
    }
    let mut link = guarded(rt, ends, &shared)?;
    print_looks(rt, name, &mut link)
}

/// Measures lookups by a link alone, by the link of `rd_host` with guard and counters off, and by
/// its link by default.
///
/// # Errors
///
/// `Starved` if memory runs out; `Outside` if a clock or the random source fails, or a stream
/// cannot be written.
pub fn measured<R: Wait>(rt: &HostRuntime, ends: &R) -> Result<(), Trouble> {
    let mut link = Asking::new(rt.alloc())?;
    print_looks(
        rt,
        "udp_link a link in memory, a lookup of so many octets and its answer",
        &mut link,
    )?;
    measure_guarded(
        rt,
        ends,
        &["--share=0", "--criteria=0", "--quiet"],
        "hosting the same, guard and counters off",
    )?;
    measure_guarded(
        rt,
        ends,
        &[],
        "hosting the same, guard and counters of rd_host by default",
    )
}
