//! A server at two addresses, one of IPv4 and one of IPv6, in one process.
use crate::host_links::{LOOPBACK_V4, LOOPBACK_V6, client_at, make_routes};
use crate::loopback::is_answered;
use crate::requests::{CREATED, REGISTRATION, sink_of};
use hosting::{Crew, HostClock, HostLink, Listener, Origin, Routes};
use rd_seat::OpenGate;
use rd_server::{End, ServeStatus, serve};
use std::net::UdpSocket;
use std::random::RandomSource;
use std::sync::Mutex;
use std::test::Fail;
use std::{io, thread};

/// An observed lookup of what is registered later (RFC 7641 section 2).
const OBSERVATION: &[u8] = b"\x41\x01\x00\x03\xb3\x60\x59rd-lookup\x03res\x4crt=light-lux";

/// The beginning of its answer.
const OBSERVED: &[u8] = b"\x61\x45\x00\x03\xb3";

/// Returns a client of a listener, which receives nothing from another address.
fn client_of(rt: &HostRuntime, at: &str, listener: &Listener) -> io::Result<UdpSocket> {
    let client = client_at(rt, at)?;
    client.connect(listener.local_addr()?)?;
    Ok(client)
}

/// Returns whether the next datagram is a notification with the token of the observation.
fn is_told(observer: &UdpSocket) -> io::Result<bool> {
    let mut room = [0u8; 1280];
    let n = observer.recv(&mut room)?;
    Ok(5 <= n && room.starts_with(b"\x41\x45") && room[4] == 0xb3)
}

/// Observes by one client, and registers what is observed by another. Returns whether all answers
/// and the notification arrive.
fn observes(observer: &UdpSocket, device: &UdpSocket) -> io::Result<bool> {
    Ok(
        is_answered(observer, OBSERVATION, OBSERVED)?
            && is_answered(device, REGISTRATION, CREATED)?
            && is_told(observer)?,
    )
}

/// What the links and clocks of a server share.
#[derive(Drop)]
struct Shared {
    routes: Mutex<Routes>,
    crew: Crew,
    origin: Origin,
}

/// Returns an end at each of two listeners.
fn host_ends<'a, R: RandomSource + AllocGlobal>(
    rt: &'a R,
    shared: &'a Shared,
    listeners: &[Listener; 2],
) -> Result<[End<HostLink<'a, R>, HostClock<'a, R>>; 2], Fail> {
    let (routes, crew) = (&shared.routes, &shared.crew);
    let first_clock = HostClock::seeded(rt, &shared.origin)?;
    let second_clock = HostClock::seeded(rt, &shared.origin)?;
    let first = HostLink::over(rt, rt.alloc(), routes, crew, listeners, 0)?;
    let second = HostLink::over(rt, rt.alloc(), routes, crew, listeners, 1)?;
    Ok([End::of(first, first_clock), End::of(second, second_clock)])
}

#[test]
fn who_asked_one_address_is_told_from_there(rt: HostRuntime) -> Result<(), Fail> {
    let shared = Shared {
        routes: make_routes(&rt)?,
        crew: Crew::of(2),
        origin: Origin::read(&rt)?,
    };
    let listeners = [
        Listener::bind(&rt, rt.alloc(), LOOPBACK_V4)?,
        Listener::bind(&rt, rt.alloc(), LOOPBACK_V6)?,
    ];
    let observer = client_of(&rt, "127.0.0.1:0", &listeners[0])?;
    let device = client_of(&rt, "[::1]:0", &listeners[1])?;
    let mut out = sink_of(rt.alloc(), b"")?;
    let mut ends = host_ends(&rt, &shared, &listeners)?;
    let (status, observed) = thread::join(
        &rt,
        || serve(&rt, &mut ends, &OpenGate, 20, &mut out),
        || observes(&observer, &device),
    );
    assert_eq!(rt; status, ServeStatus::Done);
    assert!(rt; matches!(observed, Ok(true)));
    assert!(rt; shared.crew.trouble().is_none());
    assert_eq!(rt; out.as_slice(), b"served 2 3 0\n".as_slice());
    Ok(())
}
