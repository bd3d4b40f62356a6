//! A server and a client over UDP, in one process.
use crate::host_links::client_at;
use crate::requests::{CREATED, LOOKUP, REGISTRATION, sink_of};
use rd_base::Starved;
use rd_seat::OpenGate;
use rd_server::{End, ServeStatus, serve};
use std::net::UdpSocket;
use std::sync::Arc;
use std::test::Fail;
use std::time::Clock;
use std::{io, thread};
use udp_link::{UdpClock, UdpLink};

/// The beginning of the answer to the lookup.
const LISTED: &[u8] = b"\x61\x45\x00\x02\xb2\x48\0\0\0\0\0\x01\0\0\x81\x28\xff<coap://127.0.0.1:";

/// Sends a request, and waits for its answer. Returns whether the answer begins like this.
pub(crate) fn is_answered(
    client: &UdpSocket,
    request: &[u8],
    beginning: &[u8],
) -> io::Result<bool> {
    let mut room = [0u8; 1280];
    client.send(request)?;
    let n = client.recv(&mut room)?;
    Ok(room[..n].starts_with(beginning))
}

/// Registers, and looks up what was registered. Returns whether both answers are the expected ones.
fn asks(client: &UdpSocket) -> io::Result<bool> {
    Ok(is_answered(client, REGISTRATION, CREATED)? && is_answered(client, LOOKUP, LISTED)?)
}

/// Returns two ends over one socket.
fn two_ends<R: Clock + AllocGlobal>(
    rt: &R,
    server: UdpSocket,
) -> Result<[End<UdpLink, UdpClock<&R>>; 2], Starved> {
    let server = Arc::new(rt.alloc(), server)?;
    let second = UdpLink::of(Arc::try_clone(&server)?);
    Ok([
        End::of(UdpLink::of(server), UdpClock::new(rt)),
        End::of(second, UdpClock::new(rt)),
    ])
}

#[test]
fn a_client_is_served_over_udp(rt: HostRuntime) -> Result<(), Fail> {
    let server = UdpSocket::bind(&rt, "127.0.0.1:0")?;
    let client = client_at(&rt, "127.0.0.1:0")?;
    client.connect(server.local_addr()?)?;
    let mut out = sink_of(rt.alloc(), b"")?;
    let mut ends = two_ends(&rt, server)?;
    let (status, answered) = thread::join(
        &rt,
        || serve(&rt, &mut ends, &OpenGate, 20, &mut out),
        || asks(&client),
    );
    assert_eq!(rt; status, ServeStatus::Done);
    assert!(rt; matches!(answered, Ok(true)));
    assert_eq!(rt; out.as_slice(), b"served 2 2 0\n".as_slice());
    Ok(())
}
