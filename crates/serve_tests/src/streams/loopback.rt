//! A server and a client over TCP, in one process.
use crate::requests::{DISCOVERED, DISCOVERY, sink_of};
use coap_stream::{StreamsStatus, TcpAccept, serve_streams};
use rd_seat::OpenGate;
use std::alloc::Global;
use std::io::{Read, Write};
use std::net::{Shutdown, TcpListener, TcpStream};
use std::test::Fail;
use std::time::Duration;
use std::{io, thread};
use udp_link::UdpClock;

/// Sends the request, closes the writing side, and reads to the end. Returns whether the answer is
/// the expected one.
fn asks(alloc: Global, client: TcpStream) -> io::Result<bool> {
    let mut client = client;
    let mut came = Vec::new(alloc);
    client.set_read_timeout(Some(Duration::from_secs(10)))?;
    client.write_all(DISCOVERY)?;
    client.shutdown(Shutdown::Write)?;
    client.read_to_end(&mut came)?;
    Ok(came.as_slice() == DISCOVERED)
}

#[test]
fn a_client_is_served_over_tcp(rt: HostRuntime) -> Result<(), Fail> {
    let mut out = sink_of(rt.alloc(), b"")?;
    let listener = TcpListener::bind(&rt, "127.0.0.1:0")?;
    let client = TcpStream::connect(&rt, listener.local_addr()?)?;
    let mut door = TcpAccept::of(&rt, rt.alloc(), listener);
    let mut clock = UdpClock::new(&rt);
    let alloc = rt.alloc();
    let (status, answered) = thread::join(
        &rt,
        || serve_streams(&rt, &mut door, &mut clock, &OpenGate, 1, &mut out),
        || asks(alloc, client),
    );
    assert_eq!(rt; status, StreamsStatus::Done);
    assert!(rt; matches!(answered, Ok(true)));
    assert_eq!(rt; out.as_slice(), b"talked 1 1\n".as_slice());
    Ok(())
}
