//! A link in memory, with calls that fail as planned.
use rd_base::{Bytes, Host, Peer, Starved};
use std::alloc::Global;
use std::test::Fail;
use udp_link::{Arrivals, Came, Link, MemLink, Went};

/// The peer of the tests.
const NEAR: Peer = Peer {
    host: Host::V4([192, 0, 2, 10]),
    port: 5683,
};

/// Returns datagrams of these lengths, each octet of which is 7.
fn sevens(alloc: Global, lengths: &[usize]) -> Result<Arrivals, Starved> {
    let mut sevens = Arrivals::new(alloc);
    for length in lengths {
        sevens.push(NEAR, Bytes::of(vec![in alloc; 7; *length]?))?;
    }
    Ok(sevens)
}

#[test]
fn a_link_fails_when_it_is_to(rt: HostRuntime) -> Result<(), Fail> {
    let alloc = rt.alloc();
    let coming = sevens(alloc, &[0, 1, 4096, 4097])?;
    let fail_recv = Bytes::copy_of(alloc, &[0, 3])?;
    let fail_send = Bytes::copy_of(alloc, &[1])?;
    let mut link = MemLink::of(alloc, coming, fail_recv, fail_send);
    let mut into = [0u8; 4096];
    let outcomes = [
        Came::Failed,
        Came::Datagram(NEAR, 0),
        Came::Datagram(NEAR, 1),
        Came::Failed,
        Came::Datagram(NEAR, 4096),
        Came::TooLong,
        Came::Nothing,
        Came::Nothing,
    ];
    for outcome in outcomes {
        assert_eq!(rt; link.recv(&mut into), outcome);
    }
    assert_eq!(rt; into[4095], 7);
    assert_eq!(rt; link.send(NEAR, b"ab"), Went::Sent);
    assert_eq!(rt; link.send(NEAR, b"cd"), Went::Failed);
    assert_eq!(rt; link.send(NEAR, b""), Went::Sent);
    let gone = link.gone().as_slice();
    assert_eq!(rt; gone.len(), 2);
    assert_eq!(rt; gone[0].1.as_slice(), b"ab".as_slice());
    assert_eq!(rt; gone[1].0, NEAR);
    Ok(())
}
