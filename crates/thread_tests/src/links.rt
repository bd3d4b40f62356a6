//! Links over real sockets on loopback, in both families of addresses.
use rd_base::{Host, Moment, Peer};
use std::net::{SocketAddr, UdpSocket};
use std::sync::Arc;
use std::test::Fail;
use udp_link::{Came, Clock, LAST_MOMENT, Link, UdpClock, UdpLink, Went};

/// Returns the peer at an address.
fn peer_of(address: SocketAddr) -> Peer {
    let host = match address {
        SocketAddr::V4(v4) => Host::V4(v4.ip().octets()),
        SocketAddr::V6(v6) => Host::V6(v6.ip().segments()),
    };
    Peer {
        host,
        port: address.port(),
    }
}

#[test]
fn links_exchange_datagrams(rt: HostRuntime) -> Result<(), Fail> {
    let datagram = [7u8; 4097];
    for host in ["127.0.0.1:0", "[::1]:0"] {
        let (near, far) = (UdpSocket::bind(&rt, host)?, UdpSocket::bind(&rt, host)?);
        let (here, there) = (peer_of(near.local_addr()?), peer_of(far.local_addr()?));
        let near = Arc::new(rt.alloc(), near)?;
        let mut second = UdpLink::of(Arc::try_clone(&near)?);
        let mut link = UdpLink::of(near);
        let mut other = UdpLink::of(Arc::new(rt.alloc(), far)?);
        let mut into = [0u8; 5000];
        for length in [0, 1, 4096, 4097] {
            let came = if length > 4096 {
                Came::TooLong
            } else {
                Came::Datagram(there, length)
            };
            assert_eq!(rt; other.send(here, &datagram[..length]), Went::Sent);
            assert_eq!(rt; link.recv(&mut into), came, "{length} octets");
        }
        assert_eq!(rt; (into[4095], into[4096]), (7, 0));
        assert_eq!(rt; link.send(there, b"ab"), Went::Sent);
        assert_eq!(rt; second.send(there, b"cd"), Went::Sent);
        assert_eq!(rt; other.recv(&mut into), Came::Datagram(here, 2));
        assert_eq!(rt; other.recv(&mut into), Came::Datagram(here, 2));
        assert_eq!(rt; &into[..2], b"cd".as_slice());
        assert_eq!(rt; second.recv(&mut into), Came::Nothing);
        assert_eq!(rt; link.send(there, &[0; 65536]), Went::Failed);
    }
    Ok(())
}

#[test]
fn an_absent_peer_is_no_fault(rt: HostRuntime) -> Result<(), Fail> {
    for host in ["127.0.0.1:0", "[::1]:0"] {
        let (near, told) = (UdpSocket::bind(&rt, host)?, UdpSocket::bind(&rt, host)?);
        let nobody = UdpSocket::bind(&rt, host)?.local_addr()?;
        told.connect(nobody)?;
        for socket in [near, told] {
            let mut link = UdpLink::of(Arc::new(rt.alloc(), socket)?);
            assert_eq!(rt; link.send(peer_of(nobody), b"ab"), Went::Sent);
            assert_eq!(rt; link.recv(&mut [0; 4096]), Came::Nothing);
            assert_eq!(rt; link.recv(&mut [0; 4096]), Came::Nothing);
        }
    }
    Ok(())
}

#[test]
fn a_clock_tells_the_time(rt: HostRuntime) {
    let mut clock = UdpClock::new(&rt);
    let first = clock.now();
    assert!(rt; first > Moment(1_700_000_000_000) && first <= clock.now());
    assert!(rt; first < Moment(LAST_MOMENT));
    let (one, another) = (clock.word(), clock.word());
    assert!(rt; one < 1_000_000_000 && another < 1_000_000_000);
    assert!(rt; one != 0 || another != 0, "a word is not 0 twice in a row");
}
