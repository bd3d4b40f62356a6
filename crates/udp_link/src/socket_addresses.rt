//! Peers as addresses of a socket.
ghost use Rattle.std.specs.Prelude.{◌≡◌};
ghost use Rattle.rd_base.specs.Peers.{socket_of};
ghost use Rattle.udp_link.specs.Addresses.{peer_at};

use rd_base::{Host, Peer};
use std::net::{Ipv4Addr, Ipv6Addr, SocketAddr, SocketAddrV4, SocketAddrV6};

/// Returns the address of a peer, without flow information and zone.
pub(crate) fn address_of(peer: Peer) -> SocketAddr
    ensures value { result ≡ socket_of peer.host peer.port }
    ensures back { peer_at result ≡ peer }
{
    match peer.host {
        Host::V4(octets) => {
            SocketAddr::V4(SocketAddrV4::new(Ipv4Addr::from_octets(octets), peer.port))
        }
        Host::V6(groups) => {
            let ip = Ipv6Addr::from_segments(groups);
            SocketAddr::V6(SocketAddrV6::new(ip, peer.port, 0, 0))
        }
    }
}

/// Returns the peer at an address. Ignores the flow information and the zone of the address.
pub(crate) fn peer_of(address: SocketAddr) -> Peer
    ensures { result ≡ peer_at address }
{
    match address {
        SocketAddr::V4(v4) => Peer {
            host: Host::V4(v4.ip().octets()),
            port: v4.port(),
        },
        SocketAddr::V6(v6) => Peer {
            host: Host::V6(v6.ip().segments()),
            port: v6.port(),
        },
    }
}
