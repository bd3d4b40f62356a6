//! Peers at addresses.
ghost use Rattle.std.specs.Prelude.{◌^◌, ◌<◌};
ghost use Rattle.rd_base.specs.Peers.{IsHost};

use rd_base::{Host, Peer};
use std::net::SocketAddr;

/// Returns the peer at an address, without flow information and zone.
pub(crate) fn peer_of(address: SocketAddr) -> Peer
    ensures host { IsHost result.host }
    ensures port { result.port < 2 ^ 16 }
{
    match address {
        SocketAddr::V4(v4) => Peer {
            host: Host::V4(v4.ip().octets()),
            port: v4.port(),
        },
        SocketAddr::V6(v6) => Peer {
            host: Host::V6(v6.ip().segments()),
            port: v6.port(),
        },
    }
}
