//! Peers that stand for connections.
ghost use Rattle.std.specs.Prelude.{◌≡◌, ◌+◌, ◌*◌, ◌/◌, ◌<◌, ◌^◌};
ghost use Rattle.tcp_door.specs.Lanes.{IsPeerOf};
ghost use Rattle.tcp_door.specs.Peers.{IsNoDevice, number_of};

use rd_base::{Host, Peer};

/// The first group of the addresses that no device has, `100::/64` (RFC 6666).
const DISCARDED: u16 = 0x100;

/// Splits off the last 16 bits of a number.
fn split(number: u64) -> (u64, u16)
    ensures joined { result.0 * 65_536 + result.1 ≡ number }
    ensures quotient { result.0 ≡ number / 65_536 }
{
    (number / 65_536, (number % 65_536) as u16)
}

/// Returns the peer that stands for the connection with this number: an address of the block that
/// no device has (RFC 6666), and port 0.
pub fn peer_of_connection(number: u64) -> Peer
    // The peer tells the number, so that two connections never have the same.
    ensures number { number_of result ≡ number }
    ensures strange { IsNoDevice result }
{
    let (rest, last) = split(number);
    let (rest, third) = split(rest);
    let (rest, second) = split(rest);
    Peer {
        host: Host::V6([DISCARDED, 0, 0, 0, rest as u16, second, third, last]),
        port: 0,
    }
}

/// Returns the peer that stands for the connection of a lane with this number.
///
/// # Requires
///
/// The lane is one of 16, from 0 on, and the number is below 2^60.
pub fn peer_of_lane(lane: u8, number: u64) -> Peer
    requires lane { lane < 16 }
    requires number { number < 2 ^ 60 }
    ensures { IsPeerOf lane number result }
{
    peer_of_connection(number * 16 + u64::from(lane))
}
