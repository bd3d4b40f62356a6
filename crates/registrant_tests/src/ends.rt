//! A link and a clock in memory, and what the link receives.
ghost use Rattle.std.specs.Prelude.{◌≤◌, ◌^◌};
ghost use Rattle.std.specs.List.{All};

use rd_base::{Bytes, Host, Moment, Peer, Starved};
use std::alloc::Global;
use udp_link::{Arrivals, MemClock, MemLink, Moments, Words};

/// `ACK 2.01` to the second request, with the location `/rd/7`.
pub(crate) const CREATED: &[u8] = b"\x68\x41\x00\x01\x00\x00\x00\x00\x00\x00\x00\x02\x82rd\x017";

/// `ACK 4.00` to the first request.
pub(crate) const REFUSED: &[u8] = b"\x68\x80\x00\x00\x00\x00\x00\x00\x00\x00\x00\x01\xfflinks";

/// Returns the directory at an address of 192.0.2.0/24.
pub(crate) fn directory(last: u8) -> Peer {
    Peer {
        host: Host::V4([192, 0, 2, last]),
        port: 5683,
    }
}

/// Returns a link that receives these datagrams, each from the directory with that last octet. The
/// receives with these numbers fail.
pub(crate) fn link_of(
    alloc: Global,
    coming: &[(u8, &[u8])],
    fail_recv: &[u8],
) -> Result<MemLink, Starved> {
    let mut arrivals = Arrivals::new(alloc);
    for (last, octets) in coming {
        arrivals.push(directory(*last), Bytes::copy_of(alloc, octets)?)?;
    }
    let fail_recv = Bytes::copy_of(alloc, fail_recv)?;
    Ok(MemLink::of(alloc, arrivals, fail_recv, Bytes::new(alloc)))
}

/// Returns a clock whose words are 0 and whose moments are these, in milliseconds.
pub(crate) fn clock_of(alloc: Global, millis: &[u32]) -> Result<MemClock, Starved> {
    let mut moments = Vec::new(alloc);
    for at in millis {
        moments.push(Moment(u64::from(*at)))?;
    }
    Ok(MemClock::of(Moments::of(moments), Words::of(Vec::new(alloc))))
}
