//! Requests, their answers, and links in memory that receive them.
use rd_base::{Bytes, Host, MemSink, Peer, Starved};
use std::alloc::Global;
use udp_link::{Arrivals, MemClock, MemLink, Moments, Words};

/// The peer of the endpoint.
pub(crate) const ENDPOINT: Peer = Peer {
    host: Host::V4([192, 0, 2, 10]),
    port: 5683,
};

/// The client that looks.
pub(crate) const CLIENT: Peer = Peer {
    host: Host::V4([192, 0, 2, 30]),
    port: 40_000,
};

/// The registration of `node1` with two links (RFC 9176 section 5).
pub(crate) const REGISTRATION: &[u8] =
    b"\x41\x02\x00\x01\xa1\xb2rd\x11\x28\x38ep=node1\x06lt=600\xff\
      </temp>;rt=\"temperature\";ct=0,</light>;rt=\"light-lux\";if=\"sensor\"";

/// The beginning of its answer: 2.01 with its location.
pub(crate) const CREATED: &[u8] = b"\x61\x41\x00\x01\xa1\x82rd\x011";

/// A lookup of the second link (RFC 9176 section 6).
pub(crate) const LOOKUP: &[u8] = b"\x41\x01\x00\x02\xb2\xb9rd-lookup\x03res\x4crt=light-lux";

/// Its answer if nothing is registered.
pub(crate) const NOTHING: &[u8] = b"\x61\x45\x00\x02\xb2\x48\0\0\0\0\0\0\0\0\x81\x28";

/// Its answer after the registration.
pub(crate) const LISTED: &[u8] = b"\x61\x45\x00\x02\xb2\x48\0\0\0\0\0\x01\0\0\x81\x28\xff\
      <coap://192.0.2.10/light>;rt=\"light-lux\";if=\"sensor\"";

/// A CSM, and the discovery of what a directory serves, as octets of a connection (RFC 8323
/// section 5.3, RFC 9176 section 4).
pub(crate) const DISCOVERY: &[u8] =
    b"\x00\xe1\xd1\x0f\x01\xb2\xbb.well-known\x04core\x4art=core.rd";

/// The octets that are then written.
pub(crate) const DISCOVERED: &[u8] =
    b"\x00\xe1\xd1\x0e\x45\xb2\xc1\x28\xff</rd>;rt=\"core.rd\";ct=40";

/// Returns a link that receives these datagrams from the endpoint, one after the other. The
/// receives and sends with these numbers, from 0, fail.
pub(crate) fn link_of(
    alloc: Global,
    datagrams: &[&[u8]],
    fail_recv: &[u8],
    fail_send: &[u8],
) -> Result<MemLink, Starved> {
    let mut coming = Arrivals::new(alloc);
    for datagram in datagrams {
        coming.push(ENDPOINT, Bytes::copy_of(alloc, datagram)?)?;
    }
    let fail_recv = Bytes::copy_of(alloc, fail_recv)?;
    let fail_send = Bytes::copy_of(alloc, fail_send)?;
    Ok(MemLink::of(alloc, coming, fail_recv, fail_send))
}

/// Returns an output whose writes with these numbers, from 0, fail.
pub(crate) fn sink_of(alloc: Global, fail: &[u8]) -> Result<MemSink, Starved> {
    Ok(MemSink::of(alloc, Bytes::copy_of(alloc, fail)?))
}

/// Returns a clock that does not move.
pub(crate) fn clock_of(alloc: Global) -> MemClock {
    MemClock::of(Moments::of(Vec::new(alloc)), Words::of(Vec::new(alloc)))
}

/// Returns whether the datagram with this index went to the endpoint, and begins like this.
pub(crate) fn went(link: &MemLink, number: usize, beginning: &[u8]) -> bool {
    match link.gone().as_slice().get(number) {
        Some((peer, octets)) => *peer == ENDPOINT && octets.as_slice().starts_with(beginning),
        None => false,
    }
}
