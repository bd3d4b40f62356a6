//! Writing of classic captures (draft-ietf-opsawg-pcap): UDP datagrams in IP packets without a link
//! layer.
ghost use Rattle.std.specs.Prelude.{◌≡◌, ◌+◌, ◌≤◌, length, IfOk};
ghost use Rattle.capture_file.specs.Written.{address_octets, header_octets, packet_octets};

use crate::checksums::summed;
use rd_base::{Bytes, Moment, Starved};
use std::alloc::Global;

/// The header of a capture, in little-endian numbers.
///
/// It has the magic number of times in microseconds, the version 2.4, and eight octets that are not
/// used. The maximum length of a packet (262,144 octets) and the link type 101 follow: IP packets
/// without a link layer.
pub const FILE_HEADER: [u8; 24] = [
    0xd4, 0xc3, 0xb2, 0xa1, 2, 0, 4, 0, 0, 0, 0, 0, 0, 0, 0, 0, 0, 0, 4, 0, 101, 0, 0, 0,
];

/// The maximum length of a payload in octets.
pub const MAX_PAYLOAD: usize = 4_096;

/// The number of milliseconds in a second.
const SECOND: u64 = 1_000;

/// The number of microseconds in a millisecond.
const MILLISECOND: u32 = 1_000;

/// The greatest number of seconds since 1970 in a capture.
const LAST_SECOND: u64 = 0xffff_ffff;

/// The length of a UDP header in octets (RFC 768).
const UDP_HEADER: u16 = 8;

/// The length of an IPv4 header without options, in octets (RFC 791 section 3.1).
const IPV4_HEADER: u16 = 20;

/// The version of IPv4, and the number of words of its header.
const IPV4_BEGIN: u8 = 0x45;

/// The version of IPv6.
const IPV6_BEGIN: u8 = 0x60;

/// A packet that may not be fragmented (RFC 791 section 3.1).
const DONT_FRAGMENT: u8 = 0x40;

/// The number of routers that a packet may pass.
const HOPS: u8 = 64;

/// UDP, as the protocol of a packet (RFC 768).
const UDP: u8 = 17;

/// The checksum of a datagram whose computed checksum is 0, since 0 would mean that it has none
/// (RFC 768).
const FULL_CHECKSUM: u16 = 0xffff;

/// The addresses that a datagram comes from and goes to.
#[derive(Clone, Copy, Debug, PartialEq, Eq)]
pub enum Route {
    /// Two IPv4 addresses.
    V4 {
        /// The address that it comes from.
        source: [u8; 4],
        /// The address that it goes to.
        destination: [u8; 4],
    },
    /// Two IPv6 addresses, in groups of 16 bits.
    V6 {
        /// The address that it comes from.
        source: [u16; 8],
        /// The address that it goes to.
        destination: [u16; 8],
    },
}

/// The ports of a datagram.
#[derive(Clone, Copy, Debug, PartialEq, Eq)]
pub struct Ports {
    /// The port that it comes from.
    pub source: u16,
    /// The port that it goes to.
    pub destination: u16,
}

/// Appends an IPv6 address.
fn append_groups(octets: &mut Bytes, groups: &[u16; 8]) -> Result<(), Starved>
    ensures { IfOk result (λ _. length octets.new ≡ length octets.old + 16) }
{
    'groups: for group in groups {
        octets.append(&group.to_be_bytes())?;
    }
    Ok(())
}

/// Returns the octets of the two addresses.
fn addresses(alloc: Global, route: &Route) -> Result<Bytes, Starved>
    ensures { IfOk result (λ octets. length octets ≡ address_octets route.now) }
{
    let mut octets = Bytes::new(alloc);
    match route {
        Route::V4 {
            source,
            destination,
        } => {
            octets.append(source)?;
            octets.append(destination)?;
        }
        Route::V6 {
            source,
            destination,
        } => {
            append_groups(&mut octets, source)?;
            append_groups(&mut octets, destination)?;
        }
    }
    Ok(octets)
}

/// Returns a UDP header with this checksum (RFC 768).
fn udp_header(ports: Ports, length: u16, checksum: u16) -> [u8; 8] {
    let [source_high, source_low] = ports.source.to_be_bytes();
    let [destination_high, destination_low] = ports.destination.to_be_bytes();
    let [length_high, length_low] = length.to_be_bytes();
    let [checksum_high, checksum_low] = checksum.to_be_bytes();
    [
        source_high,
        source_low,
        destination_high,
        destination_low,
        length_high,
        length_low,
        checksum_high,
        checksum_low,
    ]
}

/// Returns the checksum of a datagram, over its addresses, its protocol, its length, its header and
/// its payload (RFC 768, RFC 8200 section 8.1).
fn udp_checksum(addresses: &[u8], ports: Ports, length: u16, payload: &[u8]) -> u16 {
    let sum = summed(u16::from(UDP), addresses);
    let sum = summed(sum, &length.to_be_bytes());
    let sum = summed(sum, &udp_header(ports, length, 0));
    let checksum = !summed(sum, payload);
    if checksum == 0 {
        return FULL_CHECKSUM;
    }
    checksum
}

/// Returns an IPv4 header up to its addresses, with this checksum (RFC 791 section 3.1).
fn ipv4_header(length: u16, checksum: u16) -> [u8; 12] {
    let [length_high, length_low] = length.to_be_bytes();
    let [checksum_high, checksum_low] = checksum.to_be_bytes();
    [
        IPV4_BEGIN,
        0,
        length_high,
        length_low,
        0,
        0,
        DONT_FRAGMENT,
        0,
        HOPS,
        UDP,
        checksum_high,
        checksum_low,
    ]
}

/// Returns an IPv6 header up to its addresses (RFC 8200 section 3).
fn ipv6_header(length: u16) -> [u8; 8] {
    let [length_high, length_low] = length.to_be_bytes();
    [IPV6_BEGIN, 0, 0, 0, length_high, length_low, UDP, HOPS]
}

/// Appends an IP header up to its addresses, of a packet that carries `carried` octets.
fn append_ip_header(
    packet: &mut Bytes,
    route: &Route,
    addresses: &[u8],
    carried: u16,
) -> Result<(), Starved>
    requires { carried + 20 ≤ 65_535 }
    ensures { IfOk result (λ _. length packet.new ≡ length packet.old + header_octets route.now) }
{
    match route {
        Route::V4 { .. } => {
            let length = carried + IPV4_HEADER;
            let sum = summed(0, &ipv4_header(length, 0));
            let checksum = !summed(sum, addresses);
            packet.append(&ipv4_header(length, checksum))
        }
        Route::V6 { .. } => packet.append(&ipv6_header(carried)),
    }
}

/// Returns the packet of a datagram.
fn ip_packet(alloc: Global, route: &Route, ports: Ports, payload: &[u8]) -> Result<Bytes, Starved>
    requires { length payload.now ≤ MAX_PAYLOAD }
    ensures { IfOk result (λ packet. length packet ≡ packet_octets route.now (length payload.now)) }
{
    let addresses = addresses(alloc, route)?;
    let length = payload.len() as u16 + UDP_HEADER;
    let checksum = udp_checksum(addresses.as_slice(), ports, length, payload);
    let mut packet = Bytes::new(alloc);
    append_ip_header(&mut packet, route, addresses.as_slice(), length)?;
    packet.append(addresses.as_slice())?;
    packet.append(&udp_header(ports, length, checksum))?;
    packet.append(payload)?;
    Ok(packet)
}

/// Returns the seconds and microseconds of a moment, with at most the last second of a capture.
fn time_of(moment: Moment) -> (u32, u32) {
    let seconds = (moment.0 / SECOND).min(LAST_SECOND) as u32;
    let milliseconds = (moment.0 % SECOND) as u32;
    (seconds, milliseconds * MILLISECOND)
}

/// Returns a datagram as a packet of a capture that begins with [`FILE_HEADER`], with the header of
/// the packet.
///
/// It is an IP packet with correct checksums, captured whole at this moment, in milliseconds since
/// 1970. A moment after the last second that a capture can express, in 2106, gets that second.
///
/// # Requires
///
/// The payload has at most [`MAX_PAYLOAD`] octets.
///
/// # Errors
///
/// `Starved` if memory runs out.
pub fn packet_record(
    alloc: Global,
    moment: Moment,
    route: &Route,
    ports: Ports,
    payload: &[u8],
) -> Result<Bytes, Starved>
    requires { length payload.now ≤ MAX_PAYLOAD }
    ensures { IfOk result
        (λ octets. length octets ≡ 16 + packet_octets route.now (length payload.now)) }
{
    let (seconds, microseconds) = time_of(moment);
    let packet = ip_packet(alloc, route, ports, payload)?;
    let length = packet.len() as u32;
    let mut record = Bytes::new(alloc);
    record.append(&seconds.to_le_bytes())?;
    record.append(&microseconds.to_le_bytes())?;
    record.append(&length.to_le_bytes())?;
    record.append(&length.to_le_bytes())?;
    record.append(packet.as_slice())?;
    Ok(record)
}
