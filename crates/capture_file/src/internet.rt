//! The Internet Protocol, versions 4 and 6: the UDP datagram that a packet carries.
ghost use Rattle.std.specs.Prelude.{◌<◌, length, IfSome};

use crate::faults::PacketFault;
use crate::numbers::ByteOrder::BigEndian;
use crate::numbers::{number16_at, octets_at};
use std::net::{IpAddr, Ipv4Addr, Ipv6Addr};

/// UDP, as the protocol of a packet (RFC 768).
const UDP: u8 = 17;

/// The extension header of options for each hop (RFC 8200 section 4.3).
const HOP_BY_HOP: u8 = 0;

/// The extension header of a route (RFC 8200 section 4.4).
const ROUTING: u8 = 43;

/// The extension header of a fragment (RFC 8200 section 4.5).
const FRAGMENT: u8 = 44;

/// The extension header of options for the destination (RFC 8200 section 4.6).
const DESTINATION: u8 = 60;

/// The number of octets in a word of an IPv4 header.
const WORD: u16 = 4;

/// The minimum length of an IPv4 header in octets (RFC 791 section 3.1).
const IPV4_HEADER: u16 = 20;

/// The bits of an IPv4 header of which one is set in a fragment: more fragments follow, or the
/// offset is not 0 (RFC 791 section 3.1).
const IS_FRAGMENT: u16 = 0x3fff;

/// The length of the version, the traffic class and the flow label of IPv6, in octets.
const IPV6_FLOW: usize = 4;

/// The number of octets of an extension header that its length does not count. It is also the unit
/// in which the others are counted (RFC 8200 section 4.3).
const EXTENSION_UNIT: usize = 8;

/// A UDP datagram in an IP packet, with its header.
#[derive(Clone, Copy, Debug)]
pub(crate) struct UdpPacket<'p> {
    /// The address that the packet came from.
    pub source: IpAddr,
    /// The address that it went to.
    pub destination: IpAddr,
    /// The octets of the datagram, as far as they were captured and are part of the packet.
    pub octets: &'p [u8],
}

/// Returns the first octets, at most `count`.
fn at_most(count: usize, octets: &[u8]) -> &[u8] {
    &octets[..count.min(octets.len())]
}

/// Returns the version of the packet that begins with this octet.
pub(crate) fn version_of(first: u8) -> u8 {
    first / 16
}

/// Checks that octets begin a packet of this version. Returns `Cut` if there are none, and
/// `Version` if they do not.
fn check_version(version: u8, octets: &[u8]) -> Result<(), PacketFault> {
    let first = octets.first().ok_or(PacketFault::Cut)?;
    if version_of(*first) != version {
        return Err(PacketFault::Version);
    }
    Ok(())
}

/// The fields of an IPv4 header that are used here (RFC 791 section 3.1).
#[derive(Clone, Copy, Debug)]
struct Ipv4Header {
    /// The length of the header in octets, with its options.
    header_length: u16,
    /// The length of the packet in octets, with the header.
    total_length: u16,
    /// The flags, and the offset of a fragment.
    fragment: u16,
    /// The protocol that the packet carries.
    protocol: u8,
    /// The address that the packet came from.
    source: IpAddr,
    /// The address that the packet went to.
    destination: IpAddr,
}

/// Returns the IPv4 address at the beginning of octets and the rest, or `None` if it is cut.
fn ipv4_address_at(octets: &[u8]) -> Option<(IpAddr, &[u8])> {
    let [first, second, third, fourth, rest @ ..] = octets else {
        return None;
    };
    Some((
        IpAddr::V4(Ipv4Addr::new(*first, *second, *third, *fourth)),
        rest,
    ))
}

/// Returns the two octets at the beginning of octets and the rest, or `None` if there are fewer.
fn pair_at(octets: &[u8]) -> Option<(u8, u8, &[u8])> {
    let [first, second, rest @ ..] = octets else {
        return None;
    };
    Some((*first, *second, rest))
}

/// Returns the IPv4 header at the beginning of octets, or `None` if it is cut.
fn ipv4_header(octets: &[u8]) -> Option<Ipv4Header> {
    let (first, _, rest) = pair_at(octets)?;
    let (total_length, rest) = number16_at(BigEndian, rest)?;
    let (_, rest) = number16_at(BigEndian, rest)?;
    let (fragment, rest) = number16_at(BigEndian, rest)?;
    let (_, protocol, rest) = pair_at(rest)?;
    let (_, rest) = number16_at(BigEndian, rest)?;
    let (source, rest) = ipv4_address_at(rest)?;
    let (destination, _) = ipv4_address_at(rest)?;
    Some(Ipv4Header {
        header_length: u16::from(first % 16) * WORD,
        total_length,
        fragment,
        protocol,
        source,
        destination,
    })
}

/// Returns the UDP datagram of an IPv4 packet, or `None` if it carries another protocol.
///
/// Returns `Version` if the packet is of another version, and `Cut` if it ends before its header
/// does. Returns `Length` if its header says that it is shorter than the header, and `Fragment` if
/// it is a fragment.
pub(crate) fn ipv4_udp(octets: &[u8]) -> Result<Option<UdpPacket<'_>>, PacketFault> {
    check_version(4, octets)?;
    let header = ipv4_header(octets).ok_or(PacketFault::Cut)?;
    if header.protocol != UDP {
        return Ok(None);
    }
    if header.header_length < IPV4_HEADER || header.total_length < header.header_length {
        return Err(PacketFault::Length);
    }
    if header.fragment & IS_FRAGMENT != 0 {
        return Err(PacketFault::Fragment);
    }
    let (_, rest) = octets_at(usize::from(header.header_length), octets).ok_or(PacketFault::Cut)?;
    let carried = usize::from(header.total_length - header.header_length);
    Ok(Some(UdpPacket {
        source: header.source,
        destination: header.destination,
        octets: at_most(carried, rest),
    }))
}

/// Returns the IPv6 address at the beginning of octets and the rest, or `None` if it is cut.
fn ipv6_address_at(octets: &[u8]) -> Option<(IpAddr, &[u8])> {
    let (first, rest) = number16_at(BigEndian, octets)?;
    let (second, rest) = number16_at(BigEndian, rest)?;
    let (third, rest) = number16_at(BigEndian, rest)?;
    let (fourth, rest) = number16_at(BigEndian, rest)?;
    let (fifth, rest) = number16_at(BigEndian, rest)?;
    let (sixth, rest) = number16_at(BigEndian, rest)?;
    let (seventh, rest) = number16_at(BigEndian, rest)?;
    let (eighth, rest) = number16_at(BigEndian, rest)?;
    let groups = [first, second, third, fourth, fifth, sixth, seventh, eighth];
    Some((IpAddr::V6(Ipv6Addr::from_segments(groups)), rest))
}

/// The fields of an IPv6 header that are used here, and the payload (RFC 8200 section 3).
#[derive(Clone, Copy, Debug)]
struct Ipv6Packet<'p> {
    /// The kind of the header after this one, or the protocol of the payload.
    next_header: u8,
    /// The address that the packet came from.
    source: IpAddr,
    /// The address that the packet went to.
    destination: IpAddr,
    /// The octets after the header, as far as they were captured and are part of the packet.
    payload: &'p [u8],
}

/// Returns the IPv6 packet of octets, or `None` if its header is cut.
fn ipv6_packet(octets: &[u8]) -> Option<Ipv6Packet<'_>> {
    let (_, rest) = octets_at(IPV6_FLOW, octets)?;
    let (length, rest) = number16_at(BigEndian, rest)?;
    let (next_header, _, rest) = pair_at(rest)?;
    let (source, rest) = ipv6_address_at(rest)?;
    let (destination, rest) = ipv6_address_at(rest)?;
    Some(Ipv6Packet {
        next_header,
        source,
        destination,
        payload: at_most(usize::from(length), rest),
    })
}

/// Returns whether an extension header is one that is skipped.
fn is_passed(header: u8) -> bool {
    header == HOP_BY_HOP || header == ROUTING || header == DESTINATION
}

/// Returns the kind of the header after the extension header at the beginning of octets, and the
/// rest, or `None` if it is cut.
fn behind_extension(octets: &[u8]) -> Option<(u8, &[u8])>
    ensures { IfSome result (λ next. length next.1.now < length octets.now) }
{
    let [next, length, ..] = octets else {
        return None;
    };
    let (_, rest) = octets_at((usize::from(*length) + 1) * EXTENSION_UNIT, octets)?;
    Some((*next, rest))
}

/// Returns the octets of the UDP datagram after extension headers, of which `header` is the first,
/// or `None` if another protocol follows them. Returns `Cut` if an extension header is cut, and
/// `Fragment` if one is that of a fragment.
fn behind_extensions(header: u8, octets: &[u8]) -> Result<Option<&[u8]>, PacketFault> {
    let mut header = header;
    let mut rest = octets;
    'headers: while is_passed(header) {
        let (next, behind) = behind_extension(rest).ok_or(PacketFault::Cut)?;
        header = next;
        rest = behind;
    }
    match header {
        UDP => Ok(Some(rest)),
        FRAGMENT => Err(PacketFault::Fragment),
        _ => Ok(None),
    }
}

/// Returns the UDP datagram of an IPv6 packet, or `None` if it carries another protocol.
///
/// Returns `Version` if the packet is of another version, `Cut` if it ends before its headers do,
/// and `Fragment` if it is a fragment.
pub(crate) fn ipv6_udp(octets: &[u8]) -> Result<Option<UdpPacket<'_>>, PacketFault> {
    check_version(6, octets)?;
    let packet = ipv6_packet(octets).ok_or(PacketFault::Cut)?;
    match behind_extensions(packet.next_header, packet.payload)? {
        None => Ok(None),
        Some(octets) => Ok(Some(UdpPacket {
            source: packet.source,
            destination: packet.destination,
            octets,
        })),
    }
}
