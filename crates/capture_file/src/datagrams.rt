//! UDP datagrams of captured packets.

use crate::faults::PacketFault;
use crate::internet::{UdpPacket, ipv4_udp, ipv6_udp};
use crate::link_layers::{Carried, behind_link_layer};
use crate::numbers::ByteOrder::BigEndian;
use crate::numbers::{number16_at, octets_at};
use crate::packets::Packet;
use std::net::SocketAddr;

/// The length of a UDP header in octets (RFC 768).
const UDP_HEADER: u16 = 8;

/// A UDP datagram.
#[derive(Clone, Copy, Debug)]
pub struct Datagram<'p> {
    /// The address and port that it came from.
    pub source: SocketAddr,
    /// The address and port that it went to.
    pub destination: SocketAddr,
    /// Its octets, without the header.
    pub payload: &'p [u8],
}

/// Returns the two ports at the beginning of a UDP datagram and the rest, or `None` if they are
/// cut.
fn ports_at(octets: &[u8]) -> Option<(u16, u16, &[u8])> {
    let (source, rest) = number16_at(BigEndian, octets)?;
    let (destination, rest) = number16_at(BigEndian, rest)?;
    Some((source, destination, rest))
}

/// Returns the payload after the ports of a UDP datagram. Returns `Cut` if the datagram has fewer
/// octets than its header says, and `Length` if the header says that it is shorter than the header.
fn payload_at(octets: &[u8]) -> Result<&[u8], PacketFault> {
    let (length, rest) = number16_at(BigEndian, octets).ok_or(PacketFault::Cut)?;
    let (_, rest) = number16_at(BigEndian, rest).ok_or(PacketFault::Cut)?;
    if length < UDP_HEADER {
        return Err(PacketFault::Length);
    }
    let length = usize::from(length - UDP_HEADER);
    let (payload, _) = octets_at(length, rest).ok_or(PacketFault::Cut)?;
    Ok(payload)
}

/// Returns the datagram of a UDP packet to or from a port, or `None` if it is of other ports.
fn of_port(port: u16, packet: UdpPacket<'_>) -> Result<Option<Datagram<'_>>, PacketFault> {
    let (source, destination, rest) = ports_at(packet.octets).ok_or(PacketFault::Cut)?;
    if source != port && destination != port {
        return Ok(None);
    }
    let payload = payload_at(rest)?;
    Ok(Some(Datagram {
        source: SocketAddr::new(packet.source, source),
        destination: SocketAddr::new(packet.destination, destination),
        payload,
    }))
}

/// Returns the UDP packet that a captured packet carries, or `None` if it carries something else.
fn udp_of(packet: Packet<'_>) -> Result<Option<UdpPacket<'_>>, PacketFault> {
    match behind_link_layer(packet.link_type, packet.frame)? {
        Carried::Ipv4(octets) => ipv4_udp(octets),
        Carried::Ipv6(octets) => ipv6_udp(octets),
        Carried::Other => Ok(None),
    }
}

/// Returns the UDP datagram to or from a port that a captured packet carries (RFC 768, RFC 791, RFC
/// 8200), or `None` if it carries something else.
///
/// Checksums are not checked, and octets after the IP packet are cut off.
///
/// # Errors
///
/// The first that applies on the way from the link layer to the payload, unless another protocol or
/// other ports come first.
/// - `LinkLayer` if the link type is not one that is read.
/// - `Cut` if the packet has fewer octets than its headers say.
/// - `Version` if it is of another version of IP than the link layer says.
/// - `Length` if a header says that it is shorter than itself.
/// - `Fragment` if the packet is a fragment.
pub fn datagram_of(port: u16, packet: Packet<'_>) -> Result<Option<Datagram<'_>>, PacketFault> {
    match udp_of(packet)? {
        None => Ok(None),
        Some(udp) => of_port(port, udp),
    }
}
