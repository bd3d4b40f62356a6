//! Link layers: the beginning of a packet, and what it carries.
ghost use Rattle.std.specs.Prelude.{◌≤◌, length, IfSome};

use crate::faults::PacketFault;
use crate::internet::version_of;
use crate::numbers::ByteOrder::BigEndian;
use crate::numbers::{number16_at, number32_at, octets_at};

/// BSD's loopback: the number of an address family in the byte order of the host.
const LINKTYPE_NULL: u16 = 0;

/// Ethernet.
const LINKTYPE_ETHERNET: u16 = 1;

/// An IP packet without a link layer, on the systems that give it the number 12.
const DLT_RAW: u16 = 12;

/// An IP packet without a link layer.
const LINKTYPE_RAW: u16 = 101;

/// OpenBSD's loopback: the number of an address family.
const LINKTYPE_LOOP: u16 = 108;

/// Linux cooked capture.
const LINKTYPE_LINUX_SLL: u16 = 113;

/// An IPv4 packet without a link layer.
const LINKTYPE_IPV4: u16 = 228;

/// An IPv6 packet without a link layer.
const LINKTYPE_IPV6: u16 = 229;

/// Linux cooked capture, version 2.
const LINKTYPE_LINUX_SLL2: u16 = 276;

/// IPv4, as an EtherType (RFC 894).
const ETHERTYPE_IPV4: u16 = 0x0800;

/// IPv6, as an EtherType (RFC 2464).
const ETHERTYPE_IPV6: u16 = 0x86dd;

/// A VLAN tag (IEEE 802.1Q).
const ETHERTYPE_VLAN: u16 = 0x8100;

/// A VLAN tag around others (IEEE 802.1ad).
const ETHERTYPE_SERVICE_VLAN: u16 = 0x88a8;

/// IPv4, as an address family, on all systems.
const AF_INET: u32 = 2;

/// IPv6, as an address family on Linux.
const AF_INET6_LINUX: u32 = 10;

/// IPv6, as an address family on NetBSD and OpenBSD.
const AF_INET6_NETBSD: u32 = 24;

/// IPv6, as an address family on FreeBSD.
const AF_INET6_FREEBSD: u32 = 28;

/// IPv6, as an address family on Darwin.
const AF_INET6_DARWIN: u32 = 30;

/// The length of two Ethernet addresses in octets.
const ETHERNET_ADDRESSES: usize = 12;

/// The number of octets before the EtherType of a Linux cooked packet: its kind, the kind of the
/// device, and an address of eight octets with its length.
const COOKED_PREFIX: usize = 14;

/// The number of octets after the EtherType of a Linux cooked packet of version 2.
const COOKED2_SUFFIX: usize = 18;

/// The beginning of the packets of an interface, by the registry of link types
/// (draft-ietf-opsawg-pcaplinktype).
#[derive(Clone, Copy, Debug, PartialEq, Eq)]
pub enum LinkType {
    /// The number of an address family (`NULL` and `LOOP`).
    Loopback,
    /// Ethernet addresses and an EtherType, with VLAN tags before it (`ETHERNET`).
    Ethernet,
    /// The header of a Linux cooked capture (`LINUX_SLL`).
    LinuxCooked,
    /// The header of a Linux cooked capture, version 2 (`LINUX_SLL2`).
    LinuxCooked2,
    /// Nothing: an IP packet of either version (`RAW`).
    Raw,
    /// Nothing: an IPv4 packet (`IPV4`).
    Ipv4,
    /// Nothing: an IPv6 packet (`IPV6`).
    Ipv6,
    /// A link type that is not read here.
    Other,
}

impl LinkType {
    /// Returns the link type with this number.
    pub fn of(number: u16) -> LinkType {
        match number {
            LINKTYPE_NULL | LINKTYPE_LOOP => LinkType::Loopback,
            LINKTYPE_ETHERNET => LinkType::Ethernet,
            LINKTYPE_LINUX_SLL => LinkType::LinuxCooked,
            LINKTYPE_LINUX_SLL2 => LinkType::LinuxCooked2,
            LINKTYPE_RAW | DLT_RAW => LinkType::Raw,
            LINKTYPE_IPV4 => LinkType::Ipv4,
            LINKTYPE_IPV6 => LinkType::Ipv6,
            _ => LinkType::Other,
        }
    }
}

/// What a packet carries after the link layer.
#[derive(Clone, Copy, Debug)]
pub(crate) enum Carried<'p> {
    /// An IPv4 packet, according to the link layer.
    Ipv4(&'p [u8]),
    /// An IPv6 packet, according to the link layer.
    Ipv6(&'p [u8]),
    /// No IP packet.
    Other,
}

/// Returns what octets are according to an EtherType.
fn by_ether_type(ether_type: u16, octets: &[u8]) -> Carried<'_> {
    match ether_type {
        ETHERTYPE_IPV4 => Carried::Ipv4(octets),
        ETHERTYPE_IPV6 => Carried::Ipv6(octets),
        _ => Carried::Other,
    }
}

/// Returns whether an EtherType announces a VLAN tag, which has two octets and a further EtherType.
fn is_vlan(ether_type: u16) -> bool {
    ether_type == ETHERTYPE_VLAN || ether_type == ETHERTYPE_SERVICE_VLAN
}

/// Skips VLAN tags. Returns what the octets after an EtherType are, or `None` if they are cut.
fn tagged(ether_type: u16, octets: &[u8]) -> Option<Carried<'_>> {
    let mut ether_type = ether_type;
    let mut rest = octets;
    'tags: while is_vlan(ether_type) {
        let (_, behind) = number16_at(BigEndian, rest)?;
        let (next, behind) = number16_at(BigEndian, behind)?;
        ether_type = next;
        rest = behind;
    }
    Some(by_ether_type(ether_type, rest))
}

/// Returns what an Ethernet frame carries, or `None` if it is cut.
fn ethernet(frame: &[u8]) -> Option<Carried<'_>> {
    let (_, rest) = octets_at(ETHERNET_ADDRESSES, frame)?;
    let (ether_type, rest) = number16_at(BigEndian, rest)?;
    tagged(ether_type, rest)
}

/// Returns what a Linux cooked packet carries, or `None` if it is cut.
fn linux_cooked(frame: &[u8]) -> Option<Carried<'_>> {
    let (_, rest) = octets_at(COOKED_PREFIX, frame)?;
    let (ether_type, rest) = number16_at(BigEndian, rest)?;
    tagged(ether_type, rest)
}

/// Returns what a Linux cooked packet of version 2 carries, or `None` if it is cut.
fn linux_cooked2(frame: &[u8]) -> Option<Carried<'_>> {
    let (ether_type, rest) = number16_at(BigEndian, frame)?;
    let (_, rest) = octets_at(COOKED2_SUFFIX, rest)?;
    tagged(ether_type, rest)
}

/// Returns what a loopback packet carries, or `None` if it is cut. The number of its address family
/// is small, so it is recognized in either byte order.
fn loopback(frame: &[u8]) -> Option<Carried<'_>> {
    let (family, rest) = number32_at(BigEndian, frame)?;
    let family = family.min(family.swap_bytes());
    Some(match family {
        AF_INET => Carried::Ipv4(rest),
        AF_INET6_LINUX | AF_INET6_NETBSD | AF_INET6_FREEBSD | AF_INET6_DARWIN => {
            Carried::Ipv6(rest)
        }
        _ => Carried::Other,
    })
}

/// Returns what an IP packet without a link layer is, by the version in its first octet. Returns
/// `Cut` if there is no octet, and `Version` if it is neither version.
fn raw(frame: &[u8]) -> Result<Carried<'_>, PacketFault> {
    match frame.first() {
        None => Err(PacketFault::Cut),
        Some(first) => match version_of(*first) {
            4 => Ok(Carried::Ipv4(frame)),
            6 => Ok(Carried::Ipv6(frame)),
            _ => Err(PacketFault::Version),
        },
    }
}

/// Returns what a packet with this link type carries. Returns `LinkLayer` if the link type is not
/// one that is read. Returns `Cut` if the packet ends before its link layer does, and `Version` if
/// it is an IP packet of neither version.
pub(crate) fn behind_link_layer(
    link_type: LinkType,
    frame: &[u8],
) -> Result<Carried<'_>, PacketFault> {
    match link_type {
        LinkType::Loopback => loopback(frame).ok_or(PacketFault::Cut),
        LinkType::Ethernet => ethernet(frame).ok_or(PacketFault::Cut),
        LinkType::LinuxCooked => linux_cooked(frame).ok_or(PacketFault::Cut),
        LinkType::LinuxCooked2 => linux_cooked2(frame).ok_or(PacketFault::Cut),
        LinkType::Raw => raw(frame),
        LinkType::Ipv4 => Ok(Carried::Ipv4(frame)),
        LinkType::Ipv6 => Ok(Carried::Ipv6(frame)),
        LinkType::Other => Err(PacketFault::LinkLayer),
    }
}
