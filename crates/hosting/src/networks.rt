//! Networks: an address, and how many of its first bits count.
ghost use Rattle.std.specs.Prelude.{◌≡◌, ◌≤◌, ◌<◌, ◌^◌};
ghost use Rattle.hosting.specs.Networks as spec;

use crate::prefixes::{Network, width_of};
use rd_base::Host;
use std::net::{Ipv4Addr, Ipv6Addr};
use trace_text::{number_read, offset_of};

/// Returns whether two numbers of `width` bits agree in the first `bits` of them.
fn agree(width: u8, bits: u8, a: u64, b: u64) -> bool
    requires { width ≤ 64 }
    ensures { result ≡ spec.agree width bits a b }
{
    if bits == 0 {
        return true;
    }
    let left = width.saturating_sub(bits);
    a >> left == b >> left
}

/// Returns the number that the octets of an IPv4 address form.
fn v4_number(octets: [u8; 4]) -> u64
    ensures { result ≡ spec.v4_number octets }
{
    let high = u64::from(octets[0]) * (1 << 24) + u64::from(octets[1]) * (1 << 16);
    high + (u64::from(octets[2]) * (1 << 8) + u64::from(octets[3]))
}

/// Returns the number that the first four groups of an IPv6 address form.
fn first_half(groups: [u16; 8]) -> u64
    ensures { result ≡ spec.half 0 groups }
{
    let high = u64::from(groups[0]) * (1 << 48) + u64::from(groups[1]) * (1 << 32);
    high + (u64::from(groups[2]) * (1 << 16) + u64::from(groups[3]))
}

/// Returns the number that the last four groups of an IPv6 address form.
fn last_half(groups: [u16; 8]) -> u64
    ensures { result ≡ spec.half 4 groups }
{
    let high = u64::from(groups[4]) * (1 << 48) + u64::from(groups[5]) * (1 << 32);
    high + (u64::from(groups[6]) * (1 << 16) + u64::from(groups[7]))
}

/// Returns whether two IPv6 addresses agree in their first `bits` bits.
fn agree_v6(bits: u8, a: [u16; 8], b: [u16; 8]) -> bool
    ensures { result ≡ spec.holds (Host.V6 a) bits (Host.V6 b) }
{
    if bits <= 64 {
        return agree(64, bits, first_half(a), first_half(b));
    }
    first_half(a) == first_half(b) && agree(64, bits - 64, last_half(a), last_half(b))
}

impl Network {
    /// Returns whether an address is in the network.
    pub(crate) fn holds(&self, host: Host) -> bool
        ensures { result ≡ spec.is_in host self.now }
    {
        match (self.host, host) {
            (Host::V4(a), Host::V4(b)) => agree(32, self.bits, v4_number(a), v4_number(b)),
            (Host::V6(a), Host::V6(b)) => agree_v6(self.bits, a, b),
            _ => false,
        }
    }
}

/// Returns the address that a text names, in any spelling (RFC 4291 section 2.2).
pub(crate) fn host_read(text: &[u8]) -> Option<Host>
    ensures { result ≡ spec.host_of text.now }
{
    if let Ok(address) = Ipv4Addr::parse_ascii(text) {
        return Some(Host::V4(address.octets()));
    }
    if let Ok(address) = Ipv6Addr::parse_ascii(text) {
        return Some(Host::V6(address.segments()));
    }
    None
}

/// Returns the network that a text names: an address, a slash, and the number of bits that count.
///
/// An address alone names the network that has only this address.
pub(crate) fn network_read(text: &[u8]) -> Option<Network>
    ensures { result ≡ spec.network_of text.now }
{
    let Some(at) = offset_of(b'/', text) else {
        let host = host_read(text)?;
        return Some(Network {
            host,
            bits: width_of(host),
        });
    };
    let host = host_read(&text[..at])?;
    let bits = number_read(u64::from(width_of(host)), &text[at + 1..])?;
    Some(Network {
        host,
        bits: bits as u8,
    })
}

/// Returns whether an address is in one of these networks.
pub(crate) fn is_in_any(host: Host, networks: &[Network]) -> bool
    ensures { result ≡ spec.is_in_any host networks.now }
{
    networks.iter().any(|network| network.holds(host))
}
