//! Reading addresses to listen at from text.
ghost use Rattle.std.specs.Prelude.{◌≡◌};
ghost use Rattle.hosting.specs.Addresses as spec;
ghost use Rattle.hosting.specs.Networks.{host_of};

use crate::networks::host_read;
use rd_base::{Host, Peer};
use trace_text::{number_read, offset_of};

/// Returns the port that a text prints after a colon, from 1 on.
fn port_read(text: &[u8]) -> Option<u16>
    ensures { result ≡ spec.port_of text.now }
{
    let (first, digits) = text.split_first()?;
    if *first != b':' {
        return None;
    }
    let port = number_read(65_535, digits)?;
    if port == 0 {
        return None;
    }
    Some(port as u16)
}

/// Returns the IPv4 address that a text names.
fn v4_read(text: &[u8]) -> Option<Host>
    ensures { result ≡ spec.only_v4 (host_of text.now) }
{
    match host_read(text)? {
        Host::V4(octets) => Some(Host::V4(octets)),
        Host::V6(_) => None,
    }
}

/// Returns the IPv6 address that a text names.
fn v6_read(text: &[u8]) -> Option<Host>
    ensures { result ≡ spec.only_v6 (host_of text.now) }
{
    match host_read(text)? {
        Host::V4(_) => None,
        Host::V6(groups) => Some(Host::V6(groups)),
    }
}

/// Returns the IPv4 address and the port that a text names.
fn v4_address(text: &[u8]) -> Option<Peer>
    ensures { result ≡ spec.v4_address text.now }
{
    let at = offset_of(b':', text)?;
    let host = v4_read(&text[..at])?;
    let port = port_read(&text[at..])?;
    Some(Peer { host, port })
}

/// Returns the IPv6 address and the port that a text names after its opening bracket.
fn v6_address(text: &[u8]) -> Option<Peer>
    ensures { result ≡ spec.v6_address text.now }
{
    let at = offset_of(b']', text)?;
    let host = v6_read(&text[..at])?;
    let port = port_read(&text[at + 1..])?;
    Some(Peer { host, port })
}

/// Returns the address and the port that a text names, as 192.0.2.1:5683 or [2001:db8::1]:5683.
///
/// The address may have any spelling (RFC 4291 section 2.2).
pub(crate) fn address_read(text: &[u8]) -> Option<Peer>
    ensures { result ≡ spec.address_of text.now }
{
    match text {
        [b'[', rest @ ..] => v6_address(rest),
        [] => None,
        _ => v4_address(text),
    }
}
