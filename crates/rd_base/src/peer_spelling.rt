//! The one text of a peer, printed and read (RFC 5952 sections 4 to 6).
ghost use Rattle.std.specs.Prelude.{◌≡◌, ◌↔◌, ◌++◌, Ok, option_map, IfOk, OnOk, ok_or};
ghost use Rattle.std.specs.Prelude.{◌<◌, bytes_eq, decimal};
ghost use Rattle.std.specs.Net.Text.{ipv4_text};
ghost use Rattle.std.specs.String.{string_bytes};
ghost use Rattle.rd_base.specs.Peers as peers;
ghost use Rattle.rd_base.specs.Bases as bases;
ghost use Rattle.rd_base.specs.Prefixes.{after_prefix};
ghost use Rattle.rd_base.specs.declared.peers.Host.TheVariants as host;
ghost use Rattle.rd_base.specs.declared.peers.Peer.{Peer};

use crate::addresses::{after_ipv4, after_ipv6};
use crate::prefixes::{after_number, after_prefix};
use crate::spans::{push, push_mark};
use crate::{Host, Peer, Starved, Text};
use itoa::Buffer;
use std::alloc::Global;
use std::net::{Ipv6Addr, SocketAddrV4, SocketAddrV6};

/// The error of a text that prints no peer.
#[derive(Clone, Copy, Debug, PartialEq, Eq)]
pub struct PeerBad;

/// Returns the peer that a text names in any spelling that the standard library accepts.
#[tactic(auto, unfolding(crate::specs::Peers::named_peer))]
fn named_peer(text: &[u8]) -> Option<Peer>
    ensures { result ≡ peers.named_peer text.now }
{
    if let Ok(address) = SocketAddrV4::parse_ascii(text) {
        return Some(Peer {
            host: Host::V4(address.ip().octets()),
            port: address.port(),
        });
    }
    if let Ok(address) = SocketAddrV6::parse_ascii(text) {
        return Some(Peer {
            host: Host::V6(address.ip().segments()),
            port: address.port(),
        });
    }
    None
}

/// Returns what follows an address as a host, an IPv6 address in brackets.
#[tactic(auto, using(crate::proofs::PrefixLemmas::after_two))]
fn after_host(host: Host, text: &[u8]) -> Option<&[u8]>
    ensures { option_map (λ t. t.now) result ≡ after_prefix (bases.host_text host) text.now }
{
    match host {
        Host::V4(octets) => after_ipv4(octets, text),
        Host::V6(groups) => {
            let rest = after_prefix(b"[", text)?;
            let rest = after_ipv6(groups, rest)?;
            after_prefix(b"]", rest)
        }
    }
}

/// Returns what follows a peer.
fn after_peer<'a>(peer: &Peer, text: &'a [u8]) -> Option<&'a [u8]>
    ensures { option_map (λ t. t.now) result ≡ after_prefix (peers.peer_text peer.now) text.now }
{
    let rest = after_host(peer.host, text)?;
    let rest = after_prefix(b":", rest)?;
    after_number(peer.port, rest)
}

/// Returns whether a text is that of a peer.
fn is_printed(text: &[u8], peer: &Peer) -> bool
    ensures { result ≡ bytes_eq text.now (peers.peer_text peer.now) }
{
    match after_peer(peer, text) {
        Some(rest) => rest.is_empty(),
        None => false,
    }
}

/// Returns the peer that a text prints, for a port of 1 to 65,535. Does not allocate.
///
/// # Errors
///
/// `PeerBad` if the text is not what [`peer_text`] prints for any peer with such a port.
pub fn peer_read(text: &str) -> Result<Peer, PeerBad>
    ensures value { result ≡ ok_or (peers.peer_of text.now) (record {}) }
    ensures printed { (peer : Peer) → (result ≡ Ok peer) ↔ peers.IsPeerText text.now peer }
{
    peer_read_ascii(text.as_bytes())
}

/// Returns the peer that octets print, as [`peer_read`] does for a text.
///
/// # Errors
///
/// `PeerBad` as of [`peer_read`].
#[tactic(auto, unfolding(crate::specs::Peers::peer_of))]
pub fn peer_read_ascii(text: &[u8]) -> Result<Peer, PeerBad>
    ensures value { result ≡ ok_or (peers.peer_of text.now) (record {}) }
{
    let Some(peer) = named_peer(text) else {
        return Err(PeerBad);
    };
    if peer.port == 0 {
        return Err(PeerBad);
    }
    if !is_printed(text, &peer) {
        return Err(PeerBad);
    }
    Ok(peer)
}

/// Appends a number in decimal.
fn push_number(text: &mut String, number: u16) -> Result<(), Starved>
    ensures { OnOk result (string_bytes text.new ≡ string_bytes text.old ++ decimal number) }
{
    let mut buffer = Buffer::new();
    push(text, buffer.format(number))
}

/// Appends an IPv4 address.
fn push_ipv4(text: &mut String, octets: [u8; 4]) -> Result<(), Starved>
    ensures { OnOk result (string_bytes text.new ≡ string_bytes text.old ++ ipv4_text octets) }
{
    let [a, b, c, d] = octets;
    push_number(text, u16::from(a))?;
    push_mark(text, '.')?;
    push_number(text, u16::from(b))?;
    push_mark(text, '.')?;
    push_number(text, u16::from(c))?;
    push_mark(text, '.')?;
    push_number(text, u16::from(d))
}

/// Appends an IPv6 address in brackets (RFC 3986 section 3.2.2).
fn push_ipv6(text: &mut String, groups: [u16; 8]) -> Result<(), Starved>
    ensures { OnOk result (string_bytes text.new ≡ string_bytes text.old
        ++ bases.host_text (host.V6 groups)) }
{
    let address = Ipv6Addr::from(groups);
    let literal = format!(in *text.allocator(); "[{address}]")?;
    push(text, literal.as_str())
}

/// Appends an address as a host.
fn push_host(text: &mut String, host: Host) -> Result<(), Starved>
    ensures { OnOk result (string_bytes text.new ≡ string_bytes text.old ++ bases.host_text host) }
{
    match host {
        Host::V4(octets) => push_ipv4(text, octets),
        Host::V6(groups) => push_ipv6(text, groups),
    }
}

/// What comes before the host in a URI of CoAP (RFC 7252 section 6.1).
const COAP: &str = "coap://";

/// The port of CoAP (RFC 7252 section 6.1).
const COAP_PORT: u16 = 5683;

/// Appends a colon and a port, or nothing for the port of CoAP.
fn push_port(text: &mut String, port: u16) -> Result<(), Starved>
    ensures { OnOk result (string_bytes text.new ≡ string_bytes text.old
        ++ bases.port_text port) }
{
    if port == COAP_PORT {
        return Ok(());
    }
    push_mark(text, ':')?;
    push_number(text, port)
}

/// Returns how many octets an address has at most as a host.
fn room_of_host(host: Host) -> usize
    ensures fits { peers.IsHost host }
    ensures small { result < 64 }
{
    match host {
        Host::V4(_) => 15,
        Host::V6(_) => 41,
    }
}

/// How many octets a colon and a port have at most.
const PORT_ROOM: usize = 6;

/// Returns a peer as text, as 192.0.2.1:5683 or [2001:db8::1]:61616 (RFC 5952). An IPv6 address has
/// dots if it maps an IPv4 address.
///
/// # Errors
///
/// `Starved` if memory runs out.
pub fn peer_text(alloc: Global, peer: &Peer) -> Result<Text, Starved>
    ensures { IfOk result (λ text. text ≡ peers.peer_text peer.now) }
{
    let mut text = String::with_capacity(alloc, room_of_host(peer.host) + PORT_ROOM)?;
    push_host(&mut text, peer.host)?;
    push_mark(&mut text, ':')?;
    push_number(&mut text, peer.port)?;
    Ok(Text::of(text))
}

/// Returns the base of a registration that gives none (RFC 9176 section 5): `coap://`, the peer's
/// address, and its port if that is not 5683.
///
/// # Errors
///
/// `Starved` if memory runs out.
#[tactic(auto, unfolding(crate::specs::Bases::base_of))]
pub fn base_of(alloc: Global, peer: &Peer) -> Result<Text, Starved>
    ensures text { IfOk result (λ text. text ≡ bases.base_of peer.now) }
    ensures fits { peers.IsHost peer.now.host }
{
    let room = COAP.len() + room_of_host(peer.host) + PORT_ROOM;
    let mut text = String::with_capacity(alloc, room)?;
    push(&mut text, COAP)?;
    push_host(&mut text, peer.host)?;
    push_port(&mut text, peer.port)?;
    Ok(Text::of(text))
}
