//! The peer that a URI names (RFC 7252 section 6.1).
ghost use Rattle.std.specs.Prelude.{◌≡◌, drop, option_map, IfOk};
ghost use Rattle.rd_base.specs.Peers as peers;
ghost use Rattle.link_model.specs.Characters.{at_sign};
ghost use Rattle.reference_model.specs.References as references;
ghost use Rattle.client_model.specs.Asks as asks;

use rd_base::{Bytes, Peer, Starved, peer_read_ascii};
use ref_resolve::{Parts, host};
use std::alloc::Global;

/// The port of CoAP after its colon (RFC 7252 section 6.1).
const DEFAULT_PORT: &[u8] = b":5683";

/// Returns whether a scheme is `coap`, in either case (RFC 3986 section 3.1).
pub(crate) fn is_coap(scheme: &str) -> bool
    ensures { result ≡ asks.is_coap scheme.now }
{
    scheme.eq_ignore_ascii_case("coap")
}

/// Returns a port with its colon, or the port of CoAP if it is absent or empty.
fn port_or_default(text: &[u8]) -> &[u8]
    ensures { result.now ≡ asks.port_or_default text.now }
{
    if text.len() <= 1 {
        return DEFAULT_PORT;
    }
    text
}

/// Returns what follows the first `size` octets.
fn after(octets: &[u8], size: usize) -> &[u8]
    ensures { result.now ≡ drop size octets.now }
{
    match octets.get(size..) {
        Some(rest) => rest,
        None => b"",
    }
}

/// Returns the peer whose printed form a text is, or `None` if there is none (RFC 5952).
#[tactic(auto, using(crate::proofs::UriLaws::some_peer, crate::proofs::UriLaws::no_peer))]
fn printed_peer(text: &[u8]) -> Option<Peer>
    ensures { result ≡ peers.peer_of text.now }
{
    match peer_read_ascii(text) {
        Ok(peer) => Some(peer),
        Err(_) => None,
    }
}

/// Returns whether an authority has user information (RFC 3986 section 3.2.1).
fn has_userinfo(authority: &str) -> bool
    ensures { result ≡ references.has_octet at_sign authority.now }
{
    authority.as_bytes().iter().any(|octet| *octet == b'@')
}

/// Returns the peer that an authority with this host names, or `None` if it names none (RFC 3986
/// section 3.2).
#[tactic(auto, unfolding(client_model::specs::Asks::peer_at))]
fn peer_at(alloc: Global, authority: &str, host: &str) -> Result<Option<Peer>, Starved>
    requires { host.now ≡ references.host_of authority.now }
    ensures { IfOk result (λ peer. peer ≡ asks.peer_at authority.now) }
{
    if has_userinfo(authority) {
        return Ok(None);
    }
    let port = port_or_default(after(authority.as_bytes(), host.len()));
    let mut text = Bytes::copy_of(alloc, host.as_bytes())?;
    text.append(port)?;
    Ok(printed_peer(text.as_slice()))
}

/// Returns the peer that a URI names, or `None` if it names none (RFC 7252 section 6.1).
pub(crate) fn peer_in(alloc: Global, parts: &Parts<'_>) -> Result<Option<Peer>, Starved>
    ensures { IfOk result
        (λ peer. peer ≡ asks.peer_in (option_map (λ text. text.now) parts.now.authority)) }
{
    let Some(authority) = parts.authority else {
        return Ok(None);
    };
    let Some(host) = host(parts) else {
        unreachable!()
    };
    peer_at(alloc, authority, host)
}
