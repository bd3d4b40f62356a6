//! The requests that register, refresh and remove (RFC 9176 section 5).
ghost use Rattle.std.specs.Prelude.{◌≡◌, ◌⊎◌, Some, IfOk};
ghost use Rattle.message_model.specs.Codes as codes_of;
ghost use Rattle.ref_resolve.specs.ComponentsOfParts.{components_of};
ghost use Rattle.client_model.specs.Requests.{CanFollow, CanBeSent};
ghost use Rattle.client_model.specs.Asks as asks;
ghost use Rattle.client_model.specs.Asks.{IsUnlessStarved};
ghost use Rattle.registrant.specs.Parts.{ask_bad_of};

use crate::asks::is_short;
use crate::options::{located_options, registering_options};
use crate::parts::PartBad;
use crate::uris::{is_coap, peer_in};
use client_model::{Ask, AskBad, Location};
use message_model::codes::{DELETE, POST};
use rd_base::{Bytes, Peer};
use ref_resolve::{Parts, parts};
use std::alloc::Global;

/// Returns why there is no request, from what is wrong with a part.
fn ask_bad(bad: PartBad) -> AskBad
    ensures { result ≡ ask_bad_of bad }
{
    match bad {
        PartBad::Part => AskBad::Part,
        PartBad::Starved => AskBad::Starved,
    }
}

/// Returns the request, or `Size` if its datagram would exceed 1,280 octets.
pub(crate) fn fitted(ask: Ask) -> Result<Ask, AskBad>
    requires code { (ask.code ≡ codes_of.post) ⊎ (ask.code ≡ codes_of.delete) }
    requires options { CanFollow 0 ask.options }
    ensures is { result ≡ asks.if_short ask }
    ensures sent { IfOk result CanBeSent }
{
    if !is_short(&ask) {
        return Err(AskBad::Size);
    }
    Ok(ask)
}

/// Builds the registration of links at a peer, from the path and the query of a URI.
#[tactic(auto, unfolding(client_model::specs::Asks::registration_at))]
fn register_to(alloc: Global, to: Peer, uri: &Parts<'_>, links: &[u8]) -> Result<Ask, AskBad>
    ensures exact { IsUnlessStarved result
        (asks.registration_to (Some to) (components_of uri.now) links.now) }
    ensures sent { IfOk result CanBeSent }
{
    let options = match registering_options(alloc, uri.path, uri.query) {
        Ok(options) => options,
        Err(bad) => return Err(ask_bad(bad)),
    };
    let Ok(payload) = Bytes::copy_of(alloc, links) else {
        return Err(AskBad::Starved);
    };
    fitted(Ask {
        to,
        code: POST,
        options,
        payload,
    })
}

/// Builds the registration of links from the components of a URI.
fn register_by(alloc: Global, uri: &Parts<'_>, links: &[u8]) -> Result<Ask, AskBad>
    ensures exact { IsUnlessStarved result
        (asks.registration_by (Some (components_of uri.now)) links.now) }
    ensures sent { IfOk result CanBeSent }
{
    let Some(scheme) = uri.scheme else {
        return Err(AskBad::Uri);
    };
    if uri.fragment.is_some() {
        return Err(AskBad::Uri);
    }
    if !is_coap(scheme) {
        return Err(AskBad::Scheme);
    }
    match peer_in(alloc, uri) {
        Ok(Some(to)) => register_to(alloc, to, uri, links),
        Ok(None) => Err(AskBad::Host),
        Err(_) => Err(AskBad::Starved),
    }
}

/// Builds the request that registers links at the directory named by a URI, such as
/// `coap://192.0.2.1/rd?ep=node1` (RFC 9176 section 5, RFC 7252 section 6.4).
///
/// An absent or empty port is 5683.
///
/// # Errors
///
/// The first that applies. `Starved` can take the place of any of them.
/// - `Uri` if the text is not a URI or has a fragment.
/// - `Scheme` if the scheme is not `coap`.
/// - `Host` if the host is not an address in its printed form (RFC 5952), or if user information
///   precedes it. Also if the port is not a number from 1 to 65,535 without a leading zero.
/// - `Part` if a segment of the path or a part of the query does not decode to UTF-8, or decodes to
///   more than 255 octets.
/// - `Size` if the datagram would exceed 1,280 octets.
/// - `Starved` if memory runs out.
#[tactic(auto, unfolding(client_model::specs::Asks::registration))]
pub fn register_ask(alloc: Global, uri: &str, links: &[u8]) -> Result<Ask, AskBad>
    ensures exact { IsUnlessStarved result (asks.registration uri.now links.now) }
    ensures sent { IfOk result CanBeSent }
{
    match parts(uri) {
        Ok(uri) => register_by(alloc, &uri, links),
        Err(_) => Err(AskBad::Uri),
    }
}

/// Builds the request to a location, with this code and no payload.
#[tactic(auto, unfolding(client_model::specs::Asks::located_ask))]
fn located_ask(alloc: Global, code: u8, location: &Location) -> Result<Ask, AskBad>
    requires { (code ≡ codes_of.post) ⊎ (code ≡ codes_of.delete) }
    ensures exact { IsUnlessStarved result (asks.located_ask code location.now) }
    ensures sent { IfOk result CanBeSent }
{
    match located_options(alloc, location.path.as_slice()) {
        Ok(options) => fitted(Ask {
            to: location.to,
            code,
            options,
            payload: Bytes::new(alloc),
        }),
        Err(bad) => Err(ask_bad(bad)),
    }
}

/// Builds the request that refreshes the registration at a location (RFC 9176 section 5.3.1).
///
/// # Errors
///
/// The first that applies. `Starved` can take the place of either.
/// - `Part` if a segment of the path has more than 255 octets.
/// - `Size` if the datagram would exceed 1,280 octets.
/// - `Starved` if memory runs out.
pub fn refresh_ask(alloc: Global, location: &Location) -> Result<Ask, AskBad>
    ensures exact { IsUnlessStarved result (asks.refresh location.now) }
    ensures sent { IfOk result CanBeSent }
{
    located_ask(alloc, POST, location)
}

/// Builds the request that removes the registration at a location (RFC 9176 section 5.3.2).
///
/// # Errors
///
/// Those of [`refresh_ask`].
pub fn remove_ask(alloc: Global, location: &Location) -> Result<Ask, AskBad>
    ensures exact { IsUnlessStarved result (asks.removal location.now) }
    ensures sent { IfOk result CanBeSent }
{
    located_ask(alloc, DELETE, location)
}
