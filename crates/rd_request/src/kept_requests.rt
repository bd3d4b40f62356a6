//! Requests that jobs store (RFC 7252 sections 3 and 5.10).
ghost use Rattle.std.specs.Prelude.{◌≡◌, ◌≤◌, ◌++◌, length, IfOk};
ghost use Rattle.std.specs.Option.{ForSome, option_map};
ghost use Rattle.coap_message.specs.Views.{message_in};
ghost use Rattle.rd_request.specs.Accepted.{message_of};

use crate::accepted::Request;
use crate::resources::Resource;
use coap_message::{TokenRef, View};
use coap_options::Meaning;
use exchange_core::{Octets, Token};
use message_model::{Block, Kind4, Path};
use rd_base::{Bytes, Starved};
use std::alloc::Global;
use std::marker::Model;

/// A stored request that is not refused by its content alone, with what was read of it. Contracts
/// see its message.
#[derive(Drop)]
pub struct KeptRequest {
    /// The type.
    kind: Kind4,
    /// The code, with class and detail in one octet.
    code: u8,
    /// The Message ID.
    mid: u16,
    /// The token.
    token: Token,
    /// The options as they were encoded, followed by the payload.
    octets: Bytes,
    /// The number of octets that belong to options.
    options: usize,
    /// The resource that its path names.
    path: Path,
    /// The value of Observe.
    observe: Option<u32>,
    /// The content format in Accept.
    accept: Option<u16>,
    /// The content format of the payload, in Content-Format.
    format: Option<u16>,
    /// The value of Block1.
    block1: Option<Octets<3>>,
    /// The value of Block2.
    block2: Option<Octets<3>>,
    /// Whether it has Proxy-Uri or Proxy-Scheme.
    proxy: bool,
    /// The value of Echo.
    echo: Option<Octets<40>>,
    /// The resource that it is about.
    resource: Resource,
    /// The requested block of the answer (RFC 7959 section 2.1).
    asked: Option<Block>,
    /// The block that the payload contains (RFC 7959 section 2.1).
    sent: Option<Block>,
}

impl Model for KeptRequest {
    ghost use Rattle.std.specs.Prelude.{◌≤◌, length};
    ghost use Rattle.message_model.specs.Message.{Message};
    ghost use Rattle.rd_request.specs.KeptRequests.{kept_message, IsReadAs};

    ghost Value = { Message };

    ghost view = { λ r. kept_message r.kind r.code r.mid r.token r.octets r.options };

    ghost invariant = { λ r. (r.options ≤ length r.octets)
        × IsReadAs (kept_message r.kind r.code r.mid r.token r.octets r.options) r.path r.observe
        r.accept r.format r.block1 r.block2 r.proxy r.echo r.resource r.asked r.sent };
}

/// Returns the encoded options of a message, followed by its payload, in one piece of memory.
fn joined(alloc: Global, view: &View<'_>) -> Result<Bytes, Starved>
    ensures { IfOk result (λ octets. octets ≡ view.now.options.now ++ view.now.payload.now) }
{
    let mut octets = Vec::with_capacity(alloc, view.options.len() + view.payload.len())?;
    octets.extend_from_slice(view.options)?;
    octets.extend_from_slice(view.payload)?;
    Ok(Bytes::of(octets))
}

/// Copies the value of an option.
fn kept_value<const N: usize>(value: Option<&[u8]>) -> Option<Octets<N>>
    requires { ForSome value (λ v. length v.now ≤ N) }
    ensures { result ≡ option_map (λ v. v.now) value.entry }
{
    match value {
        None => None,
        Some(octets) => Some(Octets::of(octets)),
    }
}

/// Lends the value of an option.
fn lent_value<const N: usize>(value: &Option<Octets<N>>) -> Option<&[u8]>
    ensures { option_map (λ v. v.now) result ≡ value.now }
{
    match value {
        None => None,
        Some(octets) => Some(octets.as_slice()),
    }
}

impl KeptRequest {
    /// Copies a request.
    ///
    /// # Errors
    ///
    /// `Starved` if memory runs out.
    pub fn of(alloc: Global, request: &Request<'_>) -> Result<KeptRequest, Starved>
        ensures { IfOk result (λ kept. kept ≡ message_of request.now) }
    {
        let meaning = &request.meaning;
        let view = &meaning.view;
        let octets = joined(alloc, view)?;
        Ok(KeptRequest {
            kind: view.kind,
            code: view.code,
            mid: view.mid,
            token: Token::of(view.token.octets),
            octets,
            options: view.options.len(),
            path: meaning.path,
            observe: meaning.observe,
            accept: meaning.accept,
            format: meaning.format,
            block1: kept_value(meaning.block1),
            block2: kept_value(meaning.block2),
            proxy: meaning.proxy,
            echo: kept_value(meaning.echo),
            resource: request.resource,
            asked: request.asked,
            sent: request.sent,
        })
    }

    /// Returns the message of the request.
    fn view(&self) -> View<'_>
        ensures { message_in result ≡ self.now }
    {
        let (options, payload) = self.octets.as_slice().split_at(self.options);
        View {
            kind: self.kind,
            code: self.code,
            mid: self.mid,
            token: TokenRef {
                octets: self.token.as_slice(),
            },
            options,
            payload,
        }
    }

    /// Lends the request, as it was read.
    pub fn request(&self) -> Request<'_>
        ensures { message_of result ≡ self.now }
    {
        let view = self.view();
        let meaning = Meaning {
            view,
            path: self.path,
            observe: self.observe,
            accept: self.accept,
            format: self.format,
            block1: lent_value(&self.block1),
            block2: lent_value(&self.block2),
            proxy: self.proxy,
            echo: lent_value(&self.echo),
        };
        Request {
            meaning,
            resource: self.resource,
            asked: self.asked,
            sent: self.sent,
        }
    }
}
