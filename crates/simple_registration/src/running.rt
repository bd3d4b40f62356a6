//! A fetch in progress.
ghost use Rattle.std.specs.Prelude.{◌≡◌, ◌≢◌, ◌≤◌, ◌<◌, ◌+◌, ◌++◌, ◌==◌, length, IfOk, OnOk, OnErr};
ghost use Rattle.std.specs.Prelude.{option_map, Some, false};
ghost use Rattle.std.specs.Option.{ForSome};
ghost use Rattle.rd_base.specs.declared.peers.Peer.{Peer};
ghost use Rattle.message_model.specs.Blocks.{IsBlock};
ghost use Rattle.message_model.specs.Spelling.{spelling};
ghost use Rattle.message_model.specs.Uploads.{max_body};
ghost use Rattle.message_model.specs.FetchRequests.{fetch_request};
ghost use Rattle.message_model.specs.Responses.{ends_by};
ghost use Rattle.record_model.specs.AllowedParameters.{AreAllowed};
ghost use Rattle.coap_message.specs.PartialMessages.{longest_datagram};
ghost use Rattle.coap_message.specs.Views.{message_in};
ghost use Rattle.event_model.specs.Same.{is_same_peer};
ghost use Rattle.message_model.specs.Responses as responses;
ghost use Rattle.simple_registration.specs.Responses.{request_after};
ghost use Rattle.simple_registration.specs.Running as running;
ghost use Rattle.simple_registration.specs.Hearing.{fetch_started, first_ask, IsLeftBy};
ghost use Rattle.simple_registration.specs.Sendable.{IsSendable, IsSoundHeard};

use crate::allowed_params::AllowedParams;
use crate::asks::{Ask, first_request, request_for};
use crate::hearing::Heard;
use crate::rules::{
    block_in, has_names_of, is_cut_short, is_elsewhere, is_other_format, is_other_tag, tag_in,
};
use block_wise::Block;
use coap_message::{TokenRef, View};
use coap_options::Meaning;
use event_model::transmission::MAX_TRANSMIT_WAIT;
use exchange_core::{Again, Octets, Resend, Sent, Token};
use message_model::MAX_BODY;
use message_model::codes::CONTENT;
use rd_base::{Bytes, Moment, Peer, RegParams, Starved};
use std::alloc::Global;
use std::marker::Model;

/// An entity tag, of at most eight octets (RFC 7252 section 5.10.6).
pub(crate) type EntityTag = Octets<8>;

/// A fetch in progress: its last request, and what it has received.
#[derive(Debug, Drop)]
pub(crate) struct Fetch {
    /// The device whose links are fetched.
    peer: Peer,
    /// The token of its requests.
    token: Token,
    /// The parameters of its registration.
    params: AllowedParams,
    /// The number of the block that was requested last.
    number: u32,
    /// The moment at which that block was first requested.
    asked: Moment,
    /// That request, while it awaits an acknowledgement.
    waits: Sent,
    /// Whether that request was acknowledged, so that a separate response follows.
    acknowledged: bool,
    /// The octets of the body so far, at most 8,192.
    body: Bytes,
    /// The entity tag of the first block, or `None` if no block has come. The first block may have
    /// had no tag.
    tag: Option<Option<EntityTag>>,
}

impl Model for Fetch {
    ghost use Rattle.std.specs.Prelude.{◌≤◌, ◌<◌, length};
    ghost use Rattle.message_model.specs.Uploads.{max_body};
    ghost use Rattle.coap_message.specs.PartialMessages.{longest_datagram};
    ghost use Rattle.event_model.specs.Fetches.{Fetch as Running};

    ghost Value = { Running };

    ghost view = { λ f. record {
      peer = f.peer;
      token = f.token;
      params = f.params;
      number = f.number;
      asked = f.asked.0;
      waits = f.waits;
      acknowledged = f.acknowledged;
      body = f.body;
      tag = f.tag;
    } };

    ghost invariant = { λ f. (length f.body ≤ max_body)
        × (0 < length f.waits.octets)
        × (length f.waits.octets ≤ longest_datagram) };
}

/// Returns a request that is sent now and awaits an acknowledgement.
fn sent_now(now: Moment, word: u32, mid: u16, bytes: Bytes) -> Sent
    ensures { result ≡ running.sent_first now.0 word mid bytes }
{
    Sent {
        mid,
        bytes,
        resend: Resend::start(now, word),
    }
}

/// Returns the tag of the first block: the stored one, or this one if no block has come.
fn first_tag(first: &Option<Option<EntityTag>>, tag: Option<&[u8]>) -> Option<Option<EntityTag>>
    requires { ForSome tag (λ t. length t.now ≤ 8) }
    ensures { result ≡ running.first_tag first.now (option_map (λ t. t.now) tag.entry) }
{
    if let Some(first) = first {
        return Some(copy_of(first));
    }
    Some(tag.map(Octets::of))
}

/// Returns a copy of a tag.
fn copy_of(tag: &Option<EntityTag>) -> Option<EntityTag>
    ensures { result ≡ tag.now }
{
    match tag {
        Some(tag) => Some(tag.copy()),
        None => None,
    }
}

impl Fetch {
    /// Starts a fetch now, and returns it with its first request.
    pub(crate) fn start(
        alloc: Global,
        now: Moment,
        word: u32,
        mid: u16,
        peer: Peer,
        token: Token,
        params: AllowedParams,
    ) -> Result<(Fetch, Ask), Starved>
        ensures fetch { IfOk result (λ x. x.0 ≡ fetch_started now.0 word mid peer token params) }
        ensures ask { IfOk result (λ x. x.1 ≡ first_ask mid peer token) }
        ensures sendable { IfOk result (λ x. IsSendable mid x.1.bytes) }
    {
        let named = TokenRef {
            octets: token.as_slice(),
        };
        let kept = first_request(alloc, mid, named)?;
        let bytes = Bytes::copy_of(alloc, kept.as_slice())?;
        let fetch = Fetch {
            peer,
            token,
            params,
            number: 0,
            asked: now,
            waits: sent_now(now, word, mid, kept),
            acknowledged: false,
            body: Bytes::new(alloc),
            tag: None,
        };
        Ok((fetch, Ask { peer, bytes }))
    }

    /// Returns the peer of the fetch.
    pub(crate) fn peer(&self) -> Peer
        ensures { result ≡ self.now.peer }
    {
        self.peer
    }

    /// Returns whether it is a fetch of this peer.
    pub(crate) fn is_of(&self, peer: &Peer) -> bool
        ensures { result ≡ is_same_peer self.now.peer peer.now }
    {
        self.peer == *peer
    }

    /// Returns whether its last request has this Message ID.
    pub(crate) fn has_mid(&self, mid: u16) -> bool
        ensures { result ≡ (self.now.waits.mid == mid) }
    {
        self.waits.mid == mid
    }

    /// Returns its last request, as it was sent.
    pub(crate) fn request(&self) -> &[u8]
        ensures octets { result.now ≡ self.now.waits.octets }
        ensures some { 0 < length result.now }
        ensures fits { length result.now ≤ longest_datagram }
    {
        self.waits.bytes.as_slice()
    }

    /// Returns whether a message is a response to its last request, by its token and, if it is an
    /// acknowledgement, its Message ID.
    pub(crate) fn is_answered_by(&self, view: &View<'_>) -> bool
        ensures { result ≡ running.is_answered_by (message_in view.now) self.now }
    {
        has_names_of(view, self.token.as_slice(), self.waits.mid)
    }

    /// Records that its last request was acknowledged: a separate response follows.
    pub(crate) fn await_response(&mut self)
        ensures { self.new ≡ running.awaiting self.old }
    {
        self.acknowledged = true;
    }

    /// Returns what is due of it now. A retransmission counts as made now.
    pub(crate) fn timeout(&mut self, now: Moment) -> Again
        ensures due { result ≡ running.due_of now.0 self.old }
        ensures after { self.new
            ≡ running.after_due (running.due_of now.0 self.old) now.0 self.old }
    {
        if !self.acknowledged {
            return self.waits.resend.at_tick(now);
        }
        if now.0.saturating_sub(self.asked.0) < MAX_TRANSMIT_WAIT {
            return Again::Wait;
        }
        Again::GaveUp
    }

    /// Returns whether a response ends it without a registration.
    fn is_ended_by(&self, meaning: &Meaning<'_>, block: &Option<Block>) -> bool
        requires block { block.now ≡ responses.block_in (message_in meaning.now.view) }
        requires sound { ForSome block.now (λ b. IsBlock b) }
        ensures { result
            ≡ ends_by (message_in meaning.now.view) self.now.tag (length self.now.body) }
    {
        let size = meaning.view.payload.len();
        if meaning.view.code != CONTENT {
            return true;
        }
        if is_other_format(meaning.format) {
            return true;
        }
        if meaning.block2.is_some() && block.is_none() {
            return true;
        }
        if is_cut_short(block, size) {
            return true;
        }
        if meaning.block2.is_none() && self.tag.is_some() {
            return true;
        }
        if is_other_tag(&self.tag, tag_in(meaning)) {
            return true;
        }
        MAX_BODY - self.body.len() < size
    }

    /// Stores the block of a response and requests the next. `Starved` leaves everything unchanged.
    fn ask_next(
        &mut self,
        alloc: Global,
        now: Moment,
        word: u32,
        mid: u16,
        meaning: &Meaning<'_>,
        block: &Block,
    ) -> Result<Ask, Starved>
        requires block { IsBlock block.now }
        requires here { responses.is_elsewhere (Some block.now) (length self.old.body) ≡ false }
        requires fits { length self.old.body + length meaning.now.view.payload.now ≤ max_body }
        ensures ask { IfOk result (λ ask.
            ask
            ≡ record {
              peer = self.old.peer;
              bytes = request_after mid self.old.token
                  block.now;
            }) }
        ensures next { OnOk result (self.new
            ≡ running.with_next now.0 word mid (message_in meaning.now.view) block.now
            self.old) }
        ensures sendable { IfOk result (λ ask. IsSendable mid ask.bytes) }
        ensures kept { OnErr result (self.new ≡ self.old) }
    {
        let next = Block {
            num: block.num + 1,
            more: false,
            szx: block.szx,
        };
        let token = TokenRef {
            octets: self.token.as_slice(),
        };
        let kept = request_for(alloc, mid, token, &next)?;
        let bytes = Bytes::copy_of(alloc, kept.as_slice())?;
        self.body.append(meaning.view.payload)?;
        self.tag = first_tag(&self.tag, tag_in(meaning));
        self.number = next.num;
        self.asked = now;
        self.waits = sent_now(now, word, mid, kept);
        self.acknowledged = false;
        Ok(Ask {
            peer: self.peer,
            bytes,
        })
    }

    /// Returns the whole body, which a response completes, and the parameters of the registration.
    fn whole(&self, alloc: Global, payload: &[u8]) -> Result<(RegParams, Bytes), Starved>
        ensures params { IfOk result (λ x. x.0 ≡ self.now.params) }
        ensures allowed { IfOk result (λ x. AreAllowed x.0) }
        ensures body { IfOk result (λ x. x.1 ≡ self.now.body ++ payload.now) }
    {
        let params = self.params.copy()?;
        let mut body = Bytes::copy_of(alloc, self.body.as_slice())?;
        body.append(payload)?;
        Ok((params, body))
    }

    /// Handles a response to its last request. A further request gets this Message ID. If there is
    /// none, the fetch does not change.
    pub(crate) fn hear(
        &mut self,
        alloc: Global,
        now: Moment,
        word: u32,
        mid: u16,
        meaning: &Meaning<'_>,
    ) -> Heard
        ensures answer { result ≢ Heard.Starved
            → result ≡ running.heard_of mid (message_in meaning.now.view) self.old }
        ensures left { IsLeftBy result now.0 word mid (message_in meaning.now.view) self.old
            self.new }
        ensures sound { IsSoundHeard mid result }
    {
        let block = block_in(meaning);
        if is_elsewhere(&block, self.body.len()) {
            return Heard::Passed;
        }
        if self.is_ended_by(meaning, &block) {
            return Heard::Ended;
        }
        if let Some(part) = block {
            if part.more {
                return match self.ask_next(alloc, now, word, mid, meaning, &part) {
                    Ok(ask) => Heard::Next(ask),
                    Err(Starved) => Heard::Starved,
                };
            }
        }
        match self.whole(alloc, meaning.view.payload) {
            Ok((params, body)) => Heard::Whole(params, body),
            Err(Starved) => Heard::Starved,
        }
    }
}
