//! The table of fetches.
ghost use Rattle.std.specs.Prelude.{◌≡◌, ◌≢◌, ◌+◌, ◌<◌, ◌≤◌, []};
ghost use Rattle.std.specs.Prelude.{◌∷◌, true, false, length, List};
ghost use Rattle.std.specs.Prelude.{◌==◌, IfOk, OnErr, IfSome, is_some, Some, None, slice_get};
ghost use Rattle.std.specs.Prelude.{option_map, find, vec_capacity};
ghost use Rattle.std.specs.List.{position};
ghost use Rattle.rd_base.specs.declared.peers.Peer.{Peer};
ghost use Rattle.message_model.specs.declared.blocks.Block.{Block};
ghost use Rattle.message_model.specs.Spelling.{spelling};
ghost use Rattle.message_model.specs.FetchRequests.{fetch_request};
ghost use Rattle.message_model.specs.Responses.{block_in, tag_in};
ghost use Rattle.coap_message.specs.PartialMessages.{longest_datagram};
ghost use Rattle.coap_message.specs.Views.{message_in};
ghost use Rattle.event_model.specs.declared.notes.Note.TheVariants as note;
ghost use Rattle.event_model.specs.Events.{Event};
ghost use Rattle.event_model.specs.Flights.{OctetsSent};
ghost use Rattle.event_model.specs.Fetches.{Request, fetches, next_token, last_request, request_of};
ghost use Rattle.event_model.specs.Fetches.{is_last_request};
ghost use Rattle.rd_base.specs.Firsts.{without_first};
ghost use Rattle.simple_registration.specs.Table.{is_of, some_passes, belongs_among, IsKeptAfter};
ghost use Rattle.simple_registration.specs.FetchEvents.{FetchesStandFor, start_refusal};
ghost use Rattle.simple_registration.specs.FetchEvents.{IsRefusedAs, belongs_after, heard_after};
ghost use Rattle.simple_registration.specs.FetchEvents.{fetch_due};
ghost use Rattle.simple_registration.specs.Sendable.{IsSendable, IsSoundHeard};

use crate::running::Fetch;
use crate::{AllowedParams, Ask, Heard, StartFault};
use coap_message::View;
use coap_options::Meaning;
use event_model::limits::MAX_FETCHES;
use exchange_core::{Again, Token};
use rd_base::{Moment, Peer, Starved};
use std::alloc::Global;
use std::marker::Model;

/// The fetches in progress, at most one for each peer and 64 in all, and how many were started (RFC
/// 9176 section 5.1).
#[derive(Debug, Drop)]
pub struct Fetches {
    /// The fetches, in the order in which they started.
    rows: Vec<Fetch>,
    /// The number of started fetches, modulo 2^64.
    started: u64,
}

impl Model for Fetches {
    ghost use Rattle.std.specs.Prelude.{◌≤◌, vec_len, vec_capacity};
    ghost use Rattle.event_model.specs.Fetches.{max_fetches};
    ghost use Rattle.simple_registration.specs.Table.{Table};

    ghost Value = { Table };

    ghost view = { λ t. record { fetches = t.rows.items; started = t.started } };

    ghost invariant = { λ t. (max_fetches ≤ vec_capacity t.rows) × (vec_len t.rows ≤ max_fetches) };
}

impl Fetches {
    /// Creates an empty table, with room for the most fetches allowed, 64.
    ///
    /// # Errors
    ///
    /// `Starved` if memory runs out.
    pub fn make(alloc: Global) -> Result<Fetches, Starved>
        ensures { (octets : OctetsSent) → IfOk result (λ t. FetchesStandFor octets [] t) }
    {
        let rows = Vec::with_capacity(alloc, MAX_FETCHES)?;
        Ok(Fetches { rows, started: 0 })
    }

    /// Starts a fetch of a peer's links, and returns its first GET, which has this Message ID.
    /// `word` determines the initial timeout.
    ///
    /// # Errors
    ///
    /// The table does not change.
    /// - `Fetching` if a fetch of this peer is in progress.
    /// - `FullFetches` if none is, and 64 others are in progress.
    /// - `Starved` if memory runs out.
    pub fn start(
        &mut self,
        alloc: Global,
        now: Moment,
        word: u32,
        mid: u16,
        peer: Peer,
        params: AllowedParams,
    ) -> Result<Ask, StartFault>
        ensures refused { (octets : OctetsSent) (events : List Event)
            → FetchesStandFor octets events self.old
            → IsRefusedAs result (start_refusal peer events) }
        ensures ask { (octets : OctetsSent) (events : List Event)
            → FetchesStandFor octets events self.old
            → IfOk result (λ ask.
            ask
            ≡ record {
              peer = peer;
              bytes = spelling
                  (fetch_request mid (next_token events) None);
            }) }
        ensures started { (octets : OctetsSent) (events : List Event) (e : Event)
            → FetchesStandFor octets events self.old
            → e.note ≡ note.Asked peer (next_token events) mid params 0
            → e.moment ≡ now.0
            → e.word ≡ word
            → IfOk result (λ ask.
            octets e.place peer mid ≡ ask.bytes
            → FetchesStandFor octets (e ∷ events) self.new) }
        ensures sendable { IfOk result (λ ask. IsSendable mid ask.bytes) }
        ensures kept { OnErr result (self.new ≡ self.old) }
    {
        if index_of(&self.rows, &peer).is_some() {
            return Err(StartFault::Fetching(peer));
        }
        if self.rows.len() == MAX_FETCHES {
            return Err(StartFault::FullFetches);
        }
        let started = self.started.wrapping_add(1);
        let token = Token::of(&started.to_be_bytes());
        let (fetch, ask) = Fetch::start(alloc, now, word, mid, peer, token, params)?;
        self.rows.push_reserved(fetch);
        self.started = started;
        Ok(ask)
    }

    /// Returns whether a response belongs to the fetch of a peer: it has the token of the last GET
    /// and, if it is an acknowledgement, its Message ID (RFC 7252 section 5.3.2).
    pub fn belongs(&self, peer: &Peer, view: &View<'_>) -> bool
        ensures table { result ≡ belongs_among peer.now (message_in view.now) self.now.fetches }
        ensures events { (octets : OctetsSent) (events : List Event)
            → FetchesStandFor octets events self.now
            → result ≡ belongs_after peer.now (message_in view.now) events }
    {
        match fetch_of(&self.rows, peer) {
            Some(fetch) => fetch.is_answered_by(view),
            None => false,
        }
    }

    /// Handles a response that belongs to the fetch of a peer (RFC 9176 section 5.1, RFC 7959
    /// section 2.4). A further GET gets this Message ID, and `word` determines its initial timeout.
    ///
    /// `Ended` removes the fetch. `Passed`, `Whole` and `Starved` leave the table unchanged.
    ///
    /// # Requires
    ///
    /// The response belongs to the fetch (see [`Fetches::belongs`]).
    pub fn response(
        &mut self,
        alloc: Global,
        now: Moment,
        word: u32,
        mid: u16,
        peer: Peer,
        meaning: &Meaning<'_>,
    ) -> Heard
        requires belongs { belongs_among peer (message_in meaning.now.view) self.old.fetches
            ≡ true }
        ensures answer { (octets : OctetsSent) (events : List Event) (request : Request)
            → FetchesStandFor octets events self.old
            → request_of (last_request peer events) ≡ Some request
            → result ≢ Heard.Starved
            → result ≡ heard_after mid peer (message_in meaning.now.view) request events }
        ensures next { (octets : OctetsSent) (events : List Event) (request : Request)
            (block : Block) (gathered asked : Event) (ask : Ask)
            → FetchesStandFor octets events self.old
            → request_of (last_request peer events) ≡ Some request
            → block_in (message_in meaning.now.view) ≡ Some block
            → result ≡ Heard.Next ask
            → gathered.note
            ≡ note.Gathered peer meaning.now.view.payload.now
            (tag_in (message_in meaning.now.view))
            → asked.note ≡ note.Asked peer request.token mid request.params (block.num + 1)
            → asked.moment ≡ now.0
            → asked.word ≡ word
            → octets asked.place peer mid ≡ ask.bytes
            → FetchesStandFor octets (asked ∷ gathered ∷ events) self.new }
        ensures ended { (octets : OctetsSent) (events : List Event) (e : Event)
            → FetchesStandFor octets events self.old
            → result ≡ Heard.Ended
            → e.note ≡ note.Ceased peer
            → FetchesStandFor octets (e ∷ events) self.new }
        ensures kept { IsKeptAfter result self.old self.new }
        ensures sound { IsSoundHeard mid result }
    {
        let Some(index) = index_of(&self.rows, &peer) else {
            unreachable!()
        };
        let heard = self.rows[index].hear(alloc, now, word, mid, meaning);
        if let Heard::Ended = heard {
            let _ = self.rows.remove(index);
            return Heard::Ended;
        }
        heard
    }

    /// Ends the fetch of a peer, if there is one.
    pub fn end(&mut self, peer: &Peer)
        ensures { (octets : OctetsSent) (events : List Event) (e : Event)
            → FetchesStandFor octets events self.old
            → e.note ≡ note.Ceased peer.now
            → FetchesStandFor octets (e ∷ events) self.new }
    {
        drop_first(&mut self.rows, peer);
    }

    /// Records that a peer acknowledged the message with this Message ID, without a response. If it
    /// is the last GET of the peer's fetch, the fetch waits for a separate response (RFC 7252
    /// section 5.2.2). Returns whether it is.
    pub fn acked(&mut self, peer: &Peer, mid: u16) -> bool
        ensures answer { (octets : OctetsSent) (events : List Event)
            → FetchesStandFor octets events self.old
            → result ≡ is_last_request peer.now mid events }
        ensures waiting { (octets : OctetsSent) (events : List Event) (e : Event)
            → FetchesStandFor octets events self.old
            → result ≡ true
            → e.note ≡ note.Waiting peer.now
            → FetchesStandFor octets (e ∷ events) self.new }
        ensures kept { result ≡ false → self.new ≡ self.old }
    {
        let Some(index) = index_of_request(&self.rows, peer, mid) else {
            return false;
        };
        self.rows[index].await_response();
        true
    }

    /// Handles a Reset of the message with this Message ID from a peer. If it is the last GET of
    /// the peer's fetch, the fetch ends (RFC 7252 section 4.2). Returns whether it is.
    pub fn reset(&mut self, peer: &Peer, mid: u16) -> bool
        ensures answer { (octets : OctetsSent) (events : List Event)
            → FetchesStandFor octets events self.old
            → result ≡ is_last_request peer.now mid events }
        ensures ended { (octets : OctetsSent) (events : List Event) (e : Event)
            → FetchesStandFor octets events self.old
            → result ≡ true
            → e.note ≡ note.Ceased peer.now
            → FetchesStandFor octets (e ∷ events) self.new }
        ensures kept { result ≡ false → self.new ≡ self.old }
    {
        let Some(index) = index_of_request(&self.rows, peer, mid) else {
            return false;
        };
        let _ = self.rows.remove(index);
        true
    }

    /// Returns what is due now of the fetch at an index (RFC 7252 section 4.2). A retransmission
    /// counts as made now. `GaveUp` leaves the fetch in the table.
    ///
    /// # Requires
    ///
    /// The index is that of a fetch.
    pub fn timeout(&mut self, now: Moment, index: usize) -> Again
        requires { index < length self.old.fetches }
        ensures answer { (octets : OctetsSent) (events : List Event) (peer : Peer) (e : Event)
            → FetchesStandFor octets events self.old
            → slice_get (fetches events) index ≡ Some peer
            → last_request peer events ≡ Some e → result ≡ fetch_due now.0 peer e events }
        ensures resent { (octets : OctetsSent) (events : List Event) (peer : Peer) (e : Event)
            → FetchesStandFor octets events self.old
            → slice_get (fetches events) index ≡ Some peer
            → result ≡ Again.Send
            → e.note ≡ note.Resent peer
            → e.moment ≡ now.0
            → FetchesStandFor octets (e ∷ events) self.new }
        ensures kept { result ≢ Again.Send → self.new ≡ self.old }
    {
        self.rows[index].timeout(now)
    }

    /// Returns the peer of the fetch at an index, or `None` past the last.
    pub fn at(&self, index: usize) -> Option<Peer>
        ensures { result ≡ option_map (λ f. f.peer) (slice_get self.now.fetches index) }
    {
        match self.rows.get(index) {
            Some(fetch) => Some(fetch.peer()),
            None => None,
        }
    }

    /// Returns the last GET of the fetch at an index, as it was sent.
    ///
    /// # Requires
    ///
    /// The index is that of a fetch.
    pub fn sent(&self, index: usize) -> &[u8]
        requires { index < length self.now.fetches }
        ensures octets { option_map (λ f. f.waits.octets) (slice_get self.now.fetches index)
            ≡ Some result.now }
        ensures some { 0 < length result.now }
        ensures fits { length result.now ≤ longest_datagram }
    {
        self.rows[index].request()
    }

    /// Returns the number of fetches in progress.
    pub fn len(&self) -> usize
        ensures { result ≡ length self.now.fetches }
    {
        self.rows.len()
    }
}

/// Returns the index of the fetch of a peer.
fn index_of(rows: &Vec<Fetch>, peer: &Peer) -> Option<usize>
    ensures { result ≡ position (is_of peer.now) rows.now.items }
{
    rows.iter().position(|fetch| fetch.is_of(peer))
}

/// Returns the index of the fetch of a peer, if its last request has this Message ID.
fn index_of_request(rows: &Vec<Fetch>, peer: &Peer, mid: u16) -> Option<usize>
    ensures index { IfSome result (λ i. position (is_of peer.now) rows.now.items ≡ Some i) }
    ensures answer { is_some result
        ≡ some_passes (λ f. f.waits.mid == mid) (find (is_of peer.now) rows.now.items) }
{
    let Some(index) = index_of(rows, peer) else {
        return None;
    };
    if !rows[index].has_mid(mid) {
        return None;
    }
    Some(index)
}

/// Returns the fetch of a peer.
fn fetch_of<'a>(rows: &'a Vec<Fetch>, peer: &Peer) -> Option<&'a Fetch>
    ensures { option_map (λ f. f.now) result ≡ find (is_of peer.now) rows.now.items }
{
    rows.iter().find(|fetch| fetch.is_of(peer))
}

/// Removes the fetch of a peer, if there is one.
fn drop_first(rows: &mut Vec<Fetch>, peer: &Peer)
    ensures items { rows.new.items ≡ without_first (is_of peer.now) rows.old.items }
    ensures capacity { vec_capacity rows.new ≡ vec_capacity rows.old }
{
    if let Some(index) = index_of(rows, peer) {
        let _ = rows.remove(index);
    }
}
