//! Lookups and reads whose answers depend on the journal. They request a later block of a listing
//! or a source, or begin or end an observation (RFC 7959 section 2.4, RFC 7641 sections 3 and 4.1).
ghost use Rattle.std.specs.Prelude.{◌≡◌, ◌<◌, ◌^◌, ℕ, Bool, true, false, List, length, Some};
ghost use Rattle.std.specs.Prelude.{None, IfOk, IfSome, OnErr, is_some};
ghost use Rattle.std.specs.Arc.{arc_value};
ghost use Rattle.std.specs.Option.{ForSome};
ghost use Rattle.rd_base.specs.declared.peers.Peer.{Peer as Endpoint};
ghost use Rattle.message_model.specs.Request.{path_in, observe_in};
ghost use Rattle.message_model.specs.RequestKey.{key_in};
ghost use Rattle.history_model.specs.declared.entries.Entry.{Entry};
ghost use Rattle.history_model.specs.Versions.{VersionStandsFor};
ghost use Rattle.event_model.specs.Observers.{has_room_for, observers};
ghost use Rattle.journal_model.specs.declared.steps.Step.{Step};
ghost use Rattle.journal_model.specs.declared.rows.Row.{Row};
ghost use Rattle.journal_model.specs.Bodies as bodies_of;
ghost use Rattle.journal_model.specs.Effects.{Effects, nothing, joined, noting};
ghost use Rattle.journal_model.specs.Journal.{events};
ghost use Rattle.journal_model.specs.Lookups.{without};
ghost use Rattle.journal_model.specs.Requests as requests_of;
ghost use Rattle.journal_model.specs.Sought.{has_tag, sought_in};
ghost use Rattle.coap_answers.specs.declared.mids.Mids.{Mids as MidsSeen};
ghost use Rattle.coap_answers.specs.Outboxes.{most_datagrams};
ghost use Rattle.rd_request.specs.Accepted.{message_of};
ghost use Rattle.rd_request.specs.Asking.{seeks_links, begins_observation};
ghost use Rattle.rd_desk.specs.parts.Lookups.{answer_listed, answer_at, IsFormed};
ghost use Rattle.observation.specs.Joining.{observer_joining, joining_notes};
ghost use Rattle.rd_desk.specs.parts.Lookups.{IsReadied, IsJoining, giving, value_given};
ghost use Rattle.rd_desk.specs.parts.Lookups.{answer_found, IsFormedOf, later_heard, lookup_heard};
ghost use Rattle.rd_desk.specs.calls.Stepping.{is_starved_step};
ghost use Rattle.rd_desk.specs.parts.UnderWay.{UnderWay};

use crate::lookup::listings::{Formed, form, found_at, joining_by, listed_at, send_kept};
use crate::tables::Tables;
use crate::{Mids, Outbox, Stepped};
use coap_answers::{answer_starved, has_asked_block, is_long};
use coap_options::request_key;
use exchange_core::Token;
use observation::Joining;
use rd_base::{Peer, Query, Starved};
use rd_look::{answer_not_live, send_block};
use rd_request::{Request, begins_observation, is_later_block, query_of};

/// The number of Observe values, which have 24 bits (RFC 7641 section 3.4).
const OBSERVE_VALUES: u64 = 16_777_216;

/// All memory that a lookup that asks to observe needs, except the slot of its query.
#[derive(Drop)]
struct Observing {
    /// The query that it looks up.
    query: Query,
    /// The client that asks, with its request.
    joining: Joining,
    /// The listing that answers it.
    formed: Formed,
}

impl Tables {
    /// Sends the requested block of a listing or a source, and keeps the whole body if that is
    /// ready. Does not allocate.
    fn give_formed(
        &mut self,
        mids: &mut Mids,
        peer: Peer,
        request: &Request<'_>,
        observe: Option<u32>,
        formed: Formed,
        out: &mut Outbox,
    )
        requires observe { ForSome observe (λ value. value < 2 ^ 24) }
        requires ready { IsReadied self.old.moment peer (key_in (message_of request.now))
            self.old.transfers.answers formed }
        requires room { length out.old < most_datagrams }
        ensures way { (rows : List Row) (s : Step) (starved : Bool) (done : Effects)
            → s.peer ≡ peer
            → done.drew ≡ 0
            → UnderWay rows s starved done self.old out.old mids.old
            → UnderWay rows s starved (joined done
            (giving (is_some formed.ready) observe s (message_of request.now)
            (answer_listed formed.listed))) self.new out.new mids.new }
        ensures version { self.new.version ≡ self.old.version }
    {
        let Formed { listed, ready } = formed;
        send_block(
            mids,
            peer,
            request,
            Some(listed.tag),
            observe,
            listed.body.as_slice(),
            out,
        );
        match ready {
            None => return,
            Some(ready) => {
                self.transfers.adopt(ready);
                return;
            }
        }
    }

    /// Builds what a request for a later block finds now, to be kept if it has that block. Returns
    /// `None` if the registration to read is not live.
    fn form_later(&self, peer: Peer, request: &Request<'_>) -> Result<Option<Formed>, Starved>
        requires seeks { has_tag (sought_in (message_of request.now)) ≡ true }
        ensures formed { (history : List Entry)
            → VersionStandsFor 0 history self.now.version
            → IfOk result (IsFormedOf (message_of request.now)
            (answer_found history self.now.moment (message_of request.now))) }
        ensures ready { IfOk result (λ found. IfSome found (IsReadied self.now.moment peer
            (key_in (message_of request.now)) self.now.transfers.answers)) }
    {
        let found = found_at(self.alloc, &*self.version, self.moment, request)?;
        let Some(listed) = found else {
            return Ok(None);
        };
        let keep = has_asked_block(&request.asked, listed.body.as_slice());
        let formed = form(
            &self.transfers,
            self.alloc,
            self.moment,
            peer,
            request,
            keep,
            listed,
        )?;
        Ok(Some(formed))
    }

    /// Builds the listing of a query now, which answers a lookup of a first block. It is to be kept
    /// if it is longer than a block.
    fn form_first(
        &self,
        peer: Peer,
        request: &Request<'_>,
        query: &Query,
    ) -> Result<Formed, Starved>
        ensures formed { (history : List Entry)
            → VersionStandsFor 0 history self.now.version
            → IfOk result (IsFormed (bodies_of.is_long
            (requests_of.asked_block (message_of request.now))
            (answer_at history self.now.moment query.now).body)
            (answer_at history self.now.moment query.now)) }
        ensures ready { IfOk result (IsReadied self.now.moment peer
            (key_in (message_of request.now)) self.now.transfers.answers) }
    {
        let listed = listed_at(self.alloc, &*self.version, self.moment, query)?;
        let keep = is_long(&request.asked, listed.body.as_slice());
        form(
            &self.transfers,
            self.alloc,
            self.moment,
            peer,
            request,
            keep,
            listed,
        )
    }

    /// Builds the answer to a lookup that ends an observation.
    fn form_unobserved(&self, peer: Peer, request: &Request<'_>) -> Result<Formed, Starved>
        requires seeks { seeks_links (path_in (message_of request.now)) ≡ true }
        ensures formed { (history : List Entry)
            → VersionStandsFor 0 history self.now.version
            → IfOk result (IsFormed (bodies_of.is_long
            (requests_of.asked_block (message_of request.now))
            (answer_at history self.now.moment
            (requests_of.query_of (message_of request.now))).body)
            (answer_at history self.now.moment
            (requests_of.query_of (message_of request.now)))) }
        ensures ready { IfOk result (IsReadied self.now.moment peer
            (key_in (message_of request.now)) self.now.transfers.answers) }
    {
        let query = query_of(self.alloc, request)?;
        self.form_first(peer, request, &query)
    }

    /// Allocates what a lookup that asks to observe needs, except the slot of its query.
    fn form_observed(&self, peer: Peer, request: &Request<'_>) -> Result<Observing, Starved>
        requires seeks { seeks_links (path_in (message_of request.now)) ≡ true }
        ensures query { IfOk result (λ o. o.query
            ≡ requests_of.query_of (message_of request.now)) }
        ensures joining { IfOk result (λ o. IsJoining peer (message_of request.now)
            (arc_value o.formed.listed.body) o.joining) }
        ensures formed { (history : List Entry)
            → VersionStandsFor 0 history self.now.version
            → IfOk result (λ o. IsFormed (bodies_of.is_long
            (requests_of.asked_block (message_of request.now))
            (answer_at history self.now.moment
            (requests_of.query_of (message_of request.now))).body)
            (answer_at history self.now.moment
            (requests_of.query_of (message_of request.now))) o.formed) }
        ensures ready { IfOk result (λ o. IsReadied self.now.moment peer
            (key_in (message_of request.now)) self.now.transfers.answers o.formed) }
    {
        let query = query_of(self.alloc, request)?;
        let formed = self.form_first(peer, request, &query)?;
        let joining = joining_by(self.alloc, peer, request, &formed.listed)?;
        Ok(Observing {
            query,
            joining,
            formed,
        })
    }

    /// Adds an observer in place of that of its peer and token, if there is room. Returns the
    /// Observe value that it gets then, or `None` if there is no room. `Starved` leaves everything
    /// unchanged.
    fn join(&mut self, query: &Query, joining: Joining) -> Result<Option<u32>, Starved>
        ensures value { (rows : List Row) (s : Step) (starved : Bool) (out : List (Endpoint
            × List ℕ)) (mids : MidsSeen)
            → UnderWay rows s starved nothing self.old out mids
            → IfOk result (λ value. value
            ≡ value_given (has_room_for query.now
            (without (joining.peer, joining.token) (observers (events rows))))
            (events rows)) }
        ensures way { (rows : List Row) (s : Step) (starved : Bool) (out : List (Endpoint
            × List ℕ)) (mids : MidsSeen)
            → UnderWay rows s starved nothing self.old out mids
            → IfOk result (λ value. UnderWay rows s starved
            (noting (joining_notes (is_some value) (observer_joining query.now joining)
            (arc_value joining.body) (observers (events rows)))) self.new out mids) }
        ensures short { IfOk result (λ value. ForSome value (λ v. v < 2 ^ 24)) }
        ensures transfers { self.new.transfers ≡ self.old.transfers }
        ensures moment { self.new.moment ≡ self.old.moment }
        ensures unchanged { OnErr result (self.new ≡ self.old) }
        ensures version { self.new.version ≡ self.old.version }
    {
        let added = self.watching.join(self.alloc, query, joining)?;
        if !added {
            return Ok(None);
        }
        self.observed = self.observed.wrapping_add(1);
        Ok(Some((self.observed % OBSERVE_VALUES) as u32))
    }

    /// Answers a lookup or a read of a later block with a block of the kept answer, or else of what
    /// is found now. Answers 4.04 if the registration to read is not live.
    pub(crate) fn answer_later(
        &mut self,
        mids: &mut Mids,
        peer: Peer,
        request: &Request<'_>,
        out: &mut Outbox,
    ) -> Stepped
        requires seeks { has_tag (sought_in (message_of request.now)) ≡ true }
        requires room { length out.old < most_datagrams }
        ensures way { (rows : List Row) (s : Step)
            → s.peer ≡ peer
            → UnderWay rows s (is_starved_step result) nothing self.old out.old mids.old
            → UnderWay rows s (is_starved_step result)
            (later_heard (is_starved_step result) rows s (message_of request.now))
            self.new out.new mids.new }
        ensures version { self.new.version ≡ self.old.version }
    {
        let Ok(key) = request_key(self.alloc, &request.meaning) else {
            answer_starved(mids, peer, &request.meaning.view, out);
            return Stepped::Starved;
        };
        if send_kept(
            &mut self.transfers,
            self.moment,
            mids,
            peer,
            request,
            &key,
            out,
        ) {
            return Stepped::Done;
        }
        let Ok(found) = self.form_later(peer, request) else {
            answer_starved(mids, peer, &request.meaning.view, out);
            return Stepped::Starved;
        };
        let Some(formed) = found else {
            answer_not_live(mids, peer, request, out);
            return Stepped::Done;
        };
        self.give_formed(mids, peer, request, None, formed, out);
        Stepped::Done
    }

    /// Answers a lookup of a first block that asks to observe. Removes the observer of the same
    /// peer and token, and adds a new one if there is room.
    fn answer_observed(
        &mut self,
        mids: &mut Mids,
        peer: Peer,
        request: &Request<'_>,
        out: &mut Outbox,
    ) -> Stepped
        requires seeks { seeks_links (path_in (message_of request.now)) ≡ true }
        requires first { requests_of.is_later_block (message_of request.now) ≡ false }
        requires observes { begins_observation (observe_in (message_of request.now)) ≡ true }
        requires room { length out.old < most_datagrams }
        ensures way { (rows : List Row) (s : Step)
            → s.peer ≡ peer
            → UnderWay rows s (is_starved_step result) nothing self.old out.old mids.old
            → UnderWay rows s (is_starved_step result)
            (lookup_heard (is_starved_step result) rows s (message_of request.now))
            self.new out.new mids.new }
        ensures version { self.new.version ≡ self.old.version }
    {
        let Ok(observing) = self.form_observed(peer, request) else {
            answer_starved(mids, peer, &request.meaning.view, out);
            return Stepped::Starved;
        };
        let Observing {
            query,
            joining,
            formed,
        } = observing;
        let Ok(value) = self.join(&query, joining) else {
            answer_starved(mids, peer, &request.meaning.view, out);
            return Stepped::Starved;
        };
        self.give_formed(mids, peer, request, value, formed, out);
        Stepped::Done
    }

    /// Answers a lookup of a first block that ends an observation, and removes the observer of its
    /// peer and token.
    fn answer_unobserved(
        &mut self,
        mids: &mut Mids,
        peer: Peer,
        request: &Request<'_>,
        out: &mut Outbox,
    ) -> Stepped
        requires seeks { seeks_links (path_in (message_of request.now)) ≡ true }
        requires first { requests_of.is_later_block (message_of request.now) ≡ false }
        requires heeded { requests_of.is_heeded (observe_in (message_of request.now)) ≡ true }
        requires ends { begins_observation (observe_in (message_of request.now)) ≡ false }
        requires room { length out.old < most_datagrams }
        ensures way { (rows : List Row) (s : Step)
            → s.peer ≡ peer
            → UnderWay rows s (is_starved_step result) nothing self.old out.old mids.old
            → UnderWay rows s (is_starved_step result)
            (lookup_heard (is_starved_step result) rows s (message_of request.now))
            self.new out.new mids.new }
        ensures version { self.new.version ≡ self.old.version }
    {
        let Ok(formed) = self.form_unobserved(peer, request) else {
            answer_starved(mids, peer, &request.meaning.view, out);
            return Stepped::Starved;
        };
        self.watching
            .leave(&peer, &Token::of(request.meaning.view.token.octets));
        self.give_formed(mids, peer, request, None, formed, out);
        Stepped::Done
    }

    /// Handles a lookup that depends on the journal. It requests a later block, in which case its
    /// Observe value is ignored, or it begins or ends an observation.
    pub(crate) fn hear_lookup(
        &mut self,
        mids: &mut Mids,
        peer: Peer,
        request: &Request<'_>,
        out: &mut Outbox,
    ) -> Stepped
        requires lookup { requests_of.is_lookup (path_in (message_of request.now)) ≡ true }
        requires other { requests_of.only_looks (message_of request.now) ≡ false }
        requires room { length out.old < most_datagrams }
        ensures way { (rows : List Row) (s : Step)
            → s.peer ≡ peer
            → UnderWay rows s (is_starved_step result) nothing self.old out.old mids.old
            → UnderWay rows s (is_starved_step result)
            (lookup_heard (is_starved_step result) rows s (message_of request.now))
            self.new out.new mids.new }
        ensures version { self.new.version ≡ self.old.version }
    {
        if is_later_block(request) {
            return self.answer_later(mids, peer, request, out);
        }
        if begins_observation(request.meaning.observe) {
            return self.answer_observed(mids, peer, request, out);
        }
        self.answer_unobserved(mids, peer, request, out)
    }
}
