//! Writes as they arrive (RFC 7252 sections 4.2 and 4.5, RFC 9175 section 2.3).
ghost use Rattle.std.specs.Prelude.{◌≡◌, ◌<◌, ℕ, Bool, true, false, [], ◌∷◌};
ghost use Rattle.std.specs.Prelude.{List, length};
ghost use Rattle.std.specs.Prelude.{if◌then◌else◌, Ok};
ghost use Rattle.std.specs.List.{list_any};
ghost use Rattle.rd_base.specs.declared.peers.Peer.{Peer};
ghost use Rattle.message_model.specs.declared.requests.Path.{Path};
ghost use Rattle.message_model.specs.Reading.{reading};
ghost use Rattle.message_model.specs.Spelling.{spelling};
ghost use Rattle.coap_message.specs.Views.{message_in};
ghost use Rattle.event_model.specs.declared.notes.Note.TheVariants as note;
ghost use Rattle.event_model.specs.Repeats.{is_admitting};
ghost use Rattle.journal_model.specs.declared.steps.Step.{Step};
ghost use Rattle.journal_model.specs.declared.rows.Row.{Row};
ghost use Rattle.journal_model.specs.Effects.{nothing};
ghost use Rattle.journal_model.specs.Journal.{events};
ghost use Rattle.journal_model.specs.Rows.{row_moment};
ghost use Rattle.journal_model.specs.Writes as writes_of;
ghost use Rattle.journal_model.specs.Writes.{write_effects};
ghost use Rattle.coap_answers.specs.declared.mids.Mids.{Mids};
ghost use Rattle.coap_answers.specs.Outboxes.{most_datagrams};
ghost use Rattle.coap_answers.specs.Sendings.{IsStepOf, Sends};
ghost use Rattle.rd_request.specs.Resources.{is_at};
ghost use Rattle.rd_request.specs.WriteRequests.{is_write_datagram};
ghost use Rattle.rd_request.specs.Accepted.{message_of};
ghost use Rattle.rd_desk.specs.calls.Admitting.{is_starved_admission, write_takes};
ghost use Rattle.rd_desk.specs.parts.Hearing.{unadmitted, write_heard};
ghost use Rattle.rd_desk.specs.calls.Admitting.{IsHeldFor};
ghost use Rattle.rd_desk.specs.parts.UnderWay.{UnderWay};

use crate::tables::Tables;
use crate::{Admitted, Mids, Outbox, WriteJob};
use coap_answers::{Datagram, answer_challenge, answer_full, answer_starved};
use coap_message::View;
use exchange_core::Keyed;
use rd_base::Peer;
use rd_request::{KeptRequest, Request, Resource};

/// Answers a write that is not admitted (RFC 7252 section 4.5). A duplicate gets the octets of the
/// first answer, or nothing while the write is in progress. A write for which there is no room is
/// refused.
fn answer_unadmitted(mids: &mut Mids, peer: Peer, view: &View<'_>, keyed: Keyed, out: &mut Outbox)
    requires room { length out.old < most_datagrams }
    ensures sends { (s : Step)
        → IsStepOf s peer mids.old
        → Sends (unadmitted keyed s (message_in view.now)) out.old out.new mids.old mids.new }
{
    match keyed {
        Keyed::Fresh | Keyed::InFlight => {}
        Keyed::Kept(reply) => {
            let datagram = Datagram {
                octets: reply.as_slice(),
            };
            out.push(peer, datagram);
        }
        Keyed::FullExchanges => answer_full(mids, peer, view, b"exchanges", out),
    }
}

/// Returns whether the directory would send requests to the sender. It does so only for a simple
/// registration (RFC 9176 section 5.1).
fn is_fetched_for(resource: &Resource) -> bool
    ensures { (path : Path)
        → is_at resource.now path ≡ true
        → result ≡ writes_of.is_fetched_for path }
{
    match resource {
        Resource::SimpleRegistration => true,
        Resource::Core | Resource::Lookup(_) | Resource::Location(_) | Resource::Registration => {
            false
        }
    }
}

impl Tables {
    /// Returns whether a write has yet to prove that its peer receives at its address. A simple
    /// registration has, unless its Echo value is good now (RFC 9175 sections 2.3 and 2.6).
    fn is_unproved(&self, peer: &Peer, request: &Request<'_>) -> bool
        ensures { (rows : List Row) (s : Step) (starved : Bool) (out : List (Peer
            × List ℕ)) (mids : Mids)
            → s.peer ≡ peer.now
            → UnderWay rows s starved nothing self.now out mids
            → result ≡ writes_of.is_unproved (events rows) (row_moment rows s) s
            (message_of request.now) }
    {
        if !is_fetched_for(&request.resource) {
            return false;
        }
        match request.meaning.echo {
            Some(value) => !self.echoes.good(self.moment, peer, value),
            None => true,
        }
    }

    /// Handles a write that has yet to prove its peer's address: it is a duplicate, or there is no
    /// room for it, or it is challenged (RFC 9175 section 2.3). Does not allocate.
    fn challenge_write(
        &mut self,
        word: u32,
        mids: &mut Mids,
        peer: Peer,
        view: &View<'_>,
        out: &mut Outbox,
    )
        requires room { length out.old < most_datagrams }
        ensures way { (rows : List Row) (s : Step) (starved : Bool)
            → s.peer ≡ peer
            → s.word ≡ word
            → writes_of.is_unproved (events rows) (row_moment rows s) s (message_in view.now)
            ≡ true
            → UnderWay rows s starved nothing self.old out.old mids.old
            → UnderWay rows s starved (write_effects (events rows) (row_moment rows s) s
            (message_in view.now)) self.new out.new mids.new }
        ensures unadmitted { (rows : List Row) (s : Step) (starved : Bool)
            → s.peer ≡ peer
            → writes_of.is_unproved (events rows) (row_moment rows s) s (message_in view.now)
            ≡ true
            → UnderWay rows s starved nothing self.old out.old mids.old
            → list_any is_admitting (write_effects (events rows) (row_moment rows s) s
            (message_in view.now)).notes
            ≡ false }
        ensures version { self.new.version ≡ self.old.version }
    {
        let keyed = self.exchanges.find_key(self.moment, peer, view.mid);
        if let Keyed::Fresh = keyed {
            let value = self.echoes.challenge(self.moment, word, peer);
            answer_challenge(mids, peer, view, value, out);
            return;
        }
        answer_unadmitted(mids, peer, view, keyed, out);
    }

    /// Handles a write that has nothing to prove: it is a duplicate, or there is no room for it, or
    /// it is admitted. Returns whether it is admitted. Does not allocate.
    fn admit_write(
        &mut self,
        mids: &mut Mids,
        peer: Peer,
        view: &View<'_>,
        out: &mut Outbox,
    ) -> bool
        requires room { length out.old < most_datagrams }
        ensures way { (rows : List Row) (s : Step) (starved : Bool)
            → s.peer ≡ peer
            → writes_of.is_unproved (events rows) (row_moment rows s) s (message_in view.now)
            ≡ false
            → UnderWay rows s starved nothing self.old out.old mids.old
            → UnderWay rows s starved (write_effects (events rows) (row_moment rows s) s
            (message_in view.now)) self.new out.new mids.new }
        ensures admitted { (rows : List Row) (s : Step) (starved : Bool)
            → s.peer ≡ peer
            → writes_of.is_unproved (events rows) (row_moment rows s) s (message_in view.now)
            ≡ false
            → UnderWay rows s starved nothing self.old out.old mids.old
            → (write_effects (events rows) (row_moment rows s) s (message_in view.now)).notes
            ≡ (if result then note.Admitted s.peer view.now.mid ∷ [] else []) }
        ensures alone { self.new ≡ record self.old { exchanges = self.new.exchanges } }
        ensures unsent { result ≡ true → (out.new ≡ out.old) × (mids.new ≡ mids.old) }
    {
        let keyed = self.exchanges.admit_key(self.moment, peer, view.mid);
        if let Keyed::Fresh = keyed {
            return true;
        }
        answer_unadmitted(mids, peer, view, keyed, out);
        false
    }

    /// Handles a write that is not refused by its content alone. If it is admitted, it leaves a
    /// job with its request. If there is no memory for the job, the write is forgotten again. A
    /// write that is not admitted does not allocate. `word` determines the value of a challenge.
    pub(crate) fn hear_write(
        &mut self,
        word: u32,
        mids: &mut Mids,
        peer: Peer,
        request: &Request<'_>,
        out: &mut Outbox,
    ) -> Admitted
        requires read { reading (spelling (message_of request.now)) ≡ Ok (message_of request.now) }
        requires write { is_write_datagram (spelling (message_of request.now)) ≡ true }
        requires room { length out.old < most_datagrams }
        ensures way { (rows : List Row) (s : Step)
            → s.peer ≡ peer
            → s.word ≡ word
            → UnderWay rows s (is_starved_admission result) nothing self.old out.old mids.old
            → UnderWay rows s (is_starved_admission result)
            (write_heard (is_starved_admission result) rows s (message_of request.now)) self.new
            out.new mids.new }
        ensures held { (rows : List Row) (s : Step)
            → s.peer ≡ peer
            → s.datagram ≡ spelling (message_of request.now)
            → UnderWay rows s (is_starved_admission result) nothing self.old out.old mids.old
            → IsHeldFor result (write_heard (is_starved_admission result) rows s
            (message_of request.now)).notes s (row_moment rows s) }
        ensures unstarved { (rows : List Row) (s : Step)
            → s.peer ≡ peer
            → UnderWay rows s false nothing self.old out.old mids.old
            → write_takes rows (row_moment rows s) s (message_of request.now) ≡ false
            → is_starved_admission result ≡ false }
        ensures version { self.new.version ≡ self.old.version }
    {
        let view = &request.meaning.view;
        if self.is_unproved(&peer, request) {
            self.challenge_write(word, mids, peer, view, out);
            return Admitted::Done;
        }
        if !self.admit_write(mids, peer, view, out) {
            return Admitted::Done;
        }
        let Ok(kept) = KeptRequest::of(self.alloc, request) else {
            self.exchanges.forget(peer, view.mid, self.moment);
            answer_starved(mids, peer, view, out);
            return Admitted::Starved;
        };
        Admitted::Held(WriteJob {
            peer,
            request: kept,
            admitted: self.moment,
        })
    }
}
