//! Responses to the fetches of simple registrations (RFC 9176 section 5.1, RFC 7252 sections 4.2
//! and 5.2.2).
ghost use Rattle.std.specs.Prelude.{◌≡◌, ◌<◌, ◌≤◌, ◌+◌, ◌∷◌, [], true, ℕ, Bool, List, Some};
ghost use Rattle.std.specs.Prelude.{None, IfSome, is_some, length, false, if◌then◌else◌};
ghost use Rattle.rd_base.specs.declared.peers.Peer.{Peer};
ghost use Rattle.record_model.specs.AllowedParameters.{AreAllowed};
ghost use Rattle.coap_message.specs.PartialMessages.{longest_datagram};
ghost use Rattle.coap_message.specs.Views.{message_in};
ghost use Rattle.history_model.specs.declared.entries.Entry.{Entry};
ghost use Rattle.event_model.specs.declared.notes.Note.{Note};
ghost use Rattle.event_model.specs.declared.notes.Note.TheVariants as note;
ghost use Rattle.event_model.specs.Fetches.{Request, last_request, request_of};
ghost use Rattle.event_model.specs.Events.{Event};
ghost use Rattle.event_model.specs.Flights.{OctetsSent};
ghost use Rattle.journal_model.specs.declared.steps.Step.{Step};
ghost use Rattle.journal_model.specs.declared.rows.Row.{Row};
ghost use Rattle.journal_model.specs.Changes as changes;
ghost use Rattle.journal_model.specs.Effects.{Effects, nothing, joined, noting};
ghost use Rattle.journal_model.specs.Journal.{events, entries};
ghost use Rattle.journal_model.specs.Responses.{strange, acknowledgement, completed, response_to};
ghost use Rattle.journal_model.specs.Responses.{fetch_of};
ghost use Rattle.journal_model.specs.Rows.{row_moment};
ghost use Rattle.simple_registration.specs.FetchEvents.{FetchesStandFor};
ghost use Rattle.simple_registration.specs.Table.{belongs_among};
ghost use Rattle.coap_answers.specs.declared.mids.Mids.{Mids};
ghost use Rattle.coap_answers.specs.Outboxes.{most_datagrams};
ghost use Rattle.coap_answers.specs.Sendings.{Sends};
ghost use Rattle.rd_desk.specs.calls.Admitting.{response_takes};
ghost use Rattle.rd_desk.specs.parts.Outcomes.{IsPlanned, IsTimely};
ghost use Rattle.rd_desk.specs.parts.Responding.{asking_next, unless_starved, response_heard};
ghost use Rattle.rd_desk.specs.calls.Stepping.{is_starved_step};
ghost use Rattle.rd_desk.specs.parts.UnderWay.{UnderWay};
ghost use Rattle.rd_desk.specs.calls.Shown.{AreToldOf};
ghost use Rattle.rd_desk.specs.parts.Laying.{IsLaid, IsLeftBy};

use crate::tables::Tables;
use crate::write::outcomes::{Outcome, registered};
use crate::write::staging::staged;
use crate::{Mids, Outbox, Stepped};
use coap_answers::{Datagram, send_empty};
use coap_message::{Kind4, View};
use coap_options::{Meaning, meaning};
use directory_core::Board;
use rd_base::{Bytes, Peer, RegParams};
use simple_registration::{Ask, Fetches, Heard};

/// Rejects a confirmable response that belongs to no fetch by a Reset, and ignores any other (RFC
/// 7252 section 4.2).
fn reject_strange(peer: Peer, view: &View<'_>, out: &mut Outbox)
    requires { length out.old < most_datagrams }
    ensures { (s : Step) (mids : Mids)
        → s.peer ≡ peer
        → Sends (strange s (message_in view.now) view.now.kind) out.old out.new mids mids }
{
    match view.kind {
        Kind4::Con => {
            send_empty(peer, Kind4::Rst, view.mid, out);
            return;
        }
        Kind4::Non | Kind4::Ack | Kind4::Rst => return,
    }
}

/// Acknowledges a response that belongs to a fetch, if it is confirmable (RFC 7252 section 5.2.2).
fn acknowledge_response(peer: Peer, view: &View<'_>, out: &mut Outbox)
    requires room { length out.old < most_datagrams }
    ensures sends { (s : Step) (mids : Mids)
        → s.peer ≡ peer
        → Sends (acknowledgement s (message_in view.now) view.now.kind) out.old out.new mids mids }
    ensures one { length out.new ≤ length out.old + 1 }
{
    match view.kind {
        Kind4::Con => {
            send_empty(peer, Kind4::Ack, view.mid, out);
            return;
        }
        Kind4::Non | Kind4::Ack | Kind4::Rst => return,
    }
}

/// Returns the meaning of a response to the last request of the fetch of a peer. Returns `None` if
/// it belongs to no fetch or has an unrecognized critical option (RFC 7252 section 5.3.2).
fn answered<'a>(fetches: &Fetches, peer: &Peer, view: &View<'a>) -> Option<Meaning<'a>>
    ensures fetch { (octets : OctetsSent) (events : List Event) (s : Step)
        → FetchesStandFor octets events fetches.now
        → s.peer ≡ peer.now
        → fetch_of s (message_in view.now) events
        ≡ (if is_some result then request_of (last_request peer.now events) else None) }
    ensures view { IfSome result (λ meaning. message_in meaning.view ≡ message_in view.now) }
    ensures belongs { IfSome result (λ meaning. belongs_among peer.now (message_in meaning.view)
        fetches.now.fetches
        ≡ true) }
{
    if !fetches.belongs(peer, view) {
        return None;
    }
    match meaning(view) {
        Ok(meaning) => Some(meaning),
        Err(_) => None,
    }
}

/// Sends the next request of a fetch, under the next Message ID.
pub(crate) fn ask_next(mids: &mut Mids, ask: &Ask, out: &mut Outbox)
    requires room { length out.old < most_datagrams }
    requires fits { length ask.now.bytes ≤ longest_datagram }
    ensures sends { (notes : List Note)
        → Sends (asking_next ask.now notes) out.old out.new mids.old mids.new }
{
    let _drawn = mids.next();
    let datagram = Datagram {
        octets: ask.bytes.as_slice(),
    };
    out.push(ask.peer, datagram);
}

impl Tables {
    /// Does what is planned of a registration: makes its entry if it is accepted. A refusal is
    /// silent. Does not allocate.
    fn register_fetched(&mut self, planned: Outcome)
        requires { IsTimely self.old.moment planned }
        ensures way { (rows : List Row) (s : Step) (starved : Bool) (done : Effects)
            (meant : changes.Outcome) (out : List (Peer
            × List ℕ)) (mids : Mids)
            → done.notes ≡ []
            → ((entry : Entry)
            → meant.notes ≡ note.Entered entry ∷ []
            → entry.moment.0 ≡ row_moment rows s)
            → IsPlanned (entries rows) self.old.version.swept [] meant planned
            → UnderWay rows s starved done self.old out mids
            → UnderWay rows s starved (joined done (noting meant.notes)) self.new out mids }
        ensures version { IsLeftBy self.old.version self.new.version planned.entering }
    {
        if let Some(entering) = planned.entering {
            self.enter(entering);
        }
    }

    /// Registers the body that a response completes, or refuses it silently, and ends the fetch.
    /// Everything that allocates comes before anything changes.
    fn complete_fetch<B: Board>(
        &mut self,
        board: &mut B,
        peer: Peer,
        view: &View<'_>,
        params: RegParams,
        body: &[u8],
        out: &mut Outbox,
    ) -> Stepped
        requires allowed { AreAllowed params }
        requires room { length out.old < most_datagrams }
        requires free { B.has_staged board.old ≡ false }
        requires told { AreToldOf self.old.version (B.told board.old) }
        ensures way { (rows : List Row) (s : Step) (request : Request) (mids : Mids)
            → s.peer ≡ peer
            → request.params ≡ params
            → UnderWay rows s (is_starved_step result) nothing self.old out.old mids
            → UnderWay rows s (is_starved_step result)
            (unless_starved (is_starved_step result)
            (joined (acknowledgement s (message_in view.now) view.now.kind)
            (completed rows (row_moment rows s) s request body.now))) self.new out.new mids }
        ensures laid { IsLaid self.old.version self.new.version (B.staged board.old)
            (B.staged board.new) (B.has_staged board.new) }
        ensures name { B.name board.new ≡ B.name board.old }
        ensures told { B.told board.new ≡ B.told board.old }
    {
        let planned = registered(
            self.alloc,
            &*self.version,
            self.moment,
            peer,
            params,
            body,
            None,
        );
        let Ok(planned) = staged(board, planned) else {
            return Stepped::Starved;
        };
        acknowledge_response(peer, view, out);
        self.register_fetched(planned);
        self.fetches.end(&peer);
        Stepped::Done
    }

    /// Handles a response to the last request of the fetch of its peer, by its result (RFC 7959
    /// section 2.4).
    fn hear_answer<B: Board>(
        &mut self,
        board: &mut B,
        word: u32,
        mids: &mut Mids,
        peer: Peer,
        meaning: &Meaning<'_>,
        out: &mut Outbox,
    ) -> Stepped
        requires belongs { belongs_among peer (message_in meaning.now.view) self.old.fetches.fetches
            ≡ true }
        requires room { length out.old + 1 < most_datagrams }
        requires free { B.has_staged board.old ≡ false }
        requires told { AreToldOf self.old.version (B.told board.old) }
        ensures way { (rows : List Row) (s : Step) (request : Request)
            → s.peer ≡ peer
            → s.word ≡ word
            → request_of (last_request peer (events rows)) ≡ Some request
            → UnderWay rows s (is_starved_step result) nothing self.old out.old mids.old
            → UnderWay rows s (is_starved_step result)
            (unless_starved (is_starved_step result)
            (joined (acknowledgement s (message_in meaning.now.view) meaning.now.view.kind)
            (response_to rows (row_moment rows s) s (message_in meaning.now.view) request)))
            self.new out.new mids.new }
        ensures laid { IsLaid self.old.version self.new.version (B.staged board.old)
            (B.staged board.new) (B.has_staged board.new) }
        ensures name { B.name board.new ≡ B.name board.old }
        ensures told { B.told board.new ≡ B.told board.old }
    {
        let mid = mids.upcoming();
        match self
            .fetches
            .response(self.alloc, self.moment, word, mid, peer, meaning)
        {
            Heard::Passed => {
                acknowledge_response(peer, &meaning.view, out);
                return Stepped::Done;
            }
            Heard::Next(ask) => {
                acknowledge_response(peer, &meaning.view, out);
                ask_next(mids, &ask, out);
                return Stepped::Done;
            }
            Heard::Whole(params, body) => {
                return self.complete_fetch(
                    board,
                    peer,
                    &meaning.view,
                    params,
                    body.as_slice(),
                    out,
                );
            }
            Heard::Ended => {
                acknowledge_response(peer, &meaning.view, out);
                return Stepped::Done;
            }
            Heard::Starved => return Stepped::Starved,
        }
    }

    /// Handles a response (RFC 9176 section 5.1). Rejects or ignores one that belongs to no fetch,
    /// which does not allocate. Otherwise requests the next block, registers the whole body, or
    /// ends the fetch. `word` determines the initial timeout of a request. After `Starved`, nothing
    /// has been done.
    pub(crate) fn hear_response<B: Board>(
        &mut self,
        board: &mut B,
        word: u32,
        mids: &mut Mids,
        peer: Peer,
        view: &View<'_>,
        out: &mut Outbox,
    ) -> Stepped
        requires room { length out.old + 1 < most_datagrams }
        requires free { B.has_staged board.old ≡ false }
        requires told { AreToldOf self.old.version (B.told board.old) }
        ensures way { (rows : List Row) (s : Step)
            → s.peer ≡ peer
            → s.word ≡ word
            → UnderWay rows s (is_starved_step result) nothing self.old out.old mids.old
            → UnderWay rows s (is_starved_step result)
            (response_heard (is_starved_step result) rows s (message_in view.now)) self.new
            out.new mids.new }
        ensures unstarved { (rows : List Row) (s : Step)
            → s.peer ≡ peer
            → UnderWay rows s false nothing self.old out.old mids.old
            → response_takes rows s (message_in view.now) ≡ false
            → is_starved_step result ≡ false }
        ensures laid { IsLaid self.old.version self.new.version (B.staged board.old)
            (B.staged board.new) (B.has_staged board.new) }
        ensures name { B.name board.new ≡ B.name board.old }
        ensures told { B.told board.new ≡ B.told board.old }
    {
        let Some(meaning) = answered(&self.fetches, &peer, view) else {
            reject_strange(peer, view, out);
            return Stepped::Done;
        };
        self.hear_answer(board, word, mids, peer, &meaning, out)
    }
}
