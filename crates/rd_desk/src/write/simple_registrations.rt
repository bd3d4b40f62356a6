//! Simple registrations. The directory answers, and then fetches the device's links itself (RFC
//! 9176 section 5.1).
ghost use Rattle.std.specs.Prelude.{◌≡◌, ◌<◌, ◌+◌, ℕ, Bool, [], ◌∷◌, ◌++◌, List, length, None};
ghost use Rattle.message_model.specs.Codes as codes_of;
ghost use Rattle.event_model.specs.AdmissionOrder.{IsOpen};
ghost use Rattle.journal_model.specs.declared.steps.Step.{Step};
ghost use Rattle.journal_model.specs.declared.rows.Row.{Row};
ghost use Rattle.journal_model.specs.Commits.{settling, registering_simply};
ghost use Rattle.journal_model.specs.Effects as effects;
ghost use Rattle.journal_model.specs.Effects.{nothing};
ghost use Rattle.journal_model.specs.Journal.{events};
ghost use Rattle.simple_registration.specs.Table.{Table};
ghost use Rattle.coap_answers.specs.Outboxes.{most_datagrams};
ghost use Rattle.rd_request.specs.Accepted.{message_of};
ghost use Rattle.rd_desk.specs.parts.Committing.{unless_failing};
ghost use Rattle.rd_desk.specs.calls.Stepping.{is_starved_step};
ghost use Rattle.rd_desk.specs.parts.UnderWay.{UnderWay};

use crate::hear::responses::ask_next;
use crate::tables::Tables;
use crate::write::asked::{RegisteringSimply, Write};
use crate::write::settling::answer_short;
use crate::write::short_replies::ShortReply;
use crate::{Mids, Outbox, Stepped};
use coap_message::Kind4;
use message_model::codes::{CHANGED, SERVICE_UNAVAILABLE};
use rd_request::{Request, given_params};
use simple_registration::{AllowedParams, StartFault};

/// Returns the number of Message IDs that the answer to a request of this type draws.
fn drawn_for(kind: Kind4) -> u64
    ensures { result ≡ effects.drawn_for kind }
{
    match kind {
        Kind4::Con => 0,
        Kind4::Non | Kind4::Ack | Kind4::Rst => 1,
    }
}

impl Tables {
    /// Sends the 2.04 and settles the write by it, after its fetch has started. Does not change the
    /// table of fetches.
    fn settle_beside_fetch(&mut self, mids: &mut Mids, write: &Write<'_>, out: &mut Outbox)
        requires room { length out.old < most_datagrams }
        ensures way { (fetches : Table) (rows : List Row) (s : Step) (starved : Bool) (place : ℕ)
            → s.peer ≡ write.now.peer
            → IsOpen place write.now.peer (message_of write.now.request).mid
            write.now.admitted.0 (events rows)
            → UnderWay rows s starved nothing (record self.old { fetches = fetches }) out.old
            mids.old
            → UnderWay rows s starved (settling place s (message_of write.now.request)
            (record { reply = effects.bare codes_of.changed; notes = [] }))
            (record self.new { fetches = fetches }) out.new mids.new }
        ensures fetches { self.new.fetches ≡ self.old.fetches }
        ensures one { length out.new ≡ length out.old + 1 }
        ensures version { self.new.version ≡ self.old.version }
    {
        let changed = ShortReply::plain(CHANGED, b"");
        let view = &write.request.meaning.view;
        let octets = answer_short(mids, write.peer, view, &changed, out);
        self.exchanges
            .settle(write.peer, view.mid, write.admitted, octets);
    }

    /// Does an admitted simple registration: answers it, and then starts a fetch of the device's
    /// links (RFC 9176 section 5.1). Refuses it if a fetch for its peer is running, or if the table
    /// of fetches is full. `word` determines the initial timeout. Everything that allocates comes
    /// before anything is sent. If memory runs out, the write fails.
    pub(crate) fn commit_simple(
        &mut self,
        word: u32,
        mids: &mut Mids,
        registering: &RegisteringSimply<'_>,
        out: &mut Outbox,
    ) -> Stepped
        requires room { length out.old + 1 < most_datagrams }
        ensures way { (rows : List Row) (s : Step) (place : ℕ)
            → s.peer ≡ registering.now.write.peer
            → s.word ≡ word
            → IsOpen place s.peer (message_of registering.now.write.request).mid
            registering.now.write.admitted.0 (events rows)
            → UnderWay rows s (is_starved_step result) nothing self.old out.old mids.old
            → UnderWay rows s (is_starved_step result)
            (unless_failing (is_starved_step result) place s
            (message_of registering.now.write.request)
            (registering_simply (events rows) place s
            (message_of registering.now.write.request))) self.new out.new mids.new }
        ensures version { self.new.version ≡ self.old.version }
    {
        let write = &registering.write;
        let Ok(params) = given_params(self.alloc, &write.request.meaning) else {
            self.fail(mids, write, out);
            return Stepped::Starved;
        };
        let params = AllowedParams::of(params);
        let mid = mids.after(drawn_for(write.request.meaning.view.kind));
        match self
            .fetches
            .start(self.alloc, self.moment, word, mid, write.peer, params)
        {
            Ok(ask) => {
                self.settle_beside_fetch(mids, write, out);
                ask_next(mids, &ask, out);
                return Stepped::Done;
            }
            Err(StartFault::Fetching(_)) => {
                self.refuse_write(mids, write, SERVICE_UNAVAILABLE, b"fetching", out);
                return Stepped::Done;
            }
            Err(StartFault::FullFetches) => {
                self.refuse_write(mids, write, SERVICE_UNAVAILABLE, b"fetches", out);
                return Stepped::Done;
            }
            Err(StartFault::Starved) => {
                self.fail(mids, write, out);
                return Stepped::Starved;
            }
        }
    }
}
