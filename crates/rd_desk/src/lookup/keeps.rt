//! Listings and sources that looks built, kept for their later blocks (RFC 7959 section 2.4).
ghost use Rattle.std.specs.Prelude.{◌≡◌, ◌<◌, ◌≤◌, ◌^◌, ℕ, [], ◌∷◌, List, length, IfOk};
ghost use Rattle.std.specs.Arc.{arc_value};
ghost use Rattle.message_model.specs.Reading.{reading};
ghost use Rattle.message_model.specs.RequestKey.{key_in};
ghost use Rattle.event_model.specs.declared.notes.Note.TheVariants as note;
ghost use Rattle.event_model.specs.Events.{Event, noted};
ghost use Rattle.journal_model.specs.declared.steps.Step.{Step};
ghost use Rattle.journal_model.specs.declared.rows.Row.{Row};
ghost use Rattle.journal_model.specs.Effects.{nothing};
ghost use Rattle.journal_model.specs.declared.steps.StepKind.TheVariants as step;
ghost use Rattle.journal_model.specs.Rows.{kept_body, row};
ghost use Rattle.transfers.specs.TransferEvents.{AnswersStandFor};
ghost use Rattle.coap_answers.specs.Outboxes.{most_datagrams};
ghost use Rattle.rd_request.specs.Accepted.{message_of};
ghost use Rattle.rd_desk.specs.calls.Stepping.{is_starved_step};
ghost use Rattle.rd_desk.specs.parts.UnderWay.{UnderWay};
ghost use Rattle.rd_desk.specs.calls.Steps.{IsCalled, Made};

use crate::tables::Tables;
use crate::{KeepJob, Mids, Outbox, Stepped};
use coap_answers::answer_starved;
use coap_options::request_key;
use rd_base::{Bytes, Moment, Peer, Starved, Tag};
use rd_look::send_block;
use rd_request::Request;
use std::alloc::Global;
use std::sync::Arc;
use transfers::{Answer, Answers, Ready, Transfers};

/// Returns the kept answers with a listing or a source after them, under the peer and the key of
/// its request. The body is shared.
pub(crate) fn with_listing(
    transfers: &Transfers,
    alloc: Global,
    now: Moment,
    peer: Peer,
    request: &Request<'_>,
    body: &Arc<Bytes>,
    tag: Tag,
) -> Result<Ready, Starved>
    ensures { IfOk result (λ ready. (events : List Event) (place word : ℕ)
        → AnswersStandFor events transfers.now.answers
        → AnswersStandFor (noted place now.0 word
        (note.Kept peer (key_in (message_of request.now)) (arc_value body.now) tag.0 ∷ [])
        events) ready) }
{
    let key = request_key(alloc, &request.meaning)?;
    let body = Arc::try_clone(body)?;
    let mut answers = Vec::new(alloc);
    answers.push(Answer {
        peer,
        key,
        body,
        tag,
    })?;
    transfers.ready(alloc, now, Answers::of(answers))
}

impl Tables {
    /// Keeps a listing or a source under its tag, and sends the block of it that the look
    /// requested. Everything that allocates comes before anything changes.
    fn keep_listing(&mut self, mids: &mut Mids, job: KeepJob, out: &mut Outbox) -> Stepped
        requires room { length out.old < most_datagrams }
        ensures way { (rows : List Row) (s : Step)
            → s.peer ≡ job.peer
            → UnderWay rows s (is_starved_step result) nothing self.old out.old mids.old
            → UnderWay rows s (is_starved_step result)
            (kept_body (is_starved_step result) s (reading job.datagram) job.answer.body
            job.answer.tag) self.new out.new mids.new }
    {
        let request = job.request();
        let view = &request.meaning.view;
        let ready = with_listing(
            &self.transfers,
            self.alloc,
            self.moment,
            job.peer,
            &request,
            &job.body,
            job.tag,
        );
        let Ok(ready) = ready else {
            answer_starved(mids, job.peer, view, out);
            return Stepped::Starved;
        };
        send_block(
            mids,
            job.peer,
            &request,
            Some(job.tag),
            None,
            job.body.as_slice(),
            out,
        );
        self.transfers.adopt(ready);
        Stepped::Done
    }

    /// Does the step of a job to keep a listing or a source. `now` is at most 10^15 milliseconds;
    /// one earlier than the tables' moment is raised to it. `out` is empty.
    pub(crate) fn keep(
        &mut self,
        now: Moment,
        mids: &mut Mids,
        job: KeepJob,
        out: &mut Outbox,
    ) -> Stepped
        requires moment { now.0 ≤ 10 ^ 15 }
        requires empty { out.old ≡ [] }
        ensures made { (rows : List Row) (s : Step)
            → s.kind ≡ step.Keep job.answer.body job.answer.tag
            → s.peer ≡ job.peer
            → s.datagram ≡ job.datagram
            → IsCalled rows s now mids.old self.old
            → Made rows (row rows s (is_starved_step result)) self.new out.new mids.old mids.new }
    {
        self.pass(now);
        self.keep_listing(mids, job, out)
    }
}
