//! Admitted writes that are settled by their answers, or that fail (RFC 7252 sections 4.2 and 4.5).
ghost use Rattle.std.specs.Prelude.{◌≡◌, ◌^◌, ◌<◌, ℕ, Bool, List, length};
ghost use Rattle.std.specs.Option.{ForSome};
ghost use Rattle.coap_message.specs.Views.{message_in};
ghost use Rattle.message_model.specs.Spelling.{spelling};
ghost use Rattle.event_model.specs.declared.notes.Note.{Note};
ghost use Rattle.event_model.specs.AdmissionOrder.{IsOpen};
ghost use Rattle.journal_model.specs.declared.steps.Step.{Step};
ghost use Rattle.journal_model.specs.declared.rows.Row.{Row};
ghost use Rattle.journal_model.specs.Effects as effects;
ghost use Rattle.journal_model.specs.Effects.{Effects, nothing, joined, answering};
ghost use Rattle.journal_model.specs.Journal.{events};
ghost use Rattle.journal_model.specs.UnfinishedRow.{making};
ghost use Rattle.coap_answers.specs.Outboxes.{most_datagrams};
ghost use Rattle.coap_answers.specs.Sendings.{IsStepOf, Sends};
ghost use Rattle.rd_request.specs.Accepted.{message_of};
ghost use Rattle.rd_desk.specs.parts.Committing.{answering_settled, failing};
ghost use Rattle.rd_desk.specs.parts.Replies.{short_said};
ghost use Rattle.rd_desk.specs.parts.UnderWay.{UnderWay};

use crate::tables::Tables;
use crate::write::asked::Write;
use crate::write::short_replies::ShortReply;
use crate::{Mids, Outbox};
use coap_answers::{Reply, answer, internal_server_error};
use coap_message::View;
use exchange_core::Octets;
use rd_base::Peer;

/// Sends the answer to a write. Returns its octets, which are kept for duplicates.
pub(crate) fn answer_short(
    mids: &mut Mids,
    peer: Peer,
    view: &View<'_>,
    reply: &ShortReply,
    out: &mut Outbox,
) -> exchange_core::Reply
    requires room { length out.old < most_datagrams }
    ensures sends { (s : Step) (notes : List Note)
        → IsStepOf s peer mids.old
        → Sends (answering s (message_in view.now) (short_said reply.now) notes) out.old out.new
        mids.old mids.new }
    ensures octets { (s : Step)
        → IsStepOf s peer mids.old
        → result ≡ spelling (effects.answer s (message_in view.now) (short_said reply.now)) }
{
    let said = Reply {
        code: reply.code,
        tag: None,
        observe: None,
        location: reply.location,
        format: false,
        block2: None,
        block1: reply.block1,
        payload: reply.diagnostic,
    };
    answer(mids, peer, view, &said, out);
    Octets::of(out.last())
}

impl Tables {
    /// Answers an admitted write and settles it by the answer, so that a duplicate gets the same
    /// octets. Does not allocate.
    pub(crate) fn settle(
        &mut self,
        mids: &mut Mids,
        write: &Write<'_>,
        reply: &ShortReply,
        out: &mut Outbox,
    )
        requires room { length out.old < most_datagrams }
        ensures way { (rows : List Row) (s : Step) (starved : Bool) (done : Effects) (place : ℕ)
            → s.peer ≡ write.now.peer
            → done.drew ≡ 0
            → IsOpen place write.now.peer (message_of write.now.request).mid
            write.now.admitted.0 (events (making rows s starved done))
            → UnderWay rows s starved done self.old out.old mids.old
            → UnderWay rows s starved (joined done
            (answering_settled place s (message_of write.now.request) (short_said reply.now)))
            self.new out.new mids.new }
        ensures version { self.new.version ≡ self.old.version }
    {
        let view = &write.request.meaning.view;
        let octets = answer_short(mids, write.peer, view, reply, out);
        self.exchanges
            .settle(write.peer, view.mid, write.admitted, octets);
    }

    /// Answers 5.00 to an admitted write for which memory ran out, and forgets it, so that it may
    /// come again as a new one. Does not allocate.
    pub(crate) fn fail(&mut self, mids: &mut Mids, write: &Write<'_>, out: &mut Outbox)
        requires room { length out.old < most_datagrams }
        ensures way { (rows : List Row) (s : Step) (starved : Bool) (place : ℕ)
            → s.peer ≡ write.now.peer
            → IsOpen place write.now.peer (message_of write.now.request).mid
            write.now.admitted.0 (events rows)
            → UnderWay rows s starved nothing self.old out.old mids.old
            → UnderWay rows s starved (failing place s (message_of write.now.request)) self.new
            out.new
            mids.new }
        ensures version { self.new.version ≡ self.old.version }
    {
        let view = &write.request.meaning.view;
        answer(mids, write.peer, view, &internal_server_error(), out);
        self.exchanges.forget(write.peer, view.mid, write.admitted);
    }
}
