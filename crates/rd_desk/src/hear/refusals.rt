//! Answers to requests that are refused by their content alone (RFC 7252 sections 5.4.1 and
//! 5.5.2).
ghost use Rattle.std.specs.Prelude.{◌≡◌, ◌<◌, length};
ghost use Rattle.message_model.specs.OptionTable.{first_bad_option};
ghost use Rattle.coap_message.specs.Views.{message_in};
ghost use Rattle.journal_model.specs.declared.steps.Step.{Step};
ghost use Rattle.journal_model.specs.Rows.{refusal_answered};
ghost use Rattle.coap_answers.specs.Outboxes.{most_datagrams};
ghost use Rattle.coap_answers.specs.Replies.{IsReply, reply_said};
ghost use Rattle.coap_answers.specs.Sendings.{IsStepOf, Sends};
ghost use Rattle.rd_request.specs.Asking.{refused_with, IsRefusedBy, is_passed_over};

use crate::{Mids, Outbox};
use coap_answers::{Reply, answer, refusal_code, refusal_diagnostic};
use coap_message::{Kind4, View};
use coap_options::Refusal;
use rd_base::Peer;
use rd_request::Refused;

/// Returns the response for a refusal.
fn reply_to(refused: Refused) -> Reply<'static>
    ensures said { reply_said result ≡ refused_with refused }
    ensures reply { IsReply result }
{
    match refused {
        Refused::Request(refusal) => Reply::plain(
            refusal_code(refusal),
            refusal_diagnostic(refusal),
        ),
        Refused::Query => Reply::plain(128, b"query"),
        Refused::Payload => Reply::plain(128, b"payload"),
    }
}

/// Returns whether a refused request is ignored. It is if its message is non-confirmable and has an
/// unrecognized critical option (RFC 7252 section 5.4.1).
fn is_passed_over(kind: Kind4, refused: &Refused) -> bool
    ensures { result ≡ is_passed_over kind refused.now }
{
    match refused {
        Refused::Request(Refusal::BadOption(_)) => kind == Kind4::Non,
        Refused::Request(_) | Refused::Query | Refused::Payload => false,
    }
}

/// Answers a request that is refused by its content alone, unless it is ignored.
pub(crate) fn refuse(
    mids: &mut Mids,
    peer: Peer,
    view: &View<'_>,
    refused: Refused,
    out: &mut Outbox,
)
    requires refused { IsRefusedBy refused (message_in view.now) }
    requires room { length out.old < most_datagrams }
    ensures sends { (s : Step)
        → IsStepOf s peer mids.old
        → Sends (refusal_answered view.now.kind (first_bad_option (message_in view.now).options) s
        (message_in view.now) (refused_with refused)) out.old out.new mids.old mids.new }
{
    if is_passed_over(view.kind, &refused) {
        return;
    }
    answer(mids, peer, view, &reply_to(refused), out);
}
