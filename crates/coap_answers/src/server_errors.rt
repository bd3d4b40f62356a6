//! Answers to requests that the server cannot serve now (RFC 7252 section 5.9.3).
ghost use Rattle.std.specs.Prelude.{◌≡◌, ◌<◌, ◌≤◌, [], length};
ghost use Rattle.message_model.specs.Codes as codes_of;
ghost use Rattle.coap_message.specs.Views.{message_in};
ghost use Rattle.journal_model.specs.declared.steps.Step.{Step};
ghost use Rattle.journal_model.specs.Effects as effects;
ghost use Rattle.journal_model.specs.Effects.{answering, without_memory};
ghost use Rattle.coap_answers.specs.Outboxes.{most_datagrams};
ghost use Rattle.coap_answers.specs.Replies.{IsReply, reply_said};
ghost use Rattle.coap_answers.specs.Sendings.{IsStepOf, Sends};

use crate::replies::{Reply, answer};
use crate::{Mids, Outbox};
use coap_message::View;
use message_model::codes::{INTERNAL_SERVER_ERROR, SERVICE_UNAVAILABLE};
use rd_base::Peer;

/// Returns 5.00 without payload.
pub fn internal_server_error() -> Reply<'static>
    ensures said { reply_said result ≡ effects.bare codes_of.internal_server_error }
    ensures reply { IsReply result }
{
    Reply::plain(INTERNAL_SERVER_ERROR, b"")
}

/// Returns 5.03 with a diagnostic payload that names what is full.
fn service_unavailable(diagnostic: &'static [u8]) -> Reply<'static>
    requires { length diagnostic.now ≤ 1_024 }
    ensures said { reply_said result
        ≡ effects.diagnostic codes_of.service_unavailable diagnostic.now }
    ensures reply { IsReply result }
{
    Reply::plain(SERVICE_UNAVAILABLE, diagnostic)
}

/// Answers 5.00 to a request, because memory ran out.
///
/// # Requires
///
/// `out` has room for one more datagram.
pub fn answer_starved(mids: &mut Mids, peer: Peer, view: &View<'_>, out: &mut Outbox)
    requires room { length out.old < most_datagrams }
    ensures sends { (s : Step)
        → IsStepOf s peer mids.old
        → Sends (without_memory s (message_in view.now)) out.old out.new mids.old mids.new }
{
    answer(mids, peer, view, &internal_server_error(), out);
}

/// Answers 5.03 to a request, because there is no room for one more of what the diagnostic payload
/// names.
///
/// # Requires
///
/// `diagnostic` has at most 1,024 octets, and `out` has room for one more datagram.
pub fn answer_full(
    mids: &mut Mids,
    peer: Peer,
    view: &View<'_>,
    diagnostic: &'static [u8],
    out: &mut Outbox,
)
    requires brief { length diagnostic.now ≤ 1_024 }
    requires room { length out.old < most_datagrams }
    ensures sends { (s : Step)
        → IsStepOf s peer mids.old
        → Sends (answering s (message_in view.now)
        (effects.diagnostic codes_of.service_unavailable diagnostic.now) []) out.old out.new
        mids.old mids.new }
{
    answer(mids, peer, view, &service_unavailable(diagnostic), out);
}
