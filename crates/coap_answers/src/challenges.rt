//! Challenges: 4.01 with a value that the client is to return (RFC 9175 section 2.3).
ghost use Rattle.std.specs.Prelude.{◌≡◌, ◌+◌, ◌<◌, ◌≤◌, [], List, length};
ghost use Rattle.message_model.specs.Codes as codes_of;
ghost use Rattle.message_model.specs.Message.{end_number};
ghost use Rattle.message_model.specs.OptionTable as table;
ghost use Rattle.message_model.specs.Spelling.{spelling};
ghost use Rattle.coap_message.specs.PartialMessages.{with_last_option};
ghost use Rattle.coap_message.specs.Views.{message_in};
ghost use Rattle.event_model.specs.declared.notes.Note.{Note};
ghost use Rattle.journal_model.specs.declared.steps.Step.{Step};
ghost use Rattle.journal_model.specs.Effects as effects;
ghost use Rattle.journal_model.specs.Effects.{answering};
ghost use Rattle.journal_model.specs.Writes.{challenge};
ghost use Rattle.coap_answers.specs.Outboxes.{most_datagrams};
ghost use Rattle.coap_answers.specs.Replies.{IsReply, reply_said};
ghost use Rattle.coap_answers.specs.Sendings.{IsStepOf, Sends};

use crate::replies::{Reply, begin_answer};
use crate::{Datagram, Mids, Outbox};
use coap_message::{View, Writer};
use message_model::codes::UNAUTHORIZED;
use message_model::options::ECHO;
use rd_base::Peer;

/// Returns 4.01 without payload.
fn unauthorized() -> Reply<'static>
    ensures said { reply_said result ≡ effects.bare codes_of.unauthorized }
    ensures reply { IsReply result }
{
    Reply::plain(UNAUTHORIZED, b"")
}

/// Appends Echo with the value that the client is to return (RFC 9175 section 2.2.1).
fn put_echo(writer: &mut Writer, value: &[u8])
    requires filled { codes_of.empty < writer.old.code }
    requires open_end { writer.old.payload ≡ [] }
    requires ascends { end_number 0 writer.old.options ≤ table.echo }
    requires value { length value.now ≤ 40 }
    requires room { length (spelling writer.old) ≤ 200 }
    ensures put { writer.new ≡ with_last_option writer.old (table.echo, value.now) }
    ensures size { length (spelling writer.new) ≤ length (spelling writer.old) + 45 }
{
    let Ok(()) = writer.option(ECHO, value) else {
        unreachable!()
    };
}

/// Answers 4.01 to a request. The client is to send the request again with this value (RFC 9175
/// section 2.3).
///
/// # Requires
///
/// `out` has room for one more datagram.
pub fn answer_challenge(
    mids: &mut Mids,
    peer: Peer,
    view: &View<'_>,
    value: [u8; 8],
    out: &mut Outbox,
)
    requires room { length out.old < most_datagrams }
    ensures sends { (s : Step) (notes : List Note)
        → IsStepOf s peer mids.old
        → Sends (answering s (message_in view.now) (challenge value) notes) out.old out.new
        mids.old mids.new }
{
    begin_answer(&mut out.writer, mids, view, &unauthorized());
    put_echo(&mut out.writer, &value);
    let Ok(datagram) = out.writer.finish(b"") else {
        unreachable!()
    };
    out.datagrams.push(peer, Datagram { octets: datagram });
}
