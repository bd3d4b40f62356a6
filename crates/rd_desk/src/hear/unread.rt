//! Datagrams that are not messages (RFC 7252 sections 3 and 4.2).
ghost use Rattle.std.specs.Prelude.{◌≡◌, ◌<◌, length};
ghost use Rattle.journal_model.specs.declared.steps.Step.{Step};
ghost use Rattle.journal_model.specs.Rows.{unread_answered};
ghost use Rattle.coap_answers.specs.declared.mids.Mids.{Mids};
ghost use Rattle.coap_answers.specs.Outboxes.{most_datagrams};
ghost use Rattle.coap_answers.specs.Sendings.{Sends};

use crate::Outbox;
use coap_answers::send_empty;
use coap_message::{Kind4, Unread};
use rd_base::Peer;

/// Rejects a confirmable message with a format error by a Reset. Ignores anything else that is not
/// a message.
pub(crate) fn reject(peer: Peer, fault: Unread, out: &mut Outbox)
    requires { length out.old < most_datagrams }
    ensures { (s : Step) (mids : Mids)
        → s.peer ≡ peer
        → Sends (unread_answered s fault) out.old out.new mids mids }
{
    match fault {
        Unread::Format(Kind4::Con, mid) => {
            send_empty(peer, Kind4::Rst, mid, out);
            return;
        }
        Unread::Format(Kind4::Non, _) => return,
        Unread::Format(Kind4::Ack, _) => return,
        Unread::Format(Kind4::Rst, _) => return,
        Unread::Short => return,
        Unread::Version => return,
    }
}
