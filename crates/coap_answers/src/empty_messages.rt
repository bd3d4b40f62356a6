//! Messages without code, token, options and payload (RFC 7252 section 4.1).
ghost use Rattle.std.specs.Prelude.{◌≡◌, ◌<◌, [], ◌∷◌, ◌++◌, length};
ghost use Rattle.message_model.specs.Spelling.{spelling};
ghost use Rattle.journal_model.specs.declared.steps.Step.{Step};
ghost use Rattle.journal_model.specs.Effects as effects;
ghost use Rattle.journal_model.specs.Effects.{sending};
ghost use Rattle.coap_answers.specs.declared.mids.Mids.{Mids};
ghost use Rattle.coap_answers.specs.Outboxes.{most_datagrams};
ghost use Rattle.coap_answers.specs.Sendings.{Sends};

use crate::{Datagram, Outbox};
use coap_message::{Kind4, TokenRef};
use rd_base::Peer;

/// Sends an empty message of this type: a Reset, as for a ping, or an acknowledgement (RFC 7252
/// sections 4.2 and 4.3).
///
/// # Requires
///
/// `out` has room for one more datagram.
pub fn send_empty(peer: Peer, kind: Kind4, mid: u16, out: &mut Outbox)
    requires { length out.old < most_datagrams }
    ensures sent { out.new ≡ out.old ++ (peer, spelling (effects.empty_message kind mid)) ∷ [] }
    ensures sends { (s : Step) (mids : Mids)
        → s.peer ≡ peer
        → Sends (sending s.peer (spelling (effects.empty_message kind mid))) out.old out.new mids
        mids }
{
    out.writer.restart(kind, 0, mid, TokenRef { octets: b"" });
    let Ok(datagram) = out.writer.finish(b"") else {
        unreachable!()
    };
    out.datagrams.push(peer, Datagram { octets: datagram });
}
