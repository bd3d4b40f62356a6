//! Sending the datagrams that come out of a call of the seat.
ghost use Rattle.std.specs.Prelude.{◌≡◌, ◌+◌, ◌^◌, ◌∷◌, [], List};
ghost use Rattle.udp_link.specs.declared.links.Went.{Went};
ghost use Rattle.coap_answers.specs.Outboxes.{most_datagrams};
ghost use Rattle.rd_server.specs.serving.Sendings.{Sending, all_sent};
ghost use Rattle.rd_server.specs.serving.Calls.{one_if};
ghost use Rattle.rd_server.specs.serving.Workers.{Sends, link_seen};
ghost use Rattle.rd_server.specs.serving.Sums.{CountsSendings, GrowsBy, HasRoom, IsBelow};

use crate::serving::served::Served;
use rd_base::Peer;
use rd_desk::Outbox;
use udp_link::{Link, Went};

/// Sends one datagram, and counts it as sent or lost.
fn send_one<L: Link>(link: &mut L, peer: Peer, datagram: &[u8], served: &mut Served)
    requires { IsBelow (10 ^ 18) served.old }
    ensures { (went : Went)
        × Sends (((peer, datagram.now), went) ∷ [])
        (link_seen L.Link.own link.old) (link_seen L.Link.own link.new)
        × CountsSendings (((peer, datagram.now), went) ∷ []) 0 served.old served.new }
{
    match link.send(peer, datagram) {
        Went::Sent => served.sent += 1,
        Went::Failed => served.lost += 1,
    }
}

/// Sends all datagrams that came out, in order.
fn send_all<L: Link>(link: &mut L, out: &Outbox, served: &mut Served)
    requires { IsBelow (10 ^ 17 + 1) served.old }
    ensures sends { (sendings : List Sending) × (all_sent sendings ≡ out.now)
        × Sends sendings (link_seen L.Link.own link.old) (link_seen L.Link.own link.new)
        × CountsSendings sendings 0 served.old served.new }
    ensures grows { GrowsBy most_datagrams served.old served.new }
{
    let mut index = 0;
    'datagrams: while index < out.len() {
        let Some((peer, datagram)) = out.at(index) else {
            unreachable!()
        };
        send_one(link, peer, datagram, served);
        index += 1;
    }
}

/// Counts whether a call of the seat ran out of memory, sends all datagrams that came out of it,
/// and empties the outbox.
pub(crate) fn finish<L: Link>(link: &mut L, starved: bool, out: &mut Outbox, served: &mut Served)
    requires { HasRoom served.old }
    ensures sends { (sendings : List Sending) × (all_sent sendings ≡ out.old)
        × Sends sendings (link_seen L.Link.own link.old) (link_seen L.Link.own link.new)
        × CountsSendings sendings (one_if starved) served.old served.new }
    ensures empty { out.new ≡ [] }
    ensures grows { GrowsBy (most_datagrams + 1) served.old served.new }
{
    served.starved += u64::from(starved);
    send_all(link, out, served);
    out.clear();
}
