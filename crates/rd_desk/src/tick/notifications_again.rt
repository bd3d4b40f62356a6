//! Notifications in flight whose timeout has expired. Each is retransmitted, or its observer is
//! removed (RFC 7252 section 4.2, RFC 7641 section 4.5).
ghost use Rattle.std.specs.Prelude.{◌≡◌, ◌<◌, ◌≤◌, ◌+◌, ◌++◌, ◌∷◌, [], ℕ, Bool, List, Some};
ghost use Rattle.std.specs.Prelude.{length, slice_get, drop};
ghost use Rattle.rd_base.specs.declared.peers.Peer.{Peer as Endpoint};
ghost use Rattle.coap_message.specs.PartialMessages.{longest_datagram};
ghost use Rattle.event_model.specs.Flights.{Sent as Message};
ghost use Rattle.journal_model.specs.declared.steps.Step.{Step};
ghost use Rattle.journal_model.specs.declared.rows.Row.{Row};
ghost use Rattle.journal_model.specs.Effects.{Effects, nothing, joined};
ghost use Rattle.journal_model.specs.Rows.{row_moment};
ghost use Rattle.journal_model.specs.Ticks as ticks_of;
ghost use Rattle.observers.specs.Standing.{Standing};
ghost use Rattle.coap_answers.specs.declared.mids.Mids.{Mids};
ghost use Rattle.coap_answers.specs.Outboxes.{most_datagrams};
ghost use Rattle.rd_desk.specs.parts.Noticing.{again_done, index_after};
ghost use Rattle.rd_desk.specs.parts.UnderWay.{UnderWay};

use crate::Outbox;
use crate::tables::Tables;
use exchange_core::Again;
use observation::Watching;

/// Retransmits the notification in flight to the observer with an index.
fn send_notification(watching: &Watching, index: usize, out: &mut Outbox)
    ensures { (x : Standing) (sent : Message)
        → slice_get watching.now.observers index ≡ Some x
        → x.flight ≡ Some sent
        → length out.old < most_datagrams
        → length sent.octets ≤ longest_datagram
        → out.new ≡ out.old ++ (x.peer, sent.octets) ∷ [] }
{
    let Some(observer) = watching.at(index) else {
        return;
    };
    let Some(sent) = &observer.flight else {
        return;
    };
    out.push_fitting(observer.peer, sent.bytes.as_slice());
}

impl Tables {
    /// Does what is due of the notification in flight to the observer with an index: nothing, a
    /// retransmission, or the removal of its observer. Returns whether the observer stays.
    fn notification_again(&mut self, index: usize, out: &mut Outbox) -> bool
        requires { index < length self.old.watching.observers }
        ensures way { (rows : List Row) (s : Step) (starved : Bool) (done : Effects) (mids : Mids)
            (x : Standing)
            → slice_get self.old.watching.observers index ≡ Some x
            → length out.old < most_datagrams
            → ((sent : Message) → x.flight ≡ Some sent → length sent.octets ≤ longest_datagram)
            → UnderWay rows s starved done self.old out.old mids
            → UnderWay rows s starved (joined done (again_done self.old.moment x)) self.new out.new
            mids }
        ensures rest { drop (index_after result index) self.new.watching.observers
            ≡ drop (index + 1) self.old.watching.observers }
        ensures moment { self.new.moment ≡ self.old.moment }
    {
        match self.watching.timeout(self.moment, index) {
            Again::Wait => return true,
            Again::Send => {
                send_notification(&self.watching, index, out);
                return true;
            }
            Again::GaveUp => {
                self.watching.timed_out(index);
                return false;
            }
        }
    }

    /// Does the first part of a tick: retransmits notifications in flight whose timeout has
    /// expired, and removes their observers after the last retransmission. Does not allocate.
    pub(crate) fn notifications_again(&mut self, out: &mut Outbox)
        ensures { (rows : List Row) (s : Step) (starved : Bool) (mids : Mids)
            → UnderWay rows s starved nothing self.old out.old mids
            → UnderWay rows s starved (ticks_of.notifications_again rows (row_moment rows s))
            self.new
            out.new mids }
    {
        let mut index = 0;
        'observers: while index < self.watching.len() {
            if self.notification_again(index, out) {
                index += 1;
            }
        }
    }
}
