//! Requests of fetches whose timeout has expired. Each is retransmitted, or its fetch ends (RFC
//! 7252 section 4.2, RFC 9176 section 5.1).
ghost use Rattle.std.specs.Prelude.{◌≡◌, ◌<◌, ◌≤◌, ◌+◌, ◌++◌, ◌∷◌, [], ℕ, Bool, List, Some};
ghost use Rattle.std.specs.Prelude.{length, slice_get};
ghost use Rattle.rd_base.specs.declared.peers.Peer.{Peer as Endpoint};
ghost use Rattle.coap_message.specs.PartialMessages.{longest_datagram};
ghost use Rattle.event_model.specs.declared.notes.Note.TheVariants as note;
ghost use Rattle.event_model.specs.Events.{Event};
ghost use Rattle.event_model.specs.Fetches as running;
ghost use Rattle.event_model.specs.Flights.{OctetsSent};
ghost use Rattle.journal_model.specs.declared.steps.Step.{Step};
ghost use Rattle.journal_model.specs.declared.rows.Row.{Row};
ghost use Rattle.journal_model.specs.Effects.{Effects, joined};
ghost use Rattle.journal_model.specs.Journal.{events};
ghost use Rattle.journal_model.specs.Rows.{row_moment};
ghost use Rattle.journal_model.specs.Ticks as ticks_of;
ghost use Rattle.simple_registration.specs.FetchEvents.{FetchesStandFor};
ghost use Rattle.coap_answers.specs.declared.mids.Mids.{Mids};
ghost use Rattle.coap_answers.specs.Outboxes.{most_datagrams};
ghost use Rattle.rd_desk.specs.parts.Noticing.{index_after};
ghost use Rattle.rd_desk.specs.parts.Resending.{LeavesFetches, Resending};
ghost use Rattle.rd_desk.specs.parts.UnderWay.{UnderWay};

use crate::Outbox;
use crate::tables::Tables;
use exchange_core::Again;
use simple_registration::Fetches;

/// Retransmits the last request of the fetch at an index.
fn send_request(fetches: &Fetches, index: usize, out: &mut Outbox)
    ensures some { (f : running.Fetch)
        → slice_get fetches.now.fetches index ≡ Some f
        → 0 < length f.waits.octets }
    ensures sent { (f : running.Fetch)
        → slice_get fetches.now.fetches index ≡ Some f
        → length out.old < most_datagrams
        → length f.waits.octets ≤ longest_datagram
        → out.new ≡ out.old ++ (f.peer, f.waits.octets) ∷ [] }
{
    let Some(peer) = fetches.at(index) else {
        return;
    };
    out.push_fitting(peer, fetches.sent(index));
}

/// Ends the fetch at an index.
fn end_fetch(fetches: &mut Fetches, index: usize)
    ensures { (octets : OctetsSent) (past : List Event) (peer : Endpoint) (e : Event)
        → slice_get (running.fetches past) index ≡ Some peer
        → e.note ≡ note.Ceased peer
        → FetchesStandFor octets past fetches.old
        → FetchesStandFor octets (e ∷ past) fetches.new }
{
    let Some(peer) = fetches.at(index) else {
        return;
    };
    fetches.end(&peer);
}

impl Tables {
    /// Does what is due of the fetch at an index: nothing, a retransmission of its request, or its
    /// end. Returns whether it continues.
    fn request_again(&mut self, index: usize, out: &mut Outbox) -> bool
        requires { index < length self.old.fetches.fetches }
        ensures { (rows : List Row) (s : Step) (starved : Bool) (first : Effects) (mids : Mids)
            (most less : ℕ)
            → most ≡ less + 1
            → Resending rows s starved first self.old out.old mids index most
            → Resending rows s starved first self.new out.new mids (index_after result index) less }
    {
        match self.fetches.timeout(self.moment, index) {
            Again::Wait => return true,
            Again::Send => {
                send_request(&self.fetches, index, out);
                return true;
            }
            Again::GaveUp => {
                end_fetch(&mut self.fetches, index);
                return false;
            }
        }
    }

    /// Does what is due of the fetch at an index, if there is one. Returns the index of the next.
    fn request_next(&mut self, index: usize, out: &mut Outbox) -> usize
        ensures { (rows : List Row) (s : Step) (starved : Bool) (first : Effects) (mids : Mids)
            (most less : ℕ)
            → most ≡ less + 1
            → Resending rows s starved first self.old out.old mids index most
            → Resending rows s starved first self.new out.new mids result less }
    {
        if index >= self.fetches.len() {
            return index;
        }
        if self.request_again(index, out) {
            return index + 1;
        }
        index
    }

    /// Does the third part of a tick: retransmits requests of fetches whose timeout has expired. A
    /// fetch ends after the last retransmission, or if a separate response did not come. Does not
    /// allocate.
    pub(crate) fn requests_again(&mut self, out: &mut Outbox)
        ensures { (rows : List Row) (s : Step) (starved : Bool) (done : Effects) (mids : Mids)
            → LeavesFetches rows s starved done
            → length done.sent + length (running.fetches (events rows)) ≤ most_datagrams
            → UnderWay rows s starved done self.old out.old mids
            → UnderWay rows s starved (joined done
            (ticks_of.requests_again rows (row_moment rows s))) self.new out.new mids }
    {
        let count = self.fetches.len();
        let mut index = 0;
        'fetches: for step in 0..count {
            index = self.request_next(index, out);
        }
    }
}
