//! Empty acknowledgements and Resets (RFC 7252 section 4.2, RFC 7641 section 3.6).
ghost use Rattle.std.specs.Prelude.{◌≡◌, ℕ, Bool, List};
ghost use Rattle.rd_base.specs.declared.peers.Peer.{Peer};
ghost use Rattle.journal_model.specs.declared.steps.Step.{Step};
ghost use Rattle.journal_model.specs.declared.rows.Row.{Row};
ghost use Rattle.journal_model.specs.Effects.{nothing};
ghost use Rattle.journal_model.specs.EmptyMessages as empties;
ghost use Rattle.journal_model.specs.Journal.{events};
ghost use Rattle.coap_answers.specs.declared.mids.Mids.{Mids};
ghost use Rattle.rd_desk.specs.parts.UnderWay.{UnderWay};

use crate::tables::Tables;
use rd_base::Peer;

impl Tables {
    /// Records that a peer acknowledged the message with this Message ID, without a response. A
    /// notification is no longer in flight, or the fetch waits for a separate response. Does not
    /// allocate.
    pub(crate) fn acknowledge(&mut self, peer: Peer, mid: u16)
        ensures way { (rows : List Row) (s : Step) (starved : Bool) (out : List (Peer
            × List ℕ)) (mids : Mids)
            → s.peer ≡ peer
            → UnderWay rows s starved nothing self.old out mids
            → UnderWay rows s starved (empties.acknowledged s.peer mid (events rows)) self.new out
            mids }
        ensures version { self.new.version ≡ self.old.version }
    {
        let _landed = self.watching.acked(&peer, mid);
        let _waits = self.fetches.acked(&peer, mid);
    }

    /// Handles a Reset of the message with this Message ID. Removes the observer if it is a
    /// notification to it, or ends the fetch. Does not allocate.
    pub(crate) fn reset(&mut self, peer: Peer, mid: u16)
        ensures way { (rows : List Row) (s : Step) (starved : Bool) (out : List (Peer
            × List ℕ)) (mids : Mids)
            → s.peer ≡ peer
            → UnderWay rows s starved nothing self.old out mids
            → UnderWay rows s starved (empties.reset s.peer mid (events rows)) self.new out mids }
        ensures version { self.new.version ≡ self.old.version }
    {
        let _removed = self.watching.reset(&peer, mid);
        let _ended = self.fetches.reset(&peer, mid);
    }
}
