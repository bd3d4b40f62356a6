//! An admitted write, and the answers to its duplicates.
ghost use Rattle.std.specs.Prelude.{◌≡◌, ◌<◌, Option};
ghost use Rattle.event_model.specs.Events.{is_young};
ghost use Rattle.exchange_core.specs.Table.{admitted_now, is_with, is_admitted_at, is_sought};
ghost use Rattle.exchange_core.specs.Table.{repeating, answered};
ghost use Rattle.exchange_core.specs.Buckets.{buckets, bucket};

use crate::Reply;
use crate::buckets::bucket_of;
use event_model::transmission::EXCHANGE_LIFETIME;
use rd_base::{Moment, Peer};
use std::marker::Model;

/// What a write is, compared with the stored exchanges (RFC 7252 section 4.5).
#[derive(Debug, Drop, PartialEq, Eq)]
pub enum Keyed {
    /// It is new, and it was admitted.
    Fresh,
    /// It is a duplicate of a write in progress, which has no answer yet.
    InFlight,
    /// It is a duplicate of a write that was answered with these octets.
    Kept(Reply),
    /// It is new, but the table of exchanges is full.
    FullExchanges,
}

/// An admitted write, and its answer.
#[derive(Debug, Drop)]
pub struct Exchange {
    /// The peer that sent it.
    peer: Peer,
    /// The Message ID of the write.
    mid: u16,
    /// The moment at which it was admitted.
    admitted: Moment,
    /// The octets of its answer, or `None` while it is in progress.
    reply: Option<Reply>,
}

impl Model for Exchange {
    ghost use Rattle.event_model.specs.Repeats.{Exchange as Admission};

    ghost Value = { Admission };

    ghost view = { λ x. record
        { peer = x.peer; mid = x.mid; moment = x.admitted.0; reply = x.reply } };
}

impl Exchange {
    /// Returns a write of a peer under a Message ID that is admitted now, in progress.
    pub(crate) fn in_flight(peer: Peer, mid: u16, now: Moment) -> Exchange
        ensures { result ≡ admitted_now peer mid now.0 }
    {
        Exchange {
            peer,
            mid,
            admitted: now,
            reply: None,
        }
    }

    /// Returns whether it is a write of this peer under this Message ID.
    pub(crate) fn is_with(&self, peer: Peer, mid: u16) -> bool
        ensures { result ≡ is_with peer mid self.now }
    {
        self.peer == peer && self.mid == mid
    }

    /// Returns whether it is the write of this peer under this Message ID that was admitted at this
    /// moment.
    pub(crate) fn is_admitted_at(&self, peer: Peer, mid: u16, admitted: Moment) -> bool
        ensures { result ≡ is_admitted_at peer mid admitted.0 self.now }
    {
        self.is_with(peer, mid) && self.admitted == admitted
    }

    /// Returns whether it is a write of this peer under this Message ID, admitted at this moment if
    /// one is given.
    pub(crate) fn is_sought(&self, peer: Peer, mid: u16, admitted: Option<Moment>) -> bool
        ensures { result ≡ is_sought peer mid admitted self.now }
    {
        match admitted {
            None => self.is_with(peer, mid),
            Some(moment) => self.is_admitted_at(peer, mid, moment),
        }
    }

    /// Returns its bucket.
    pub(crate) fn bucket(&self) -> usize
        ensures bucket { result ≡ bucket self.now }
        ensures within { result < buckets }
    {
        bucket_of(self.peer, self.mid)
    }

    /// Returns whether it has not expired: it was admitted less than `EXCHANGE_LIFETIME`
    /// milliseconds before `now`.
    pub(crate) fn is_young(&self, now: Moment) -> bool
        ensures { result ≡ is_young now.0 self.now.moment }
    {
        now.0.saturating_sub(self.admitted.0) < EXCHANGE_LIFETIME
    }

    /// Returns the answer to a duplicate of it.
    pub(crate) fn repeated(&self) -> Keyed
        ensures { result ≡ repeating self.now.reply }
    {
        match &self.reply {
            None => Keyed::InFlight,
            Some(reply) => Keyed::Kept(reply.copy()),
        }
    }

    /// Stores the octets of its answer.
    pub(crate) fn answer(&mut self, reply: Reply)
        ensures { self.new ≡ answered reply self.old }
    {
        self.reply = Some(reply);
    }
}
