//! An observer of a lookup.
ghost use Rattle.std.specs.Prelude.{◌≡◌};
ghost use Rattle.std.specs.Arc.{arc_value};
ghost use Rattle.observers.specs.Standing.{is_named, has_notification, marked, notified, seen};
ghost use Rattle.observers.specs.Standing.{landed};
ghost use Rattle.observers.specs.Standing.{due_of, timed};

use exchange_core::{Again, Sent, Token};
use rd_base::{Bytes, Key, Moment, Peer};
use std::marker::Model;
use std::sync::Arc;

/// An observer of a lookup (RFC 7641 section 1.2), with the notification in flight to it.
#[derive(Drop)]
pub struct Observer {
    /// The peer that receives its notifications.
    pub peer: Peer,
    /// The token of its request, which each notification carries.
    pub token: Token,
    /// The slot of the watch table in which its query is watched. Contracts call it `slot`.
    pub place: u32,
    /// The key of its request.
    pub key: Key,
    /// The exponent of the block size that it requested (RFC 7959 section 2.2).
    pub szx: u8,
    /// Whether the lines of its query changed since its listing was last built or found unchanged.
    pub due: bool,
    /// The body that was last built for it.
    pub last: Arc<Bytes>,
    /// The notification in flight to it: the one last built, if it is unacknowledged.
    pub flight: Option<Sent>,
}

impl Model for Observer {
    ghost use Rattle.std.specs.Arc.{arc_value};
    ghost use Rattle.observers.specs.Standing.{Standing};

    ghost Value = { Standing };

    ghost view = { λ o. record {
      peer =
          o.peer;
      token =
          o.token;
      slot =
          o.place;
      key =
          o.key;
      szx =
          o.szx;
      due = o.due;
      last = arc_value o.last;
      flight = o.flight;
    } };
}

impl Observer {
    /// Returns whether it is the observer of this peer and token.
    pub(crate) fn is_named(&self, peer: &Peer, token: &Token) -> bool
        ensures { result ≡ is_named peer.now token.now self.now }
    {
        *token == self.token && *peer == self.peer
    }

    /// Returns whether it is due.
    pub(crate) fn is_due(&self) -> bool
        ensures { result ≡ self.now.due }
    {
        self.due
    }

    /// Returns the peer that receives its notifications.
    pub(crate) fn peer(&self) -> &Peer
        ensures { result.now ≡ self.now.peer }
    {
        &self.peer
    }

    /// Returns whether it is an observer of this peer, to which a notification with this Message ID
    /// is in flight.
    pub(crate) fn has_notification(&self, peer: &Peer, mid: u16) -> bool
        ensures { result ≡ has_notification peer.now mid self.now }
    {
        match &self.flight {
            Some(sent) => *peer == self.peer && mid == sent.mid,
            None => false,
        }
    }

    /// Marks it as due, if its query is watched in this slot.
    pub(crate) fn mark(&mut self, slot: u32)
        ensures { self.new ≡ marked slot self.old }
    {
        self.due = self.due || self.place == slot;
    }

    /// Records that a notification with this body was built for it.
    pub(crate) fn notification(&mut self, flight: Sent, body: Arc<Bytes>)
        ensures { self.new ≡ notified flight (arc_value body) self.old }
    {
        self.due = false;
        self.last = body;
        self.flight = Some(flight);
    }

    /// Records that its listing was found unchanged.
    pub(crate) fn see(&mut self)
        ensures { self.new ≡ seen self.old }
    {
        self.due = false;
    }

    /// Records that its notification was acknowledged.
    pub(crate) fn land(&mut self)
        ensures { self.new ≡ landed self.old }
    {
        self.flight = None;
    }

    /// Returns what is due of its notification now (RFC 7252 section 4.2), or `Wait` if none is in
    /// flight.
    pub(crate) fn time(&mut self, now: Moment) -> Again
        ensures due { result ≡ due_of now.0 self.old.flight }
        ensures kept { self.new ≡ timed now.0 self.old }
    {
        match &mut self.flight {
            Some(sent) => sent.resend.at_tick(now),
            None => Again::Wait,
        }
    }
}
