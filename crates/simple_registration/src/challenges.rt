//! A challenge that can be answered.
ghost use Rattle.std.specs.Prelude.{◌≡◌, ◌&&◌, bytes_eq};
ghost use Rattle.event_model.specs.Same.{is_same_peer};
ghost use Rattle.event_model.specs.Events.{is_young};
ghost use Rattle.simple_registration.specs.Challenges.{challenge_made};

use event_model::transmission::EXCHANGE_LIFETIME;
use rd_base::{Moment, Peer};
use std::marker::Model;

/// A challenge, as it was issued.
#[derive(Debug, Drop)]
pub(crate) struct Challenge {
    /// The peer to which it went.
    peer: Peer,
    /// The value that the peer is to return.
    value: [u8; 8],
    /// The moment at which it was issued.
    made: Moment,
}

impl Model for Challenge {
    ghost use Rattle.event_model.specs.Challenges.{Challenge as Made};

    ghost Value = { Made };

    ghost view = { λ c. record { peer = c.peer; value = c.value; moment = c.made.0 } };
}

impl Challenge {
    /// Issues a challenge now.
    pub(crate) fn new(now: Moment, peer: Peer, value: [u8; 8]) -> Challenge
        ensures { result ≡ challenge_made now.0 peer value }
    {
        Challenge {
            peer,
            value,
            made: now,
        }
    }

    /// Returns whether it went to this peer.
    pub(crate) fn is_of(&self, peer: &Peer) -> bool
        ensures { result ≡ is_same_peer self.now.peer peer.now }
    {
        self.peer == *peer
    }

    /// Returns whether a value answers it: the challenge has not expired, and this is its value.
    pub(crate) fn is_answered_by(&self, now: Moment, value: &[u8]) -> bool
        ensures { result
            ≡ (is_young now.0 self.now.moment && bytes_eq self.now.value value.now) }
    {
        if now.0.saturating_sub(self.made.0) >= EXCHANGE_LIFETIME {
            return false;
        }
        self.value.as_slice() == value
    }
}
