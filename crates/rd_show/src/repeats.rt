//! Which messages are duplicates, and which the directory retransmits.

use super::changes::Change;
use super::names::{MessageName, confirmable_to};
use event_model::limits::MAX_EXCHANGES;
use event_model::transmission::EXCHANGE_LIFETIME;
use lru::LruCache;
use rd_base::{Bytes, Moment, Peer, Starved};
use std::alloc::Global;
use std::num::NonZeroUsize;

/// The received messages, each with the moment at which it was first received.
#[derive(Drop)]
pub(crate) struct Arrivals {
    /// The greatest moment so far.
    latest: Moment,
    /// The moment at which each message was first received.
    firsts: LruCache<MessageName, Moment>,
}

/// The confirmable messages that the directory sent.
#[derive(Drop)]
pub(crate) struct Sendings {
    /// Their octets.
    octets: LruCache<MessageName, Bytes>,
}

/// Returns the number of messages that are remembered.
pub(crate) fn room() -> NonZeroUsize {
    NonZeroUsize::new(MAX_EXCHANGES).unwrap_or(NonZeroUsize::MIN)
}

impl Arrivals {
    /// Creates an empty set of received messages.
    pub(crate) fn make(alloc: Global) -> Result<Arrivals, Starved> {
        Ok(Arrivals {
            latest: Moment(0),
            firsts: LruCache::new(alloc, room())?,
        })
    }

    /// Returns whether a message is a duplicate of a remembered one, at this moment or the greatest
    /// so far, whichever is later.
    fn is_repeat_at(&self, message: MessageName, moment: Moment) -> bool {
        let now = self.latest.later(moment);
        match self.firsts.peek(&message) {
            Some(first) => now.0.saturating_sub(first.0) < EXCHANGE_LIFETIME,
            None => false,
        }
    }

    /// Returns whether the message that a change received is a duplicate of a remembered one.
    pub(crate) fn is_repeat(&self, change: &Change) -> bool {
        match (change.message, change.moment) {
            (Some(message), Some(moment)) => self.is_repeat_at(message, moment),
            _ => false,
        }
    }

    /// Records a change. A duplicate does not count anew.
    pub(crate) fn note(&mut self, change: &Change) -> Result<(), Starved> {
        let is_repeat = self.is_repeat(change);
        if let Some(moment) = change.moment {
            self.latest = self.latest.later(moment);
        }
        if let Some(message) = change.message
            && !is_repeat
        {
            self.firsts.put(message, self.latest)?;
        }
        Ok(())
    }
}

impl Sendings {
    /// Creates an empty set of sent messages.
    pub(crate) fn make(alloc: Global) -> Result<Sendings, Starved> {
        Ok(Sendings {
            octets: LruCache::new(alloc, room())?,
        })
    }

    /// Returns whether a message with this name was sent before with these octets.
    fn was_sent(&mut self, message: MessageName, datagram: &[u8]) -> bool {
        match self.octets.get(&message) {
            Some(octets) => octets.as_slice() == datagram,
            None => false,
        }
    }

    /// Records a datagram that the directory sends. Returns whether it is retransmitted: a
    /// confirmable message with the same octets as before, to the same peer (RFC 7252 section 4.2).
    pub(crate) fn note(
        &mut self,
        alloc: Global,
        peer: Peer,
        datagram: &[u8],
    ) -> Result<bool, Starved> {
        let Some(message) = confirmable_to(peer, datagram) else {
            return Ok(false);
        };
        if self.was_sent(message, datagram) {
            return Ok(true);
        }
        let octets = Bytes::copy_of(alloc, datagram)?;
        self.octets.put(message, octets)?;
        Ok(false)
    }
}
