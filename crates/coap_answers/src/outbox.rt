//! The output of a step: datagrams with their destinations.
ghost use Rattle.std.specs.Prelude.{◌≡◌, ◌<◌, ◌≤◌, [], ◌∷◌, ◌++◌, length, IfOk, IsTrue, ◌↔◌};
ghost use Rattle.std.specs.Prelude.{ℕ, List, option_map, slice_get};
ghost use Rattle.coap_message.specs.PartialMessages.{longest_datagram};
ghost use Rattle.coap_answers.specs.Outboxes.{most_datagrams};

use crate::Datagram;
use coap_message::{Kind4, TokenRef, Writer};
use message_model::MAX_MESSAGE_SIZE;
use message_model::codes::EMPTY;
use rd_base::{Peer, Starved};
use std::alloc::Global;
use std::marker::Model;

/// The most datagrams that one step sends.
const MOST: usize = 1_152;

/// The most octets that they have together: 1,280 each.
const OCTETS: usize = 1_474_560;

/// The position of a datagram among the octets.
#[derive(Clone, Copy)]
struct Span {
    /// The peer that it goes to.
    peer: Peer,
    /// The offset of its first octet.
    start: usize,
    /// The offset after its last octet.
    end: usize,
}

/// Datagrams with their destinations, in order: at most 1,152, of at most 1,280 octets each. Only
/// creating them allocates.
#[derive(Drop)]
pub(crate) struct Datagrams {
    /// The octets of all datagrams, one after the other.
    octets: Vec<u8>,
    /// The position of each.
    spans: Vec<Span>,
}

impl Model for Datagrams {
    ghost use Rattle.std.specs.Prelude.{ℕ, List};
    ghost use Rattle.rd_base.specs.declared.peers.Peer.{Peer};
    ghost use Rattle.coap_answers.specs.Outboxes.{datagrams_shown, IsOutbox};

    ghost Value = { List (Peer × List ℕ) };

    ghost view = { datagrams_shown };

    ghost invariant = { IsOutbox };
}

impl Datagrams {
    /// Creates a list without datagrams, with room for all that one step sends.
    fn make(alloc: Global) -> Result<Datagrams, Starved>
        ensures { IfOk result (λ datagrams. datagrams ≡ []) }
    {
        let octets = Vec::with_capacity(alloc, OCTETS)?;
        let spans = Vec::with_capacity(alloc, MOST)?;
        Ok(Datagrams { octets, spans })
    }

    /// Appends a datagram. Does not allocate.
    pub(crate) fn push(&mut self, peer: Peer, datagram: Datagram<'_>)
        requires room { length self.old < most_datagrams }
        ensures { self.new ≡ self.old ++ (peer, datagram.entry.octets.now) ∷ [] }
    {
        let start = self.octets.len();
        if self.octets.extend_from_slice(datagram.octets).is_err() {
            unreachable!()
        }
        let end = self.octets.len();
        self.spans.push_reserved(Span { peer, start, end });
    }

    /// Returns the number of datagrams, at most 1,152.
    fn len(&self) -> usize
        ensures count { result ≡ length self.now }
        ensures few { result ≤ most_datagrams }
    {
        self.spans.len()
    }

    /// Returns whether there are no datagrams.
    fn is_empty(&self) -> bool
        ensures { IsTrue result ↔ (self.now ≡ []) }
    {
        self.spans.is_empty()
    }

    /// Returns the datagram with this index, from 0, and the peer that it goes to, or `None` past
    /// the end.
    fn at(&self, index: usize) -> Option<(Peer, &[u8])>
        ensures { option_map (λ found. (found.0, found.1.now)) result ≡ slice_get self.now index }
    {
        let Span { peer, start, end } = *self.spans.as_slice().get(index)?;
        Some((peer, self.octets.as_slice().get(start..end)?))
    }

    /// Returns the octets of the last datagram, or none if there is no datagram.
    fn last(&self) -> &[u8]
        ensures last { (front : List (Peer × List ℕ)) (peer : Peer) (octets : List ℕ)
            → self.now ≡ front ++ (peer, octets) ∷ []
            → result.now ≡ octets }
        ensures none { self.now ≡ [] → result.now ≡ [] }
    {
        let count = self.len();
        if count == 0 {
            return b"";
        }
        match self.at(count - 1) {
            Some((_, octets)) => octets,
            None => b"",
        }
    }

    /// Removes all datagrams.
    fn clear(&mut self)
        ensures { self.new ≡ [] }
    {
        self.octets.clear();
        self.spans.clear();
    }
}

/// The datagrams that a step sends, in order: at most 1,152, of at most 1,280 octets each. Only
/// creating it allocates.
#[derive(Drop)]
pub struct Outbox {
    /// The datagrams.
    pub(crate) datagrams: Datagrams,
    /// Where the next datagram is written. Contracts do not see it.
    pub(crate) writer: Writer,
}

impl Model for Outbox {
    ghost use Rattle.std.specs.Prelude.{ℕ, List};
    ghost use Rattle.rd_base.specs.declared.peers.Peer.{Peer};

    ghost Value = { List (Peer × List ℕ) };

    ghost view = { λ o. o.datagrams };
}

impl Outbox {
    /// Creates an empty outbox, with room for all that one step sends.
    ///
    /// # Errors
    ///
    /// `Starved` if memory runs out.
    pub fn make(alloc: Global) -> Result<Outbox, Starved>
        ensures { IfOk result (λ outbox. outbox ≡ []) }
    {
        let datagrams = Datagrams::make(alloc)?;
        let writer = Writer::start(Kind4::Con, EMPTY, 0, TokenRef { octets: b"" });
        Ok(Outbox { datagrams, writer })
    }

    /// Appends a datagram. Does not allocate.
    ///
    /// # Requires
    ///
    /// There are fewer than 1,152 datagrams.
    pub fn push(&mut self, peer: Peer, datagram: Datagram<'_>)
        requires room { length self.old < most_datagrams }
        ensures { self.new ≡ self.old ++ (peer, datagram.entry.octets.now) ∷ [] }
    {
        self.datagrams.push(peer, datagram);
    }

    /// Appends a datagram if there is room and it has at most 1,280 octets. Does not allocate.
    pub fn push_fitting(&mut self, peer: Peer, datagram: &[u8])
        ensures { length self.old < most_datagrams
            → length datagram.now ≤ longest_datagram
            → self.new ≡ self.old ++ (peer, datagram.now) ∷ [] }
    {
        if self.len() < MOST && datagram.len() <= MAX_MESSAGE_SIZE {
            self.push(peer, Datagram { octets: datagram });
        }
    }

    /// Returns the number of datagrams, at most 1,152.
    pub fn len(&self) -> usize
        ensures count { result ≡ length self.now }
        ensures few { result ≤ most_datagrams }
    {
        self.datagrams.len()
    }

    /// Returns whether there are no datagrams.
    pub fn is_empty(&self) -> bool
        ensures { IsTrue result ↔ (self.now ≡ []) }
    {
        self.datagrams.is_empty()
    }

    /// Returns the datagram with this index, from 0, and the peer that it goes to, or `None` past
    /// the end.
    pub fn at(&self, index: usize) -> Option<(Peer, &[u8])>
        ensures { option_map (λ found. (found.0, found.1.now)) result ≡ slice_get self.now index }
    {
        self.datagrams.at(index)
    }

    /// Returns the octets of the last datagram, or none if there is no datagram.
    pub fn last(&self) -> &[u8]
        ensures last { (front : List (Peer × List ℕ)) (peer : Peer) (octets : List ℕ)
            → self.now ≡ front ++ (peer, octets) ∷ []
            → result.now ≡ octets }
        ensures none { self.now ≡ [] → result.now ≡ [] }
    {
        self.datagrams.last()
    }

    /// Removes all datagrams.
    pub fn clear(&mut self)
        ensures { self.new ≡ [] }
    {
        self.datagrams.clear();
    }
}
