//! The address of a server at which each peer was last received from.
ghost use Rattle.std.specs.Prelude.{◌≡◌, [], IfOk, OnOk, OnErr};
ghost use Rattle.std.specs.Map.{lookup};
ghost use Rattle.lru.specs.LruCache.{lru_cache, put_entries};

use lru::LruCache;
use rd_base::{Peer, Starved};
use std::alloc::Global;
use std::hash::RandomState;
use std::num::NonZeroUsize;

/// How many peers are remembered: twice as many as there can be registrations.
const MOST_PEERS: usize = 8192;

/// For each peer, the address at which a datagram of it was last received. Holds the 8,192 peers
/// most recently received from or sent to.
#[derive(Drop)]
pub struct Routes {
    heard: LruCache<Peer, usize, RandomState>,
}

impl Routes {
    /// Creates a table without peers.
    ///
    /// # Errors
    ///
    /// `Starved` if memory runs out.
    pub fn new(alloc: Global, keys: RandomState) -> Result<Routes, Starved>
        ensures { IfOk result (λ routes. routes.heard ≡ lru_cache [] 8192) }
    {
        let Some(most) = NonZeroUsize::new(MOST_PEERS) else {
            return Err(Starved);
        };
        let heard = LruCache::with_hasher(alloc, most, keys)?;
        Ok(Routes { heard })
    }

    /// Records that the address `place` received from a peer.
    ///
    /// # Errors
    ///
    /// `Starved` if memory runs out; nothing is recorded then.
    pub(crate) fn hear(&mut self, peer: Peer, place: usize) -> Result<(), Starved>
        ensures heard { OnOk result (self.new.heard ≡ lru_cache
            (put_entries ⟦<Peer as PartialEq>⟧.eq self.old.heard peer place)
            self.old.heard.cap) }
        ensures starved { OnErr result (self.new.heard ≡ self.old.heard) }
    {
        self.heard.put(peer, place)?;
        Ok(())
    }

    /// Returns the address that last received from a peer, if that is remembered.
    pub(crate) fn place_of(&mut self, peer: Peer) -> Option<usize>
        ensures { result ≡ lookup (⟦<Peer as PartialEq>⟧.eq peer) self.old.heard.entries }
    {
        self.heard.get(&peer).copied()
    }
}
