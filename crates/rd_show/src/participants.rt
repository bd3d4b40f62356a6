//! The participants of a diagram.

use super::repeats::room;
use lru::LruCache;
use rd_base::{Peer, Starved, peer_text};
use std::alloc::Global;

/// The peers that a diagram has introduced.
#[derive(Drop)]
pub(crate) struct Participants {
    /// The peers that it introduced most recently.
    introduced: LruCache<Peer, ()>,
}

/// Writes the identifier of a peer, from its spelling: the letters, digits and dots, with
/// underscores in place of colons and brackets.
fn write_identifier(page: &mut String, spelled: &str) -> Result<(), Starved> {
    page.push('p')?;
    'characters: for character in spelled.chars() {
        match character {
            ':' | '[' | ']' => page.push('_')?,
            _ => page.push(character)?,
        }
    }
    Ok(())
}

/// Writes the identifier of a peer.
pub(crate) fn write_participant(
    page: &mut String,
    alloc: Global,
    peer: &Peer,
) -> Result<(), Starved> {
    write_identifier(page, peer_text(alloc, peer)?.as_str())
}

/// Writes that a peer takes part, and its spelling. Mermaid reads a name to the end of its line,
/// and takes nothing in an address and a port for its own text.
fn write_introduction(page: &mut String, alloc: Global, peer: &Peer) -> Result<(), Starved> {
    let spelled = peer_text(alloc, peer)?;
    page.push_str("    participant ")?;
    write_identifier(page, spelled.as_str())?;
    page.push_str(" as ")?;
    page.push_str(spelled.as_str())?;
    Ok(page.push_str("\n")?)
}

impl Participants {
    /// Creates an empty set of participants.
    pub(crate) fn make(alloc: Global) -> Result<Participants, Starved> {
        Ok(Participants {
            introduced: LruCache::new(alloc, room())?,
        })
    }

    /// Writes that a peer takes part, unless that was written before. A peer is introduced again,
    /// as the same participant, after as many others as there is room for.
    pub(crate) fn introduce(
        &mut self,
        page: &mut String,
        alloc: Global,
        peer: Peer,
    ) -> Result<(), Starved> {
        if self.introduced.get(&peer).is_some() {
            return Ok(());
        }
        self.introduced.put(peer, ())?;
        write_introduction(page, alloc, &peer)
    }
}
