//! Lists of datagrams, and how one is delivered.
ghost use Rattle.std.specs.Prelude.{◌≡◌, ◌≤◌, ◌∷◌, ◌++◌, [], length, OnOk, OnErr};
ghost use Rattle.udp_link.specs.Links.{IsDelivered};

use crate::{Came, MAX_DATAGRAM};
use rd_base::{Bytes, Peer, Starved};
use std::alloc::Global;
use std::marker::Model;

/// Datagrams in order, each with the peer that it comes from or goes to.
#[derive(Debug, Drop)]
pub struct Arrivals {
    items: Vec<(Peer, Bytes)>,
}

impl Model for Arrivals {
    ghost use Rattle.std.specs.Prelude.{List};
    ghost use Rattle.udp_link.specs.Links.{Datagram};

    ghost Value = { List Datagram };

    ghost view = { λ a. a.items.items };
}

impl Arrivals {
    /// Returns an empty list. Does not allocate.
    pub fn new(alloc: Global) -> Arrivals
        ensures { result ≡ [] }
    {
        Arrivals {
            items: Vec::new(alloc),
        }
    }

    /// Returns the list of these datagrams, in order. Does not allocate.
    pub fn of(items: Vec<(Peer, Bytes)>) -> Arrivals
        ensures { result ≡ items.items }
    {
        Arrivals { items }
    }

    /// Returns the datagrams, in order.
    pub fn as_slice(&self) -> &[(Peer, Bytes)]
        ensures { result.now ≡ self.now }
    {
        self.items.as_slice()
    }

    /// Returns the datagrams as a vector. Does not allocate.
    pub fn into_vec(self) -> Vec<(Peer, Bytes)>
        ensures { result.items ≡ self }
    {
        let Arrivals { items } = self;
        items
    }

    /// Appends a datagram.
    ///
    /// # Errors
    ///
    /// `Starved` if memory runs out. The list does not change then.
    pub fn push(&mut self, peer: Peer, octets: Bytes) -> Result<(), Starved>
        ensures ok { OnOk result (self.new ≡ self.old ++ (peer, octets) ∷ []) }
        ensures err { OnErr result (self.new ≡ self.old) }
    {
        self.items.push((peer, octets))?;
        Ok(())
    }

    /// Appends a copy of a datagram. `Starved` leaves the list unchanged.
    pub(crate) fn push_copy(
        &mut self,
        alloc: Global,
        peer: Peer,
        octets: &[u8],
    ) -> Result<(), Starved>
        ensures ok { OnOk result (self.new ≡ self.old ++ (peer, octets.now) ∷ []) }
        ensures err { OnErr result (self.new ≡ self.old) }
    {
        let octets = Bytes::copy_of(alloc, octets)?;
        self.push(peer, octets)
    }
}

/// Puts the octets of a datagram at the beginning of `into`, unless there are more than 4,096.
pub(crate) fn deliver(peer: Peer, octets: &[u8], into: &mut [u8]) -> Came
    requires { MAX_DATAGRAM ≤ length into.old }
    ensures { IsDelivered result (peer, octets.now) into.new }
{
    if octets.len() > MAX_DATAGRAM {
        return Came::TooLong;
    }
    into[..octets.len()].copy_from_slice(octets);
    Came::Datagram(peer, octets.len())
}
