//! Doors at which several workers take connections, each in a lane of its own.
ghost use Rattle.tcp_door.specs.Lanes.{Knocks, LaneSeen, PeersAreApart};

use rd_base::{Peer, Sink, Source};

/// The result of [`Entrance::next`].
#[derive(Debug, Drop)]
pub enum Knock<S, K> {
    /// A connection: the peer that stands for it, the source of its octets, and a sink to it.
    One(Peer, S, K),
    /// There is none yet.
    Nothing,
    /// The door failed, and counted the fault.
    Failed,
}

/// A door at which one of several workers takes connections. The peers of its connections are of
/// its own lane, so that no connection of another door has one of them.
pub trait Entrance {
    /// The type from which the octets of a connection are read.
    type In: Source + Drop + Send;

    /// The type to which a connection is written.
    type Out: Sink + Drop + Send;

    /// Its lane, how many connections it opened, and how many calls failed.
    ghost seen: { Self → LaneSeen };

    /// Waits a little for the next connection, and opens it.
    fn next(&mut self) -> Knock<Self::In, Self::Out>
        ensures { Knocks (seen self.old) (seen self.new) result };
}

/// States the law that two connections have one peer only if they are the same one of the same
/// lane.
pub fn peers_are_apart()
    ensures { PeersAreApart }
{}
