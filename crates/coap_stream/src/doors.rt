//! Sources of connections.
ghost use Rattle.std.specs.Prelude.{ℕ, List, Option};
ghost use Rattle.udp_link.specs.Links.{Datagram};
ghost use Rattle.coap_stream.specs.Serving.{CountsOpened, Opens};

use rd_base::{Peer, Sink, Source};

/// The result of [`Accept::next`].
#[derive(Debug, Drop)]
pub enum Opened<S, K> {
    /// A connection: its peer, the source of its octets, and a sink to it.
    One(Peer, S, K),
    /// No connection could be opened, and the listener counted the fault.
    Failed,
}

/// A source of connections, which come one after the other.
pub trait Accept {
    /// The type from which the octets of a connection are read.
    type In: Source + Drop;

    /// The type to which a connection is written.
    type Out: Sink + Drop;

    /// The peers and the octets of the connections that are still to come, if the listener exposes
    /// them.
    ghost coming: { Self → Option (List Datagram) };

    /// How many calls have failed. It never falls, and stays at 2^64 - 1 once it has reached that.
    ghost faults: { Self → ℕ };

    /// Waits for the next connection, and opens it.
    fn next(&mut self) -> Opened<Self::In, Self::Out>
        ensures opened { Opens Self.In.left (coming self.old) (coming self.new) result }
        ensures cause { CountsOpened (faults self.old) (faults self.new) result };
}
