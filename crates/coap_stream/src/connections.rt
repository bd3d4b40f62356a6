//! Connections over TCP as an [`Accept`].
ghost use Rattle.std.specs.Prelude.{None};
ghost use Rattle.tcp_door.specs.Doors as tcp;
ghost use Rattle.coap_stream.specs.Serving.{CountsOpened, Opens, opened_peer};

use crate::doors::{Accept, Opened};
use std::time;
use tcp_door::{TcpAccept, TcpConnection, TcpSink, TcpSource};

/// It exposes nothing of what its connections receive and send.
impl<R: time::Clock + Copy> Accept for TcpAccept<R> {
    type In = TcpSource<R>;

    type Out = TcpSink;

    ghost coming = { λ _. None };

    ghost faults = { λ d. d.faults };

    /// Waits for the next connection, and opens it.
    fn next(&mut self) -> Opened<TcpSource<R>, TcpSink>
        ensures opened { Opens (λ _. None) None None result }
        ensures cause { CountsOpened self.old.faults self.new.faults result }
        // No other connection of this listener has the peer of a connection, and no device has it.
        ensures peer { tcp.Opens self.old self.new (opened_peer result) }
    {
        match self.open() {
            Some(TcpConnection { peer, source, sink }) => Opened::One(peer, source, sink),
            None => Opened::Failed,
        }
    }
}
